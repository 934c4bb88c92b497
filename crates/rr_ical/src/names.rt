// Which line a line is by its name.
ghost use Rattle.std.specs.Prelude.{◌≡◌};
ghost use Rattle.std.specs.Str.{str_eq_ignore_ascii_case};
ghost use Rattle.rr_model.specs.Text.Event.{is_event};
ghost use Rattle.rr_model.specs.Text.UsedLines.{is_named, line_kind};

use crate::value::name_and_rest;
use rr_model::{LineKind, LineName};

/// Whether two names are the same in either case.
pub fn is_same_name(name: &[u8], other: &[u8]) -> bool
    ensures { result ≡ str_eq_ignore_ascii_case name.now other.now }
{
    name.eq_ignore_ascii_case(other)
}

/// Whether it is the name of an event, in either case (RFC 5545, section 3.6.1).
pub fn is_event(name: &[u8]) -> bool
    ensures { result ≡ is_event name.now }
{
    is_same_name(name, b"VEVENT")
}

/// Whether the unfolded line has this name, in either case (RFC 5545, section 3.1).
pub fn is_named(text: &[u8], word: &[u8]) -> bool
    ensures { result ≡ is_named text.now word.now }
{
    let (name, _) = name_and_rest(text);
    is_same_name(name, word)
}

/// The kind of an unfolded line by its name, in either case. The name is read once.
#[tactic(auto, unfolding(rr_model::specs::Text::UsedLines::line_kind))]
pub fn line_kind(text: &[u8]) -> LineKind
    ensures { result ≡ line_kind text.now }
{
    let (name, _) = name_and_rest(text);
    if is_same_name(name, b"BEGIN") {
        LineKind::Begin
    } else if is_same_name(name, b"END") {
        LineKind::End
    } else if is_same_name(name, b"DTSTART") {
        LineKind::Property(LineName::Dtstart)
    } else if is_same_name(name, b"RRULE") {
        LineKind::Property(LineName::Rrule)
    } else if is_same_name(name, b"RDATE") {
        LineKind::Property(LineName::Rdate)
    } else if is_same_name(name, b"EXDATE") {
        LineKind::Property(LineName::Exdate)
    } else if is_same_name(name, b"EXRULE") {
        LineKind::Property(LineName::Exrule)
    } else {
        LineKind::Other
    }
}
