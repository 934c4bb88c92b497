// The lines of an event that are read beside RSCALE (RFC 7529, section 4): starts, and one rule.
ghost use Rattle.std.specs.Prelude.{◌≡◌, ◌≤◌, ◌||◌, length, IfSome, false};
ghost use Rattle.rr_skip.specs.Reading.{first_unread, is_rule, line_refusal, lines_read};

use rr_model::{LineName, Refusal, Scan, UsedLine};

/// A line that is not read.
#[derive(Clone, Copy, Debug, PartialEq, Eq)]
pub(crate) struct Unread {
    /// How many lines stand before it.
    pub(crate) index: usize,
    /// Why it is not read.
    pub(crate) refusal: Refusal,
}

// Why a line is not read, behind a rule or not.
fn line_refusal(has_rule: bool, name: LineName) -> Option<Refusal>
    ensures { result ≡ line_refusal has_rule name }
{
    match name {
        LineName::Dtstart => None,
        LineName::Rrule => {
            if has_rule {
                Some(Refusal::TooManyParts)
            } else {
                None
            }
        }
        LineName::Rdate | LineName::Exdate | LineName::Exrule => Some(Refusal::Extended),
    }
}

// Whether a rule stands before what is behind the line.
fn has_rule_behind(has_rule: bool, name: LineName) -> bool
    ensures { result ≡ (has_rule || is_rule name) }
{
    has_rule || matches!(name, LineName::Rrule)
}

// The first line that is not read.
fn first_unread(lines: &[UsedLine]) -> Option<Unread>
    ensures value { result ≡ first_unread false 0 lines.now }
    ensures within { IfSome result (λ unread. unread.index ≤ length lines.now) }
{
    let mut has_rule = false;
    let mut index = 0usize;
    for line in lines {
        if let Some(refusal) = line_refusal(has_rule, line.name) {
            return Some(Unread { index, refusal });
        }
        has_rule = has_rule_behind(has_rule, line.name);
        index += 1;
    }
    None
}

/// The lines up to the first that is not read, which ends the scan.
pub(crate) fn lines_read(scan: Scan) -> Scan
    ensures { result ≡ lines_read scan }
{
    let Some(unread) = first_unread(scan.used.as_slice()) else {
        return scan;
    };
    let mut read = scan;
    read.used.truncate(unread.index);
    read.stop = Some(unread.refusal);
    read
}
