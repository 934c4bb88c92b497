// What stands directly in an event (RFC 5545, section 3.6.1).
ghost use Rattle.std.specs.Prelude.{◌≡◌, [], map, option_map, IfOk};
ghost use Rattle.rr_events.specs.Own.{first_named, first_value, own_lines};

use rr_ical::{OpenNames, is_named, value_of_line};
use rr_model::{Fault, Line, NoMemory};
use std::alloc::Global;

/// The lines directly within an event, without those that open and close components; up to the first fault of these.
pub fn own_lines<'a>(alloc: Global, lines: &'a [Line]) -> Result<Vec<&'a Line>, NoMemory>
    ensures { IfOk result (λ own. map (λ line. line.now) own.items ≡ own_lines [] lines.now) }
{
    let mut names = OpenNames::new(alloc);
    let mut own = Vec::new(alloc);
    for line in lines {
        let was_in_event = names.is_in_event();
        match names.step(alloc, line) {
            Ok(()) => {}
            Err(Fault::Refused(_)) => return Ok(own),
            Err(Fault::NoMemory) => return Err(NoMemory),
        }
        if was_in_event && names.is_in_event() {
            own.push(line)?;
        }
    }
    Ok(own)
}

/// The first line of this name, in whatever case it is written; `None` if no line has it.
pub fn first_named<'a>(word: &[u8], lines: &[&'a Line]) -> Option<&'a Line>
    ensures { option_map (λ line. line.now) result
        ≡ first_named word.now (map (λ line. line.now) lines.now) }
{
    for line in lines {
        if is_named(line.text.as_slice(), word) {
            return Some(line);
        }
    }
    None
}

/// The value of the first line of this name, the empty text if there is none.
pub fn first_value<'a>(word: &[u8], lines: &[&'a Line]) -> &'a [u8]
    ensures { result.now ≡ first_value word.now (map (λ line. line.now) lines.now) }
{
    let Some(line) = first_named(word, lines) else {
        return b"";
    };
    value_of_line(line.text.as_slice()).unwrap_or(b"")
}
