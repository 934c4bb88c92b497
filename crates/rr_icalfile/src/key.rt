// What an event is found again by (RFC 5545, section 3.8.4.7).
ghost use Rattle.std.specs.Prelude.{◌≡◌, ◌<◌, ◌+◌, ◌^◌, [], length, IfOk};
ghost use Rattle.rr_events.specs.Finding.{lines_in};
ghost use Rattle.rr_icalfile.specs.Keys.{IsOwnUid, IsSearched, first_line, key_of, uid_in};

use crate::zone::value_on;
use rr_events::{Piece, Rest, after_empty_lines, cut_line};
use rr_ical::{OpenNames, is_named};
use rr_model::{Bytes, Fault, Line, NoMemory};
use rr_seam::Key;
use std::alloc::Global;

/// The number of the line that begins an event.
pub(crate) fn first_line(lines: &[Line]) -> u64
    ensures { result ≡ first_line lines.now }
{
    match lines {
        [line, ..] => line.number,
        [] => 0,
    }
}

// The number of the line that begins the event of a piece.
fn number_of_begin(alloc: Global, piece: Piece) -> Result<u64, NoMemory>
    requires { piece.first + length piece.text.now < 2 ^ 64 }
    ensures { IfOk result (λ number. number ≡ first_line (lines_in piece.entry)) }
{
    match cut_line(alloc, piece.text, piece.first)? {
        Some(cut) => Ok(cut.line.number),
        None => Ok(0),
    }
}

// Whether a line is a UID that stands directly in the event. The fault is that of the components.
fn is_own_uid(alloc: Global, names: &mut OpenNames, line: &Line) -> Result<bool, Fault>
    ensures { IsOwnUid names.old line.now names.new result }
{
    let was_in_event = names.is_in_event();
    names.step(alloc, line)?;
    Ok(was_in_event && names.is_in_event() && is_named(line.text.as_slice(), b"UID"))
}

// The UID of an event if its search ends with this line: at the first that stands directly in the event, or empty at a fault of
// the components.
fn uid_by(alloc: Global, names: &mut OpenNames, line: &Line) -> Result<Option<Bytes>, NoMemory>
    ensures { IfOk result (IsSearched names.old line.now names.new) }
{
    match is_own_uid(alloc, names, line) {
        Ok(true) => Ok(Some(Bytes::of(alloc, value_on(line.text.as_slice()))?)),
        Ok(false) => Ok(None),
        Err(Fault::Refused(_)) => Ok(Some(Bytes::new(alloc))),
        Err(Fault::NoMemory) => Err(NoMemory),
    }
}

// The UID of the event of a piece, empty if it has none. Lines behind it are not unfolded.
fn uid_of(alloc: Global, piece: Piece) -> Result<Bytes, NoMemory>
    requires { piece.first + length piece.text.now < 2 ^ 64 }
    ensures { IfOk result (λ uid. uid ≡ uid_in [] (lines_in piece.entry)) }
{
    let mut names = OpenNames::new(alloc);
    let mut rest = Rest {
        text: piece.text,
        number: piece.first,
    };
    while let Some(cut) = cut_line(alloc, rest.text, rest.number)? {
        if let Some(uid) = uid_by(alloc, &mut names, &cut.line)? {
            return Ok(uid);
        }
        rest = after_empty_lines(cut.after, cut.next);
    }
    Ok(Bytes::new(alloc))
}

/// The key of an event: its UID, or the number of the line of its BEGIN if it has none.
pub fn key_of(alloc: Global, piece: Piece) -> Result<Key, NoMemory>
    requires { piece.first + length piece.text.now < 2 ^ 64 }
    ensures { IfOk result (λ key. key ≡ key_of (lines_in piece.entry)) }
{
    let uid = uid_of(alloc, piece)?;
    if uid.as_slice().is_empty() {
        Ok(Key::Line(number_of_begin(alloc, piece)?))
    } else {
        Ok(Key::Uid(uid))
    }
}
