// Which events are found in a text.
use crate::rows::rows_hold;
use rr_events::*;
use rr_model::{Fault, Refusal};
use rr_text::lines_from;
use std::alloc::Global;
use std::fmt::Write;

// Texts, and the first lines, lengths and UIDs of their events, or the line of the fault.
const TEXTS: &str = "\
|
X:y~ BEGIN:VEVENT~|
BEGIN:VCALENDAR\r~BEGIN:VE\r~ VENT\r~BEGIN:VALARM\r~UID:b\r~END:VALARM\r~uid;X=y: a \r~END:VE\r~\tVENT\r~\
BEGIN:VEVENT\r~END:VEVENT\r~END:VCALENDAR\r~|2 78 a|10 26 |
begin:vevent~UID:~ a~ b~UID:c~end:vevent|1 40 ab|
BEGIN:VTODO~BEGIN:VEVENT~UID:a~BEGIN:VEVENT~UID:b~END:VEVENT~END:VEVENT~END:VTODO~|2 60 a|
BEGIN:VEVENT~END:VEVENT~~~BEGIN:A~~|line 6
END:VEVENT~|line 1
BEGIN:A~BEGIN~|line 2
BEGIN:A~BEGIN:VEVENT~END:A~|line 3
";

// Says an event after others.
fn say_piece(alloc: Global, said: &mut String, piece: &Piece) -> Option<()> {
    if piece.first > 1000 || piece.text.len() > 1000 {
        return None;
    }
    let lines = lines_from(alloc, piece.text, false, piece.first).ok()?;
    let own = own_lines(alloc, lines.as_slice()).ok()?;
    let uid = str::from_utf8(first_value(b"UID", &own)).ok()?;
    write!(said, "{} {} {uid}|", piece.first, piece.text.len()).ok()
}

// The events that are found, as the table writes them.
fn events_said(alloc: Global, text: &str) -> Option<String> {
    if text.len() > 1000 {
        return None;
    }
    let pieces = match find_events(alloc, text.as_bytes()) {
        Ok(pieces) => pieces,
        Err(Fault::Refused(Refusal::BadLine(line))) => return format!(in alloc; "line {line}").ok(),
        Err(_) => return None,
    };
    let mut said = String::new(alloc);
    for piece in &pieces {
        say_piece(alloc, &mut said, piece)?;
    }
    Some(said)
}

#[test]
fn events_are_found(rt: HostRuntime) {
    rows_hold(&rt, rt.alloc(), events_said, TEXTS);
}
