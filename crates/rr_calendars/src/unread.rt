// What a file has beside its events, which is not compared (RFC 5545, sections 3.6.2 and 3.6.3).
use rr_compare::{Asked, Language, Operand, language_by, parse};
use rr_icalfile::{Unread, unread_components};
use rr_io::put_note;
use rr_model::Side;
use rr_notes::bytes_again;
use rr_seam::MAX_FILE;
use std::alloc::{AllocError, Global};

// How many tasks and journal entries a file has, if it is no list of Microsoft Graph.
fn unread_in(rt: &HostRuntime, file: Operand) -> Option<Unread> {
    let bytes = bytes_again(rt, file.name, MAX_FILE)?;
    let bytes = bytes.as_slice();
    if language_by(file.language, bytes) == Language::Graph {
        return None;
    }
    unread_components(rt.alloc(), bytes).ok()
}

// What is noted of a file by how many tasks and journal entries it has.
fn text_on_unread(alloc: Global, side: Side, unread: Unread) -> Result<String, AllocError> {
    let name = match side {
        Side::A => "OLD",
        _ => "NEW",
    };
    let (tasks, journals) = (unread.tasks, unread.journals);
    format!(in alloc; "{name} has {tasks} VTODO and {journals} VJOURNAL, which are not compared")
}

// Notes what a file has beside its events, if it has some.
fn note_of_file(rt: &HostRuntime, side: Side, file: Operand) {
    let Some(unread) = unread_in(rt, file) else {
        return;
    };
    if unread.tasks == 0 && unread.journals == 0 {
        return;
    }
    if let Ok(text) = text_on_unread(rt.alloc(), side, unread) {
        put_note(rt, "rr-calendars", text.as_str());
    }
}

/// Notes on standard error how many tasks and journal entries each file has, which are not compared. The file is read once more;
/// nothing is noted of standard input, a pipe or a device.
pub(crate) fn note_unread(rt: &HostRuntime, words: &[&str]) {
    if let Some(Asked::Comparison(request)) = parse(words) {
        note_of_file(rt, Side::A, request.old);
        note_of_file(rt, Side::B, request.new);
    }
}
