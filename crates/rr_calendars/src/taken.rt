// In which language a file was read whose word states none, if its name has not the ending of that language.
use rr_compare::{Asked, Language, Operand, language_by, parse};
use rr_io::put_note;
use rr_model::Side;
use rr_notes::bytes_again;

// How much of a file is read once more: its language stands in its first lines.
const FRONT: usize = 65_536;

// The language that the ending of a name tells; a name without such an ending is that of an iCalendar file.
fn language_of_name(name: &str) -> Language {
    if name.ends_with(".json") {
        Language::Graph
    } else if name.ends_with(".vcs") {
        Language::Vcal
    } else {
        Language::Ics
    }
}

// The language of a file by its content, if its word states none and its name tells another.
fn language_taken(rt: &HostRuntime, file: Operand) -> Option<Language> {
    if file.language.is_some() {
        return None;
    }
    let front = bytes_again(rt, file.name, FRONT)?;
    let language = language_by(None, front.as_slice());
    if language == language_of_name(file.name) {
        return None;
    }
    Some(language)
}

// What is noted of a file that was read in this language.
fn text_on_language(side: Side, language: Language) -> &'static str {
    match (side, language) {
        (Side::A, Language::Ics) => "OLD is read as ics, as its content tells",
        (Side::A, Language::Graph) => "OLD is read as graph, as its content tells",
        (Side::A, Language::Vcal) => "OLD is read as vcal, as its content tells",
        (_, Language::Ics) => "NEW is read as ics, as its content tells",
        (_, Language::Graph) => "NEW is read as graph, as its content tells",
        (_, Language::Vcal) => "NEW is read as vcal, as its content tells",
    }
}

// Notes in which language a file was read.
fn note_language(rt: &HostRuntime, side: Side, file: Operand) {
    if let Some(language) = language_taken(rt, file) {
        put_note(rt, "rr-calendars", text_on_language(side, language));
    }
}

/// Notes on standard error in which language each file was read whose word states none, if its name has not the ending of that
/// language. The first 65,536 bytes of the file are read once more; nothing is noted of standard input, a pipe or a device.
pub(crate) fn note_languages(rt: &HostRuntime, words: &[&str]) {
    if let Some(Asked::Comparison(request)) = parse(words) {
        note_language(rt, Side::A, request.old);
        note_language(rt, Side::B, request.new);
    }
}
