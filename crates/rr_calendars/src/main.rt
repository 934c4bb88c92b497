//! `rr-calendars` says of two calendar files whether each event survived the trip between them.
#![tactic(auto)]

mod ended;
mod exit;
mod program;
mod progress;
mod taken;
mod unread;
mod work;

pub use ended::Ended;
use exit::exit_number;
pub use program::run;
use progress::Progress;
pub use rr_compare::Status;
use rr_compare::{Asked, Language, parse};
use rr_io::{HostSink, HostSource, NotRun, WriteFault, put_note};
use rr_notes::{
    NO_MEMORY, NO_TEXT, WRITE_FAULT, note_on_calendar_refusal, note_on_calendar_words,
    note_on_file, note_on_utc, note_on_zones_of_file,
};
use rr_seam::MAX_FILE;
use std::alloc::AllocError;
use std::env;
use std::io::IsTerminal;
use std::process::ExitCode;
use taken::note_languages;
use unread::note_unread;

// What is noted of how a run ended, by what the sink took. If the reader of the output has gone, nothing is.
fn fixed_note(status: Status, sink: &HostSink<&HostRuntime>) -> Option<&'static str> {
    match status {
        Status::Refused => note_on_calendar_refusal(sink.front()),
        Status::WriteFault if sink.failure() != Some(WriteFault::ReaderGone) => Some(WRITE_FAULT),
        Status::NoMemory => Some(NO_MEMORY),
        _ => None,
    }
}

// What is noted of words that ask nothing, and of a file that could not be read.
fn made_note(
    rt: &HostRuntime,
    status: Status,
    words: &[&str],
    source: &HostSource<&HostRuntime>,
) -> Result<Option<String>, AllocError> {
    let alloc = rt.alloc();
    match status {
        Status::Usage => Ok(Some(note_on_calendar_words(alloc, words)?)),
        Status::ReadFault => match source.failure() {
            None => Ok(None),
            Some((name, why)) => Ok(Some(note_on_file(alloc, name, why)?)),
        },
        _ => Ok(None),
    }
}

// Puts a note on standard error, after the name of the program.
fn note(rt: &HostRuntime, text: &str) {
    put_note(rt, "rr-calendars", text)
}

// Notes which zone of each file turns nothing, and why.
fn note_zones(rt: &HostRuntime, words: &[&str]) {
    let Some(Asked::Comparison(request)) = parse(words) else {
        return;
    };
    for file in [request.old, request.new] {
        if matches!(file.language, Some(Language::Graph | Language::Vcal)) {
            continue;
        }
        if let Some(text) = note_on_zones_of_file(rt, file.name, MAX_FILE) {
            note(rt, text.as_str());
        }
    }
}

// Whether both files were read, so that the answer speaks of what stands in them.
fn was_compared(status: Status) -> bool {
    matches!(status, Status::Equal | Status::Differs | Status::Refused)
}

// Runs these words over the files and standard streams of the system, and notes what to do about the answer.
fn run_words(rt: &HostRuntime, words: &[&str]) -> Ended {
    let alloc = rt.alloc();
    let mut source = HostSource::new(alloc, rt);
    let mut sink = HostSink::new(rt);
    let mut progress = Progress::new(rt, rt.stderr().is_terminal());
    let ended = run(alloc, words, &mut source, &mut sink, &mut progress);
    if let Some(text) = fixed_note(ended.status, &sink) {
        note(rt, text);
    }
    if let Ok(Some(text)) = made_note(rt, ended.status, words, &source) {
        note(rt, text.as_str());
    }
    if ended.in_utc > 0 {
        note_zones(rt, words);
    }
    if was_compared(ended.status) {
        note_languages(rt, words);
        note_unread(rt, words);
    }
    ended
}

// The words of the system behind the name of the program.
fn words_of_system(rt: &HostRuntime) -> Result<Vec<String>, NotRun> {
    let mut words = Vec::new(rt.alloc());
    for word in env::args(rt)?.skip(1) {
        words.push(word)?;
    }
    Ok(words)
}

// Runs the words of the system.
fn run_on_host(rt: &HostRuntime) -> Result<Ended, NotRun> {
    let words = words_of_system(rt)?;
    let mut texts = Vec::new(rt.alloc());
    for word in words.as_slice() {
        texts.push(word.as_str())?;
    }
    Ok(run_words(rt, texts.as_slice()))
}

// Notes on standard error how many events were not compared for want of an offset.
fn note_utc(rt: &HostRuntime, in_utc: usize) {
    if let Ok(Some(text)) = note_on_utc(rt.alloc(), in_utc) {
        note(rt, text.as_str());
    }
}

fn main(rt: HostRuntime) -> ExitCode {
    let ended = run_on_host(&rt);
    match ended {
        Ok(ended) => note_utc(&rt, ended.in_utc),
        Err(NotRun::NoText) => note(&rt, NO_TEXT),
        Err(NotRun::NoMemory) => note(&rt, NO_MEMORY),
    }
    ExitCode::from(exit_number(ended))
}
