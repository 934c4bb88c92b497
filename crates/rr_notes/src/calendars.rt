// What `rr-calendars` notes: which of its words is wrong, and what to do about an answer.
ghost use Rattle.std.specs.Prelude.{◌≡◌, option_map, string_bytes, IfOk};
ghost use Rattle.rr_notes.specs.Advice.{note_on_calendar_refusal, note_on_utc};
ghost use Rattle.rr_notes.specs.Visible.{IsVisibleNote};

use crate::visible::{shown, visible};
use rr_text::offset_of;
use std::alloc::{AllocError, Global};

const NO_EVENTS: &str =
    "the file is no whole calendar: 'rr' reads one event alone, and here a Graph event between [ and ] is a list";

const MORE_PAGES: &str =
    "the file is one page of a list: join it with those that '@odata.nextLink' leads to";

// Whether a word is an option with a word of its own behind it.
fn takes_word(option: &str) -> bool {
    matches!(option, "--offset" | "--zones" | "--show")
}

// Whether a text is an offset from UTC, as +01:00.
fn is_offset(text: &str) -> bool {
    match text.split_once(':') {
        None => false,
        Some((signed_hours, minutes)) => {
            offset_of(signed_hours.as_bytes(), minutes.as_bytes()).is_some()
        }
    }
}

// What is wrong with the word behind an option.
fn note_on_value(alloc: Global, option: &str, word: &str) -> Result<Option<String>, AllocError> {
    if option == "--show" && word.is_empty() {
        return Ok(Some(format!(in alloc; "--show wants a UID")?));
    }
    if option == "--zones" && word.is_empty() {
        return Ok(Some(format!(in alloc; "--zones wants a file")?));
    }
    if option == "--offset" && !is_offset(word) {
        let word = shown(alloc, word)?;
        return Ok(Some(format!(in alloc; "'{word}' is no offset from UTC, as +01:00")?));
    }
    Ok(None)
}

// Whether a text is the language of a calendar file.
fn is_language(text: &str) -> bool {
    matches!(text, "ics" | "graph" | "vcal")
}

// The name of a file in its word, behind its language and its own offset; none if these are wrong.
fn file_name(word: &str) -> Option<&str> {
    let Some((head, rest)) = word.split_once(':') else {
        return Some(word);
    };
    match head.split_once('@') {
        None if is_language(head) => Some(rest),
        Some((language, hours)) if is_language(language) => {
            let (minutes, name) = rest.split_once(':')?;
            offset_of(hours.as_bytes(), minutes.as_bytes())?;
            Some(name)
        }
        _ => Some(word),
    }
}

// What is wrong with the word of a file.
fn note_on_name(alloc: Global, word: &str) -> Result<Option<String>, AllocError> {
    match file_name(word) {
        None => {
            let word = shown(alloc, word)?;
            Ok(Some(format!(in alloc;
                "'{word}' has no offset from UTC behind its language, as graph@+01:00:NAME"
            )?))
        }
        Some("") => Ok(Some(format!(in alloc; "the name of a file is empty")?)),
        Some(_) => Ok(None),
    }
}

// What is wrong with a word that is an option or a file.
fn note_on_option(alloc: Global, word: &str) -> Result<Option<String>, AllocError> {
    if !word.starts_with("--") {
        return note_on_name(alloc, word);
    }
    match word {
        "--differences" => Ok(None),
        "--titles" => Ok(None),
        "--json" => Ok(None),
        "--html" => Ok(None),
        "--strict" => Ok(None),
        "--by-uid" => Ok(None),
        "--offset" => Ok(None),
        "--zones" => Ok(None),
        "--show" => Ok(None),
        "--help" => Ok(Some(format!(in alloc; "--help stands alone")?)),
        "--version" => Ok(Some(format!(in alloc; "--version stands alone")?)),
        _ => {
            let word = shown(alloc, word)?;
            Ok(Some(format!(in alloc;
                "{word} is no option: these are --differences, --titles, --json, --html, --strict, --by-uid, --offset, --zones, --show and --help"
            )?))
        }
    }
}

// What is wrong with the first word that is wrong by itself, or with an option at the end.
fn note_on_first(alloc: Global, words: &[&str]) -> Result<Option<String>, AllocError> {
    let mut option = "";
    for word in words {
        let word: &str = word;
        let is_value = takes_word(option);
        let note = if is_value {
            note_on_value(alloc, option, word)?
        } else {
            note_on_option(alloc, word)?
        };
        if note.is_some() {
            return Ok(note);
        }
        option = if is_value { "" } else { word };
    }
    if takes_word(option) {
        return Ok(Some(format!(in alloc; "{option} wants a word behind it")?));
    }
    Ok(None)
}

// The files among the words.
fn files_of<'a>(alloc: Global, words: &[&'a str]) -> Result<Vec<&'a str>, AllocError> {
    let mut files = Vec::new(alloc);
    let mut option = "";
    for word in words {
        let word: &'a str = word;
        let is_value = takes_word(option);
        if !is_value && !word.starts_with("--") {
            files.push(word)?;
        }
        option = if is_value { "" } else { word };
    }
    Ok(files)
}

// Whether the word of a file names standard input.
fn is_input(word: &str) -> bool {
    file_name(word) == Some("-")
}

// Whether the file of further zones is standard input.
fn are_zones_input(words: &[&str]) -> bool {
    let mut option = "";
    for word in words {
        let word: &str = word;
        if option == "--zones" && word == "-" {
            return true;
        }
        option = if takes_word(option) { "" } else { word };
    }
    false
}

// Whether an option is among the words, and not a word behind another one.
fn has_option(words: &[&str], wanted: &str) -> bool {
    let mut option = "";
    for word in words {
        let word: &str = word;
        let is_value = takes_word(option);
        if !is_value && word == wanted {
            return true;
        }
        option = if is_value { "" } else { word };
    }
    false
}

// What is wrong with options each of which is right by itself.
fn text_on_options(words: &[&str]) -> &'static str {
    let is_json = has_option(words, "--json");
    let is_html = has_option(words, "--html");
    if is_json && is_html {
        "--json and --html are two forms of one report: give one of them"
    } else if (is_json || is_html) && has_option(words, "--show") {
        "--show stands beside neither --json nor --html, which tell all events"
    } else {
        "an option stands twice"
    }
}

// What is wrong with words that ask nothing.
fn text_on_words(alloc: Global, words: &[&str]) -> Result<String, AllocError> {
    if let Some(text) = note_on_first(alloc, words)? {
        return Ok(text);
    }
    let files = files_of(alloc, words)?;
    match files.as_slice() {
        [old, new] => {
            let is_old = is_input(old);
            let is_new = is_input(new);
            if (is_old && is_new) || (are_zones_input(words) && (is_old || is_new)) {
                format!(in alloc; "standard input can be read once: one file alone may be -")
            } else {
                let text = text_on_options(words);
                format!(in alloc; "{text}")
            }
        }
        files => {
            let count = files.len();
            format!(in alloc; "two files are wanted, OLD and NEW, not {count}")
        }
    }
}

/// What is wrong with words of `rr-calendars` that ask nothing, and what is wanted.
pub fn note_on_calendar_words(alloc: Global, words: &[&str]) -> Result<String, AllocError>
    ensures { IsVisibleNote result }
{
    let text = text_on_words(alloc, words)?;
    visible(alloc, text.as_bytes())
}

/// What to do about the refusal of a file that an answer begins with; `None` of an answer that begins with no refusal
/// of which more is to be said. The first 64 bytes of the answer are enough.
pub fn note_on_calendar_refusal(answer: &[u8]) -> Option<&'static str>
    ensures { option_map (λ text. text.now) result ≡ note_on_calendar_refusal answer.now }
{
    if answer == b"refused A NoEvents\n".as_slice()
        || answer == b"refused B NoEvents\n".as_slice()
    {
        Some(NO_EVENTS)
    } else if answer == b"refused A MorePages\n".as_slice()
        || answer == b"refused B MorePages\n".as_slice()
    {
        Some(MORE_PAGES)
    } else {
        None
    }
}

/// How many events were not compared for want of an offset, if any.
pub fn note_on_utc(alloc: Global, count: usize) -> Result<Option<String>, AllocError>
    ensures { IfOk result (λ note. option_map string_bytes note ≡ note_on_utc count) }
{
    if count == 0 {
        return Ok(None);
    }
    if count == 1 {
        return Ok(Some(format!(in alloc;
            "1 event states UTC beside local time that no zone of its file turns: give --offset"
        )?));
    }
    Ok(Some(format!(in alloc;
        "{count} events state UTC beside local time that no zone of their file turns: give --offset"
    )?))
}
