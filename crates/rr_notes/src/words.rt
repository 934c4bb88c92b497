// Which word of a command line is wrong, and what is wanted there, by the table of commands.
ghost use Rattle.rr_notes.specs.Visible.{IsVisibleNote};

use crate::forms::{FORMS, LANGUAGES, SERIES, TARGETS};
use crate::visible::{shown, visible};
use rr_text::{offset_of, plain_extended};
use std::alloc::{AllocError, Global};

// The words of a command line: the name of a command, what is wanted after it by the table, and what stands there.
#[derive(Clone, Copy)]
struct Given<'a> {
    name: &'a str,
    form: &'a str,
    rest: &'a [&'a str],
}

// Whether a word of the table stands for itself, as the language of a plan.
fn is_itself(wanted: &str) -> bool {
    !wanted.is_empty() && wanted.bytes().all(|byte| byte.is_ascii_lowercase())
}

// Whether each word of the table that stands for itself stands in its place, as far as there are words.
fn fits(form: &str, rest: &[&str]) -> bool {
    for (wanted, word) in form.split(' ').zip(rest) {
        if is_itself(wanted) && wanted != *word {
            return false;
        }
    }
    true
}

// What is wanted after the name of a command, if the table has it: of several lines that of the first which the words fit, or the first.
fn form_of<'a>(forms: &'a str, name: &str, rest: &[&str]) -> Option<&'a str> {
    let mut first = None;
    for line in forms.lines() {
        let (command, words) = match line.split_once(' ') {
            None => (line, ""),
            Some(parts) => parts,
        };
        if command == name && fits(words, rest) {
            return Some(words);
        }
        if command == name && first.is_none() {
            first = Some(words);
        }
    }
    first
}

// Whether a word is one of these, which stand with blanks between them.
fn is_among(words: &str, word: &str) -> bool {
    for one in words.split(' ') {
        if one == word {
            return true;
        }
    }
    false
}

// The word of the usage line in a word of the table.
fn label_of(wanted: &str) -> &str {
    let label = match wanted.split_once('=') {
        None => wanted,
        Some((label, _)) => label,
    };
    match label.split_once(':') {
        None => label,
        Some((label, _)) => label,
    }
}

// The least and the most of a number, if a word of the table wants one.
fn range_of(wanted: &str) -> Option<(u64, u64)> {
    let (_, range) = wanted.split_once('=')?;
    let (least, most) = range.split_once('-')?;
    Some((least.parse::<u64>().ok()?, most.parse::<u64>().ok()?))
}

// Whether a text is a number from the least to the most, without a sign and without a zero before it.
fn is_number(least: u64, most: u64, word: &str) -> bool {
    let is_plain = word == "0" || !(word.starts_with('0') || word.starts_with('+'));
    match word.parse::<u64>() {
        Ok(value) => is_plain && least <= value && value <= most,
        Err(_) => false,
    }
}

// Whether the command takes a language in the place of this word of the table.
fn takes(given: Given, wanted: &str, language: &str) -> bool {
    if !wanted.ends_with(":series") || is_among(SERIES, language) {
        return true;
    }
    match given.rest {
        [target, ..] => given.name == "translate" && *target == "graph" && language == "rscale",
        [] => false,
    }
}

// The language and the name of an operand whose head and rest stand around its first colon. None if what follows an @ is neither an
// offset nor, after a language of RFC 5545, the word zone.
fn parts_of<'a>(head: &'a str, rest: &'a str) -> Option<(&'a str, &'a str)> {
    let Some((language, sign_and_hours)) = head.split_once('@') else {
        return Some((head, rest));
    };
    if sign_and_hours == "zone" && (language == "rrule" || language == "rscale") {
        return Some((language, rest));
    }
    let (minutes, name) = rest.split_once(':')?;
    offset_of(sign_and_hours.as_bytes(), minutes.as_bytes())?;
    Some((language, name))
}

// What is wrong with the language or the name of an operand.
fn note_on_parts(
    alloc: Global,
    given: Given,
    wanted: &str,
    language: &str,
    name: &str,
) -> Result<Option<String>, AllocError> {
    let shown_language = shown(alloc, language)?;
    if !is_among(LANGUAGES, language) {
        let text = format!(in alloc;
            "{shown_language} is no language: the languages are {LANGUAGES}"
        )?;
        return Ok(Some(text));
    }
    if name.is_empty() {
        let text = format!(in alloc; "behind {shown_language} stands no name of a file")?;
        return Ok(Some(text));
    }
    if !takes(given, wanted, language) && given.name == "list" {
        let text = format!(in alloc;
            "list takes no {shown_language}: 'rr from 0001-01-01 N A' lists what has no rule of RFC 5545"
        )?;
        return Ok(Some(text));
    }
    if !takes(given, wanted, language) {
        let command = given.name;
        let text = format!(in alloc;
            "{command} takes no {shown_language}: it asks for one of {SERIES}"
        )?;
        return Ok(Some(text));
    }
    Ok(None)
}

// What is wrong with an operand.
fn note_on_operand(
    alloc: Global,
    given: Given,
    wanted: &str,
    word: &str,
) -> Result<Option<String>, AllocError> {
    let Some((head, rest)) = word.split_once(':') else {
        let word = shown(alloc, word)?;
        let text = format!(in alloc; "{word} has no language before it, as in rrule:{word}")?;
        return Ok(Some(text));
    };
    match parts_of(head, rest) {
        Some((language, name)) => note_on_parts(alloc, given, wanted, language, name),
        None => {
            let word = shown(alloc, word)?;
            let text = format!(in alloc;
                "{word} has no offset behind the @, as in rrule@+01:00:FILE or rrule@zone:FILE"
            )?;
            Ok(Some(text))
        }
    }
}

// What is wrong with a word in the place of a number.
fn note_on_number(
    alloc: Global,
    least: u64,
    most: u64,
    word: &str,
) -> Result<Option<String>, AllocError> {
    if is_number(least, most, word) {
        return Ok(None);
    }
    let word = shown(alloc, word)?;
    Ok(Some(format!(in alloc; "'{word}' is no number from {least} to {most}")?))
}

// What is wrong with a word in the place of a language to translate to.
fn note_on_target(alloc: Global, word: &str) -> Result<Option<String>, AllocError> {
    if is_among(TARGETS, word) {
        return Ok(None);
    }
    let word = shown(alloc, word)?;
    Ok(Some(format!(in alloc; "'{word}' is no language to translate to: these are {TARGETS}")?))
}

// What is wrong with a word in the place of a date or a moment.
fn note_on_moment(alloc: Global, word: &str) -> Result<Option<String>, AllocError> {
    if plain_extended(word.as_bytes()).is_some() {
        return Ok(None);
    }
    let word = shown(alloc, word)?;
    Ok(Some(format!(in alloc;
        "'{word}' is no date or moment, as 2024-02-29 or 2024-02-29T09:30:00"
    )?))
}

// What is wrong with a word in the place of a command's name.
fn note_on_name(alloc: Global, word: &str) -> Result<Option<String>, AllocError> {
    if form_of(FORMS, word, &[]).is_some() {
        return Ok(None);
    }
    let word = shown(alloc, word)?;
    Ok(Some(format!(in alloc; "'{word}' is no command: 'rr help' lists them")?))
}

// What is wrong with the only word in the place of a refusal's name: it is none, since the words would be a command otherwise.
fn note_on_refusal_name(
    alloc: Global,
    given: Given,
    word: &str,
) -> Result<Option<String>, AllocError> {
    if given.rest.len() != 1 {
        return Ok(None);
    }
    let word = shown(alloc, word)?;
    Ok(Some(format!(in alloc;
        "'{word}' is no refusal, as UtcMoment is: docs/REFUSALS.md lists them, and docs/CALENDARS.md those of whole calendars"
    )?))
}

// What is wrong with a word in the place of one that stands for itself. In the place of no word it is one too many, which is not said here.
fn note_on_itself(alloc: Global, wanted: &str, word: &str) -> Result<Option<String>, AllocError> {
    if wanted.is_empty() || word == wanted {
        return Ok(None);
    }
    let word = shown(alloc, word)?;
    Ok(Some(format!(in alloc; "'{word}' stands in the place of the word {wanted}")?))
}

// What is wrong with a word in the place of a word of the table.
fn note_on_word(
    alloc: Global,
    given: Given,
    wanted: &str,
    word: &str,
) -> Result<Option<String>, AllocError> {
    if let Some((least, most)) = range_of(wanted) {
        return note_on_number(alloc, least, most, word);
    }
    match label_of(wanted) {
        "A" => note_on_operand(alloc, given, wanted, word),
        "B" => note_on_operand(alloc, given, wanted, word),
        "LANG" => note_on_target(alloc, word),
        "MOMENT" => note_on_moment(alloc, word),
        "FROM" => note_on_moment(alloc, word),
        "TO" => note_on_moment(alloc, word),
        "[COMMAND]" => note_on_name(alloc, word),
        "REFUSAL" => note_on_refusal_name(alloc, given, word),
        _ => note_on_itself(alloc, wanted, word),
    }
}

// What is wrong with the first word that is wrong.
fn note_on_first(alloc: Global, given: Given) -> Result<Option<String>, AllocError> {
    for (wanted, word) in given.form.split(' ').zip(given.rest) {
        let note = note_on_word(alloc, given, wanted, word)?;
        if note.is_some() {
            return Ok(note);
        }
    }
    Ok(None)
}

// Whether two words name standard input.
fn are_input(words: &[&str]) -> bool {
    let mut is_named = false;
    for word in words {
        if word.ends_with(":-") {
            if is_named {
                return true;
            }
            is_named = true;
        }
    }
    false
}

// A command with its words, as the usage line has them.
fn form_text(alloc: Global, given: Given) -> Result<String, AllocError> {
    let mut text = String::from_str(alloc, given.name)?;
    for wanted in given.form.split(' ') {
        if !wanted.is_empty() {
            text.push_str(" ")?;
            text.push_str(label_of(wanted))?;
        }
    }
    Ok(text)
}

// What is wrong with the words of a command that the table has.
fn text_on_given(alloc: Global, given: Given) -> Result<String, AllocError> {
    if let Some(text) = note_on_first(alloc, given)? {
        return Ok(text);
    }
    let form = form_text(alloc, given)?;
    if are_input(given.rest) {
        return format!(in alloc;
            "standard input can be read once: one operand alone may be -, in 'rr {form}'"
        );
    }
    format!(in alloc; "the words wanted are 'rr {form}'")
}

// The name of a command in its first spelling.
fn first_spelling(name: &str) -> &str {
    match name {
        "--help" => "help",
        "--version" => "version",
        _ => name,
    }
}

// What is wrong with words that are no command.
fn text_on_words(alloc: Global, words: &[&str]) -> Result<String, AllocError> {
    let [name, rest @ ..] = words else {
        return format!(in alloc; "a command is wanted: 'rr help' lists them");
    };
    let name = first_spelling(name);
    match form_of(FORMS, name, rest) {
        Some(form) => text_on_given(alloc, Given { name, form, rest }),
        None => {
            let name = shown(alloc, name)?;
            format!(in alloc; "'{name}' is no command: 'rr help' lists them")
        }
    }
}

/// What is wrong with words of `rr` that are no command, and what is wanted.
pub fn note_on_words(alloc: Global, words: &[&str]) -> Result<String, AllocError>
    ensures { IsVisibleNote result }
{
    let text = text_on_words(alloc, words)?;
    visible(alloc, text.as_bytes())
}
