// In which language a calendar file is, as its content tells it.
ghost use Rattle.std.specs.Prelude.{◌≡◌, position};
ghost use Rattle.rr_compare.specs.Languages.{head_says, is_begin, is_json, is_json_blank, is_json_part, is_open, is_version_one, language_by, language_in, says_version_one};

use crate::operand::Language;
use rr_events::after_empty_lines;
use rr_ical::{is_named, line_kind, value_of_line};
use rr_model::LineKind;
use rr_text::{take_line, trim, without_mark};

// Whether JSON lets a byte stand between its parts (RFC 8259, section 2).
fn is_json_blank(byte: u8) -> bool
    ensures { result ≡ is_json_blank byte }
{
    matches!(byte, b' ' | b'\t' | b'\n' | b'\r')
}

// Whether a byte begins an object or an array of JSON.
fn is_open(byte: u8) -> bool
    ensures { result ≡ is_open byte }
{
    matches!(byte, b'{' | b'[')
}

// The index of the first byte that is no blank.
fn part_index(text: &[u8]) -> Option<usize>
    ensures { result ≡ position is_json_part text.now }
{
    text.iter().position(|b| !is_json_blank(*b))
}

// Whether a text is JSON by its first byte that is no blank.
fn is_json(text: &[u8]) -> bool
    ensures { result ≡ is_json text.now }
{
    match part_index(text) {
        None => false,
        Some(index) => is_open(text[index]),
    }
}

fn is_begin(line: &[u8]) -> bool
    ensures { result ≡ is_begin line.now }
{
    matches!(line_kind(line), LineKind::Begin)
}

// Whether the value of a line is that of the first version.
fn says_version_one(line: &[u8]) -> bool
    ensures { result ≡ says_version_one line.now }
{
    trim(value_of_line(line).unwrap_or(b"")) == b"1.0".as_slice()
}

// What a line says of the version: nothing before the first component, no within a further one.
fn head_says(is_begun: bool, line: &[u8]) -> Option<bool>
    ensures { result ≡ head_says is_begun line.now }
{
    if !is_begun {
        return None;
    }
    if matches!(line_kind(line), LineKind::Begin | LineKind::End) {
        return Some(false);
    }
    if is_named(line, b"VERSION") {
        Some(says_version_one(line))
    } else {
        None
    }
}

// Whether the first component of a text says, before it has components of its own, that it is vCalendar 1.0.
fn is_version_one(text: &[u8]) -> bool
    ensures { result ≡ is_version_one text.now }
{
    let mut rest = after_empty_lines(text, 0).text;
    let mut is_begun = false;
    while let Some((line, after)) = take_line(rest) {
        if let Some(answer) = head_says(is_begun, line) {
            return answer;
        }
        is_begun = is_begun || is_begin(line);
        rest = after_empty_lines(after, 0).text;
    }
    false
}

// The language of a file by its content.
fn language_in(bytes: &[u8]) -> Language
    ensures { result ≡ language_in bytes.now }
{
    let text = without_mark(bytes);
    if is_json(text) {
        Language::Graph
    } else if is_version_one(text) {
        Language::Vcal
    } else {
        Language::Ics
    }
}

/// The language of a file: the stated one, otherwise that which its content tells. JSON is Graph, a text whose first component has the
/// line `VERSION:1.0` is vCalendar 1.0, and any other is iCalendar.
pub fn language_by(stated: Option<Language>, bytes: &[u8]) -> Language
    ensures { result ≡ language_by stated bytes.now }
{
    match stated {
        Some(language) => language,
        None => language_in(bytes),
    }
}
