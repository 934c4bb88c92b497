// The parameters of a line (RFC 5545, section 3.2).
ghost use Rattle.std.specs.Prelude.{◌≡◌, ◌<◌, ◌+◌, ◌==◌, ◌&&◌, drop, length, not, Some, option_map};
ghost use Rattle.rr_model.specs.Text.Rules.{split_once};
ghost use Rattle.rr_model.specs.Text.UsedLines.{is_quoted_after};
ghost use Rattle.rr_events.specs.Parameters.{IsFirstPiece, parameter_of, parameters_of, value_named, without_first_quote, without_last_quote, without_quotes};

use rr_ical::{after_colon, is_same_name, name_and_rest};
use rr_text::split_once;

// What stands between the name of a line and the colon of its value.
fn parameters_of(text: &[u8]) -> &[u8]
    ensures { result.now ≡ parameters_of text.now }
{
    let (_, rest) = name_and_rest(text);
    match after_colon(rest) {
        None => rest,
        Some(after) => &rest[..rest.len() - after.len() - 1],
    }
}

// Whether a place after a byte lies between two quotes.
fn is_quoted_after(is_quoted: bool, byte: u8, rest: &[u8]) -> bool
    ensures { result ≡ is_quoted_after is_quoted byte rest.now }
{
    if byte == b'"' {
        !is_quoted && rest.contains(&b'"')
    } else {
        is_quoted
    }
}

// Whether a byte ends a parameter: a semicolon that is not between two quotes.
fn ends_piece(is_quoted: bool, byte: u8) -> bool
    ensures { result ≡ (byte == 59) && not is_quoted }
{
    byte == b';' && !is_quoted
}

// What stands behind the byte at an index.
fn behind(text: &[u8], index: usize) -> &[u8]
    requires { index < length text.now }
    ensures { result.now ≡ drop (index + 1) text.now }
{
    &text[index + 1..]
}

// The first of several parameters, and what follows the semicolon behind it.
#[derive(Clone, Copy)]
struct ParameterPiece<'a> {
    text: &'a [u8],
    rest: Option<&'a [u8]>,
}

// The first of the parameters.
fn first_piece(text: &[u8]) -> ParameterPiece
    ensures { IsFirstPiece text.now result }
{
    let mut is_quoted = false;
    for i in 0..text.len() {
        let rest = behind(text, i);
        if ends_piece(is_quoted, text[i]) {
            return ParameterPiece {
                text: &text[..i],
                rest: Some(rest),
            };
        }
        is_quoted = is_quoted_after(is_quoted, text[i], rest);
    }
    ParameterPiece { text, rest: None }
}

fn without_first_quote(text: &[u8]) -> &[u8]
    ensures { result.now ≡ without_first_quote text.now }
{
    match text.strip_prefix(b"\"") {
        Some(rest) => rest,
        None => text,
    }
}

fn without_last_quote(text: &[u8]) -> &[u8]
    ensures { result.now ≡ without_last_quote text.now }
{
    match text.strip_suffix(b"\"") {
        Some(front) => front,
        None => text,
    }
}

fn without_quotes(text: &[u8]) -> &[u8]
    ensures { result.now ≡ without_quotes text.now }
{
    without_last_quote(without_first_quote(text))
}

// The value of one parameter, if it has this name.
fn value_named<'a>(word: &[u8], text: &'a [u8]) -> Option<&'a [u8]>
    ensures { option_map (λ value. value.now) result
        ≡ value_named word.now (split_once 61 text.now) }
{
    let (name, value) = split_once(text, b'=')?;
    if is_same_name(name, word) {
        Some(without_quotes(value))
    } else {
        None
    }
}

/// The value of the first parameter of this name of an unfolded line, without the quotes around it. Parameters stand between
/// semicolons; a semicolon between two quotes is part of a value.
#[tactic(auto, unfolding(crate::specs::Parameters::parameter_of))]
pub fn parameter_of<'a>(word: &[u8], text: &'a [u8]) -> Option<&'a [u8]>
    ensures { option_map (λ value. value.now) result ≡ parameter_of word.now text.now }
{
    let mut rest = Some(parameters_of(text));
    while let Some(pieces) = rest {
        let piece = first_piece(pieces);
        if let Some(value) = value_named(word, piece.text) {
            return Some(value);
        }
        rest = piece.rest;
    }
    None
}
