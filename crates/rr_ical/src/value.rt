// The name and the value of a line (RFC 5545, section 3.1).
ghost use Rattle.std.specs.Prelude.{◌≡◌, ◌==◌, ◌&&◌, ◌+◌, ◌≤◌, IfSome, not, drop, length, take, take_while, false, option_map};
ghost use Rattle.rr_model.specs.Text.UsedLines.{is_name_byte, name_of_line, after_name, has_quote, after_colon, is_quoted_after, begins_value, value_of_line};

use memchr::memchr2;
use rr_text::{TextPart, trimmed_part};

fn is_name_byte(byte: u8) -> bool
    ensures { result ≡ is_name_byte byte }
{
    byte.is_ascii_alphanumeric() || byte == b'-'
}

fn count_name_bytes(text: &[u8]) -> usize
    ensures { result ≡ length (take_while is_name_byte text.now) }
{
    text.iter().take_while(|b| is_name_byte(**b)).count()
}

/// The name of an unfolded line, and what stands after it (RFC 5545, section 3.1).
pub fn name_and_rest(text: &[u8]) -> (&[u8], &[u8])
    ensures name { result.0.now ≡ name_of_line text.now }
    ensures rest { result.1.now ≡ after_name text.now }
{
    text.split_at(count_name_bytes(text))
}

fn has_quote(text: &[u8]) -> bool
    ensures { result ≡ has_quote text.now }
{
    text.iter().any(|b| *b == b'"')
}

// Whether an index after a byte lies between two quotes.
fn is_quoted_after(is_quoted: bool, byte: u8, rest: &[u8]) -> bool
    ensures { result ≡ is_quoted_after is_quoted byte rest.now }
{
    if byte == b'"' {
        !is_quoted && has_quote(rest)
    } else {
        is_quoted
    }
}

// Whether a byte ends a line's name and parameters: a colon that is not between two quotes.
fn ends_parameters(is_quoted: bool, byte: u8) -> bool
    ensures { result ≡ (byte == 58) && not is_quoted }
{
    byte == b':' && !is_quoted
}

// What stands behind the first `count` bytes.
fn rest_from(text: &[u8], count: usize) -> &[u8]
    requires { count ≤ length text.now }
    ensures { result.now ≡ drop count text.now }
{
    &text[count..]
}

// How many bytes stand up to the first colon that is not between two quotes, and with it.
fn count_to_colon(text: &[u8]) -> Option<usize>
    ensures within { IfSome result (λ count. count ≤ length text.now) }
    ensures value { option_map (λ count. drop count text.now) result ≡ after_colon false text.now }
{
    let mut is_quoted = false;
    let mut count = 0;
    while let Some(index) = memchr2(b':', b'"', rest_from(text, count)) {
        let byte = text[count + index];
        count += index + 1;
        if ends_parameters(is_quoted, byte) {
            return Some(count);
        }
        is_quoted = is_quoted_after(is_quoted, byte, rest_from(text, count));
    }
    None
}

/// What stands after the first colon that is not between two quotes (RFC 5545, section 3.1).
pub fn after_colon(text: &[u8]) -> Option<&[u8]>
    ensures { option_map (λ rest. rest.now) result ≡ after_colon false text.now }
{
    let count = count_to_colon(text)?;
    Some(rest_from(text, count))
}

fn begins_value(text: &[u8]) -> bool
    ensures { result ≡ begins_value text.now }
{
    match text {
        [b';' | b':', ..] => true,
        _ => false,
    }
}

/// Where the value of an unfolded line stands, if it has one: after its name, its parameters and the colon, without the blanks
/// and tabs around it (RFC 5545, section 3.1).
#[tactic(auto, unfolding(rr_model::specs::Text::UsedLines::value_of_line))]
pub(crate) fn value_part(text: &[u8]) -> Option<TextPart>
    ensures within { IfSome result (λ part. part.from + part.count ≤ length text.now) }
    ensures value { option_map (λ part. take part.count (drop part.from text.now)) result
        ≡ value_of_line text.now }
{
    let (name, rest) = name_and_rest(text);
    if !begins_value(rest) {
        return None;
    }
    let count = count_to_colon(rest)?;
    let part = trimmed_part(rest_from(rest, count));
    Some(TextPart {
        from: name.len() + count + part.from,
        count: part.count,
    })
}

/// The value of an unfolded line, if it has one (RFC 5545, section 3.1).
pub fn value_of_line(text: &[u8]) -> Option<&[u8]>
    ensures { option_map (λ value. value.now) result ≡ value_of_line text.now }
{
    let part = value_part(text)?;
    Some(&text[part.from..part.from + part.count])
}
