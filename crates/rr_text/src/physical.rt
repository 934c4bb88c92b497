// Physical lines (RFC 5545, section 3.1).
ghost use Rattle.std.specs.Prelude.{◌≡◌, ◌==◌, ◌<◌, length, position, MatchOption, ◌∷◌, []};
ghost use Rattle.rr_model.specs.Text.Lines.{physical_lines};
ghost use Rattle.rr_text.specs.Physical.{without_return, IsCutAt};

use memchr::memchr;

// The index of the first line feed.
fn feed_index(text: &[u8]) -> Option<usize>
    ensures { result ≡ position (λ b. b == 10) text.now }
{
    memchr(b'\n', text)
}

// One carriage return at the end is dropped.
fn without_return(text: &[u8]) -> &[u8]
    ensures { result.now ≡ without_return text.now }
{
    match text.strip_suffix(b"\r") {
        Some(front) => front,
        None => text,
    }
}

/// The first physical line, without its line break, and what follows the break; the empty text has no line.
///
/// A line ends with CR LF or LF, or with the end of the text (RFC 5545, section 3.1). A carriage return that no
/// line feed follows belongs to the line.
pub fn take_line(text: &[u8]) -> Option<(&[u8], &[u8])>
    ensures { MatchOption result (text.now ≡ [])
        (λ sides. IsCutAt text.now sides.0.now sides.1.now) }
{
    match feed_index(text) {
        Some(end) => Some((without_return(&text[..end]), &text[end + 1..])),
        None if text.is_empty() => None,
        None => Some((text, &text[text.len()..])),
    }
}
