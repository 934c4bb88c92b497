// Unfolded lines (RFC 5545, section 3.1; vCalendar 1.0, section 2.1.3).
ghost use Rattle.std.specs.Prelude.{◌≡◌, ◌<◌, ◌+◌, ◌^◌, ◌++◌, ◌∷◌, [], length, true, IfOk, OnOk};
ghost use Rattle.rr_model.specs.Text.Lines.{begins_blank, continuation, physical_lines, with_physical_line, with_physical_lines, unfolded_lines};
ghost use Rattle.rr_model.specs.declared.line.Line.{Line};

use crate::physical::take_line;
use rr_model::{Bytes, Line, LineList, NoMemory};
use std::alloc::Global;

/// Whether a physical line continues the one before it (RFC 5545, section 3.1).
pub fn begins_blank(text: &[u8]) -> bool
    ensures { result ≡ begins_blank text.now }
{
    match text {
        [b' ' | b'\t', ..] => true,
        _ => false,
    }
}

// What it adds to the line before it.
fn continuation(keep_blank: bool, text: &[u8]) -> &[u8]
    requires { begins_blank text.now ≡ true }
    ensures { result.now ≡ continuation keep_blank text.now }
{
    if keep_blank { text } else { &text[1..] }
}

fn line_of(alloc: Global, number: u64, text: &[u8]) -> Result<Line, NoMemory>
    ensures { IfOk result (λ line. line ≡ record { number = number; text = text.now }) }
{
    Ok(Line {
        number,
        text: Bytes::of(alloc, text)?,
    })
}

// The lines that are done, and the one that may still be continued, with one more physical line.
fn take_in(
    alloc: Global,
    keep_blank: bool,
    number: u64,
    done: &mut LineList,
    last: &mut Line,
    text: &[u8],
) -> Result<(), NoMemory>
    ensures { OnOk result
        (done.new ++ last.new ∷ []
        ≡ with_physical_line keep_blank number (done.old ++ last.old ∷ []) text.now) }
{
    if begins_blank(text) {
        last.text.append(continuation(keep_blank, text))
    } else {
        let next = line_of(alloc, number, text)?;
        done.put(std::mem::replace(last, next))
    }
}

/// The unfolded lines of a part of a text, whose first physical line has the number `first`.
///
/// A part that begins with an unfolded line of the whole text has the lines that the whole text has there, with their
/// numbers. See `lines`.
#[tactic(auto)]
pub fn lines_from(
    alloc: Global,
    bytes: &[u8],
    keep_blank: bool,
    first: u64,
) -> Result<LineList, NoMemory>
    requires { first + length bytes.now < 2 ^ 64 }
    ensures { IfOk result
        (λ lines. lines ≡ with_physical_lines keep_blank first [] (physical_lines bytes.now)) }
{
    let mut done = LineList::new(alloc);
    let Some((text, after)) = take_line(bytes) else {
        return Ok(done);
    };
    let mut last = line_of(alloc, first, text)?;
    let mut rest = after;
    let mut number = first;
    while let Some((text, after)) = take_line(rest) {
        number += 1;
        take_in(alloc, keep_blank, number, &mut done, &mut last, text)?;
        rest = after;
    }
    done.put(last)?;
    Ok(done)
}

/// The unfolded lines of the bytes, each with the number of its first physical line, from 1.
///
/// A physical line ends with CR LF or LF, or with the end of the text. One that begins with a blank or a tab
/// continues the line before it, if there is one. That byte is removed (RFC 5545, section 3.1), or kept if
/// `keep_blank` says so (vCalendar 1.0, section 2.1.3). No byte is copied more than twice.
#[tactic(auto, unfolding(rr_model::specs::Text::Lines::unfolded_lines))]
pub fn lines(alloc: Global, bytes: &[u8], keep_blank: bool) -> Result<LineList, NoMemory>
    ensures { IfOk result (λ lines. lines ≡ unfolded_lines keep_blank bytes.now) }
{
    lines_from(alloc, bytes, keep_blank, 1)
}
