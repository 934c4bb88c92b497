// The lines of an event but for the empty ones.
ghost use Rattle.std.specs.Prelude.{◌≡◌, ◌<◌, ◌+◌, ◌^◌, [], ◌∷◌, ◌++◌, length, IfOk, OnOk};
ghost use Rattle.std.specs.List.{filter};
ghost use Rattle.rr_events.specs.Cutting.{full_lines, has_text, lines_at};
ghost use Rattle.rr_events.specs.Finding.{lines_in};

use crate::cut::{after_empty_lines, cut_line};
use crate::find::Piece;
use rr_model::{Line, LineList, NoMemory};
use std::alloc::Global;

// Whether a line has a byte.
fn has_text(line: &Line) -> bool
    ensures { result ≡ has_text line.now }
{
    !line.text.as_slice().is_empty()
}

// Puts a line, if it has a byte.
fn put_line(lines: &mut LineList, line: Line) -> Result<(), NoMemory>
    ensures { OnOk result (lines.new ≡ lines.old ++ filter has_text (line ∷ [])) }
{
    if has_text(&line) {
        lines.put(line)?;
    }
    Ok(())
}

// Puts the lines of a text, whose first physical line has this number, but for the empty ones.
fn put_lines(alloc: Global, lines: &mut LineList, text: &[u8], number: u64) -> Result<(), NoMemory>
    requires { number + length text.now < 2 ^ 64 }
    ensures { OnOk result (lines.new ≡ lines.old ++ filter has_text (lines_at number text.now)) }
{
    let mut rest = after_empty_lines(text, number);
    while let Some(cut) = cut_line(alloc, rest.text, rest.number)? {
        put_line(lines, cut.line)?;
        rest = after_empty_lines(cut.after, cut.next);
    }
    Ok(())
}

/// The unfolded lines of a piece with the numbers of the whole text, but for the empty ones behind its first line. These take no
/// memory.
pub fn full_lines(alloc: Global, piece: Piece) -> Result<LineList, NoMemory>
    requires { piece.first + length piece.text.now < 2 ^ 64 }
    ensures { IfOk result (λ lines. lines ≡ full_lines (lines_in piece.entry)) }
{
    let mut lines = LineList::new(alloc);
    let Some(cut) = cut_line(alloc, piece.text, piece.first)? else {
        return Ok(lines);
    };
    lines.put(cut.line)?;
    put_lines(alloc, &mut lines, cut.after, cut.next)?;
    Ok(lines)
}
