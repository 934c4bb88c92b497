// The title of an event (RFC 5545, sections 3.3.11 and 3.8.1.12).
ghost use Rattle.std.specs.Prelude.{◌≡◌, ◌<◌, ◌+◌, ◌++◌, ◌^◌, false, length, IfOk, OnOk};
ghost use Rattle.rr_events.specs.Finding.{lines_in};
ghost use Rattle.rr_icalfile.specs.Words.{escaped, title_of, unescaped};

use rr_events::{Piece, first_value, full_lines, own_lines};
use rr_model::{Bytes, NoMemory};
use std::alloc::Global;

// Puts what a backslash and this byte stand for.
fn put_escaped(text: &mut Bytes, byte: u8) -> Result<(), NoMemory>
    ensures { OnOk result (text.new ≡ text.old ++ escaped byte) }
{
    match byte {
        b'n' | b'N' => text.put(b' ')?,
        b',' | b';' | b'\\' => text.put(byte)?,
        _ => {
            text.put(b'\\')?;
            text.put(byte)?;
        }
    }
    Ok(())
}

// A value of text as it reads.
fn unescaped(alloc: Global, value: &[u8]) -> Result<Bytes, NoMemory>
    ensures { IfOk result (λ text. text ≡ unescaped false value.now) }
{
    let mut text = Bytes::new(alloc);
    let mut is_escaped = false;
    for byte in value {
        if is_escaped {
            put_escaped(&mut text, *byte)?;
            is_escaped = false;
        } else if *byte == b'\\' {
            is_escaped = true;
        } else {
            text.put(*byte)?;
        }
    }
    if is_escaped {
        text.put(b'\\')?;
    }
    Ok(text)
}

/// Reads the title of the event of a piece.
#[tactic(auto, using(crate::proofs::FullLemmas::title_full))]
pub(crate) fn read_title(alloc: Global, piece: Piece) -> Result<Bytes, NoMemory>
    requires { piece.first + length piece.text.now < 2 ^ 64 }
    ensures { IfOk result (λ title. title ≡ title_of (lines_in piece.entry)) }
{
    let lines = full_lines(alloc, piece)?;
    let own = own_lines(alloc, lines.as_slice())?;
    unescaped(alloc, first_value(b"SUMMARY", &own))
}
