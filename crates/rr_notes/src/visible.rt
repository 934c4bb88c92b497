// Text that a terminal shows and does not obey.
ghost use Rattle.std.specs.Prelude.{◌<◌, All, IfOk, OnOk};
ghost use Rattle.rr_notes.specs.Visible.{IsVisible, IsVisibleNote};

use std::alloc::{AllocError, Global};

// The most bytes of a name or a word that a note repeats.
const MAX_SHOWN: usize = 200;

// A digit to the base of 16.
fn hex_digit(value: u8) -> u8
    requires { value < 16 }
    ensures { IsVisible result }
{
    if value < 10 {
        b'0' + value
    } else {
        b'a' + (value - 10)
    }
}

// Appends a byte as it stands if it is a blank or a visible character of ASCII, otherwise as a backslash, an x and two digits.
fn push_visible(out: &mut Vec<u8>, byte: u8) -> Result<(), AllocError>
    requires { All IsVisible out.old.items }
    ensures { OnOk result (All IsVisible out.new.items) }
{
    if byte >= b' ' && byte < 0x7F {
        out.push(byte)?;
        return Ok(());
    }
    out.push(b'\\')?;
    out.push(b'x')?;
    out.push(hex_digit(byte / 16))?;
    out.push(hex_digit(byte % 16))?;
    Ok(())
}

// The bytes, in blanks and visible characters of ASCII alone.
fn visible_bytes(alloc: Global, bytes: &[u8]) -> Result<Vec<u8>, AllocError>
    ensures { IfOk result (λ out. All IsVisible out.items) }
{
    let mut out = Vec::new(alloc);
    for byte in bytes {
        push_visible(&mut out, *byte)?;
    }
    Ok(out)
}

/// The text of these bytes, of which each that is neither a blank nor a visible character of ASCII is written as `\x` and two
/// hexadecimal digits.
pub fn visible(alloc: Global, bytes: &[u8]) -> Result<String, AllocError>
    ensures { IsVisibleNote result }
{
    match String::from_utf8(visible_bytes(alloc, bytes)?) {
        Ok(text) => Ok(text),
        Err(_) => Ok(String::new(alloc)),
    }
}

/// The bytes, visible, and the first of them alone if there are more than `MAX_SHOWN`.
pub fn shown_bytes(alloc: Global, bytes: &[u8]) -> Result<String, AllocError>
    ensures { IsVisibleNote result }
{
    if bytes.len() <= MAX_SHOWN {
        return visible(alloc, bytes);
    }
    let (front, _) = bytes.split_at(MAX_SHOWN);
    let mut front = visible_bytes(alloc, front)?;
    front.extend_from_slice(b"...")?;
    visible(alloc, front.as_slice())
}

/// A name or a word as a note repeats it: visible, and its first 200 bytes alone if it has more.
pub fn shown(alloc: Global, word: &str) -> Result<String, AllocError>
    ensures { IsVisibleNote result }
{
    shown_bytes(alloc, word.as_bytes())
}
