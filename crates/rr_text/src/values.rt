// The value of a line, a text cut in two, and a date or moment that is asked for.
ghost use Rattle.std.specs.Prelude.{◌≡◌, ◌==◌, ok_or, option_map, position, IfOk};
ghost use Rattle.std.specs.Char.{is_ascii_lowercase};
ghost use Rattle.std.specs.Cow.{cow_slice_items};
ghost use Rattle.std.specs.List.{list_any};
ghost use Rattle.rr_model.specs.Text.Moments.{basic};
ghost use Rattle.rr_model.specs.Text.Rules.{split_once, line_value};
ghost use Rattle.rr_model.specs.declared.refusal.Refusal.TheVariants.{BadMoment};

use crate::blanks::trim;
use crate::moment::basic;
use rr_model::{NoMemory, Refusal, Stamp};
use std::alloc::Global;
use std::borrow::CowSlice;

// The index of the first such byte.
fn index_of(text: &[u8], byte: u8) -> Option<usize>
    ensures { result ≡ position (λ b. b == byte) text.now }
{
    text.iter().position(|b| *b == byte)
}

/// What stands before the first such byte, and what after it.
pub fn split_once(text: &[u8], byte: u8) -> Option<(&[u8], &[u8])>
    ensures { option_map (λ sides. (sides.0.now, sides.1.now)) result
        ≡ split_once byte text.now }
{
    let index = index_of(text, byte)?;
    Some((&text[..index], &text[index + 1..]))
}

// Whether a letter of a text is small.
fn has_small_letter(text: &[u8]) -> bool
    ensures { result ≡ list_any is_ascii_lowercase text.now }
{
    text.iter().any(|b| b.is_ascii_lowercase())
}

/// The value of a line: in capitals, without the blanks and tabs around it. Nothing is copied if no letter of it is small.
pub fn line_value<'a>(alloc: Global, text: &'a [u8]) -> Result<CowSlice<'a, u8>, NoMemory>
    ensures { IfOk result (λ value. cow_slice_items value ≡ line_value text.now) }
{
    let value = trim(text);
    if has_small_letter(value) {
        return Ok(CowSlice::Owned(value.to_ascii_uppercase(alloc)?));
    }
    Ok(CowSlice::Borrowed(value))
}

/// The date or moment that a text states; `BadMoment` comes if it states none.
pub fn moment_of(line: u64, text: &[u8]) -> Result<Stamp, Refusal>
    ensures { result ≡ ok_or (basic text.now) (BadMoment line) }
{
    basic(text).ok_or(Refusal::BadMoment(line))
}
