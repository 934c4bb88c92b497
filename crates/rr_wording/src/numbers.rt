// Texts that grow, and numbers in English.
ghost use Rattle.std.specs.Prelude.{◌≡◌, ◌++◌, OnOk};
ghost use Rattle.rr_wording.specs.Numbers.{counted, numbered, ordinal, ordinal_end, place, place_from_back, place_from_front, plural_end};

use rr_model::NoMemory;
use rr_text::push_unsigned;

// Appends the bytes of a text as they stand.
pub(crate) fn push(out: &mut Vec<u8>, text: &[u8]) -> Result<(), NoMemory>
    ensures { OnOk result (out.new.items ≡ out.old.items ++ text.now) }
{
    out.extend_from_slice(text)?;
    Ok(())
}

// The letters behind the digits of an ordinal.
#[tactic(auto, unfolding(crate::specs::Numbers::ordinal_end))]
fn ordinal_end(number: u64) -> &'static [u8]
    ensures { result.now ≡ ordinal_end number }
{
    if number / 10 % 10 == 1 {
        return b"th";
    }
    match number % 10 {
        1 => b"st",
        2 => b"nd",
        3 => b"rd",
        _ => b"th",
    }
}

// Appends an ordinal in digits: `21st`.
#[tactic(auto, unfolding(crate::specs::Numbers::ordinal))]
pub(crate) fn push_ordinal(out: &mut Vec<u8>, number: u64) -> Result<(), NoMemory>
    ensures { OnOk result (out.new.items ≡ out.old.items ++ ordinal number) }
{
    push_unsigned(out, number)?;
    push(out, ordinal_end(number))
}

// Appends a place from the front: `second`, `6th`.
#[tactic(auto, unfolding(crate::specs::Numbers::place_from_front))]
fn push_place_from_front(out: &mut Vec<u8>, number: u64) -> Result<(), NoMemory>
    ensures { OnOk result (out.new.items ≡ out.old.items ++ place_from_front number) }
{
    match number {
        1 => push(out, b"first"),
        2 => push(out, b"second"),
        3 => push(out, b"third"),
        4 => push(out, b"fourth"),
        5 => push(out, b"fifth"),
        _ => push_ordinal(out, number),
    }
}

// Appends a place from the back: `last`, `second last`.
#[tactic(auto, unfolding(crate::specs::Numbers::place_from_back))]
pub(crate) fn push_place_from_back(out: &mut Vec<u8>, number: u64) -> Result<(), NoMemory>
    ensures { OnOk result (out.new.items ≡ out.old.items ++ place_from_back number) }
{
    if number == 1 {
        return push(out, b"last");
    }
    push_place_from_front(out, number)?;
    push(out, b" last")
}

// Appends the place that a number of a rule counts, from the back if it is negative.
#[tactic(auto, unfolding(crate::specs::Numbers::place))]
pub(crate) fn push_place(out: &mut Vec<u8>, number: i16) -> Result<(), NoMemory>
    ensures { OnOk result (out.new.items ≡ out.old.items ++ place number) }
{
    let count = u64::from(number.unsigned_abs());
    if number < 0 {
        return push_place_from_back(out, count);
    }
    push_place_from_front(out, count)
}

// Appends such a place with digits from the front: `15th`, `last`.
#[tactic(auto, unfolding(crate::specs::Numbers::numbered))]
pub(crate) fn push_numbered(out: &mut Vec<u8>, number: i16) -> Result<(), NoMemory>
    ensures { OnOk result (out.new.items ≡ out.old.items ++ numbered number) }
{
    let count = u64::from(number.unsigned_abs());
    if number < 0 {
        return push_place_from_back(out, count);
    }
    push_ordinal(out, count)
}

// The ending of a word that is counted.
#[tactic(auto, unfolding(crate::specs::Numbers::plural_end))]
pub(crate) fn plural_end(count: u64) -> &'static [u8]
    ensures { result.now ≡ plural_end count }
{
    if count == 1 { b"" } else { b"s" }
}

// Appends a number of what a word names: `1 time`, `10 times`.
#[tactic(auto, unfolding(crate::specs::Numbers::counted))]
pub(crate) fn push_counted(out: &mut Vec<u8>, count: u64, word: &[u8]) -> Result<(), NoMemory>
    ensures { OnOk result (out.new.items ≡ out.old.items ++ counted count word.now) }
{
    push_unsigned(out, count)?;
    push(out, b" ")?;
    push(out, word)?;
    push(out, plural_end(count))
}
