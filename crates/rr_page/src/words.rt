// A length in words.
ghost use Rattle.std.specs.Prelude.{◌≡◌, [], IfOk, OnOk};
ghost use Rattle.rr_page.specs.Words.{gap_behind, length_words, or_no_time, parts_of_length, with_part};

use rr_length::Length;
use rr_model::NoMemory;
use rr_text::push_unsigned;
use std::alloc::Global;

// A blank behind words, if there are some.
fn gap_behind(words: &[u8]) -> &'static [u8]
    ensures { result.now ≡ gap_behind words.now }
{
    match words {
        [] => b"",
        [_, ..] => b" ",
    }
}

// Appends a number and its unit, unless it is 0.
fn push_part(out: &mut Vec<u8>, number: u64, unit: &[u8]) -> Result<(), NoMemory>
    ensures { OnOk result (out.new.items ≡ with_part out.old.items number unit.now) }
{
    if number == 0 {
        return Ok(());
    }
    let gap = gap_behind(out);
    out.extend_from_slice(gap)?;
    push_unsigned(out, number)?;
    out.extend_from_slice(unit)?;
    Ok(())
}

// Days, hours, minutes and seconds, those that are not 0.
fn push_parts(out: &mut Vec<u8>, length: Length) -> Result<(), NoMemory>
    requires { out.old.items ≡ [] }
    ensures { OnOk result (out.new.items ≡ parts_of_length length) }
{
    push_part(out, length.days, b" d")?;
    push_part(out, length.seconds / 3_600, b" h")?;
    push_part(out, length.seconds / 60 % 60, b" min")?;
    push_part(out, length.seconds % 60, b" s")
}

// Appends that there is no time at all to no words.
fn push_no_time(out: &mut Vec<u8>) -> Result<(), NoMemory>
    ensures { OnOk result (out.new.items ≡ or_no_time out.old.items) }
{
    if out.is_empty() {
        out.extend_from_slice(b"0 min")?;
    }
    Ok(())
}

// A length in words, as `1 d 2 h 30 min`.
#[tactic(auto, unfolding(crate::specs::Words::length_words))]
pub(crate) fn length_words(alloc: Global, length: Length) -> Result<Vec<u8>, NoMemory>
    ensures { IfOk result (λ words. words.items ≡ length_words length) }
{
    let mut words = Vec::new(alloc);
    push_parts(&mut words, length)?;
    push_no_time(&mut words)?;
    Ok(words)
}
