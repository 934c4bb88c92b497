// Numbers of digits alone.
ghost use Rattle.std.specs.Prelude.{◌≡◌, ◌↔◌, ◌≤◌, IsTrue, IfOk, IfSome, length};
ghost use Rattle.std.specs.Option.{is_some};
ghost use Rattle.rr_model.specs.Text.Digits.{digits_value, leading_digits};
ghost use Rattle.rr_model.specs.Text.RuleValues.{is_number, up_to, number_up_to};
ghost use Rattle.rr_text.specs.Numbers.{ExceedsU64, saturated_u64};

use crate::digits::{Digits, number};
use crate::moment::all_digits;
use rr_model::Refusal;

/// Whether the text is one or more digits.
pub fn is_number(text: &[u8]) -> bool
    ensures { result ≡ is_number text.now }
{
    !text.is_empty() && all_digits(text)
}

// Whether a run of digits is all of the text, and has one digit or more.
fn is_whole(text: &[u8], run: usize) -> bool
    requires { run ≡ length (leading_digits text.now) }
    ensures { result ≡ is_number text.now }
{
    !text.is_empty() && run == text.len()
}

/// The number that a text of one or more digits writes, at most `u64::MAX`; no other text writes one.
pub fn whole_number(text: &[u8]) -> Option<Digits>
    ensures form { is_some result ≡ is_number text.now }
    ensures value { IfSome result (λ n. n.value ≡ saturated_u64 (digits_value text.now)) }
    ensures over { IfSome result (λ n. IsTrue n.over ↔ ExceedsU64 (digits_value text.now)) }
{
    let digits = number(text, 0);
    if is_whole(text, digits.next) {
        Some(digits)
    } else {
        None
    }
}

// The number, if it is from 1 up to `most`.
fn up_to(line: u64, most: u64, n: u64) -> Result<u64, Refusal>
    ensures value { result ≡ up_to line most n }
    ensures bound { IfOk result (λ n. n ≤ most) }
{
    if 1 <= n && n <= most {
        Ok(n)
    } else {
        Err(Refusal::NumberRange(line))
    }
}

/// The number that digits write, from 1 up to `most`; `BadRule` comes for another text, `NumberRange` for another number.
#[tactic(auto, unfolding(rr_model::specs::Text::RuleValues::number_up_to))]
pub fn number_up_to(line: u64, most: u64, text: &[u8]) -> Result<u64, Refusal>
    ensures value { result ≡ number_up_to line most text.now }
    ensures bound { IfOk result (λ n. n ≤ most) }
{
    let Some(size) = whole_number(text) else {
        return Err(Refusal::BadRule(line));
    };
    if size.over {
        return Err(Refusal::NumberRange(line));
    }
    up_to(line, most, size.value)
}

/// The interval that digits write, from 1; `BadRule` comes for another text, `NumberRange` for another number.
pub fn interval_of(line: u64, text: &[u8]) -> Result<u32, Refusal>
    ensures { result ≡ number_up_to line 4294967295 text.now }
{
    let interval = number_up_to(line, u64::from(u32::MAX), text)?;
    Ok(interval as u32)
}
