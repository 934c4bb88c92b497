// The short numbers of a rule's list, and those that count from the back.
ghost use Rattle.std.specs.Prelude.{◌≡◌, ◌≤◌, IfOk, IfSome, if◌then◌else◌, pos, neg_ℤ};
ghost use Rattle.std.specs.Option.{is_some};
ghost use Rattle.rr_model.specs.Text.Digits.{digits_value};
ghost use Rattle.rr_model.specs.Vcal.Rule.{is_short_number, place_of, short_number_up_to, marked_place, month_day_of};
ghost use Rattle.rr_text.specs.Numbers.{saturated_u64};

use rr_model::Refusal;
use rr_text::{is_word, whole_number};

// The number that one to three digits write.
fn short_number(text: &[u8]) -> Option<u64>
    ensures form { is_some result ≡ is_short_number text.now }
    ensures value { IfSome result (λ n. n ≡ saturated_u64 (digits_value text.now)) }
{
    if text.len() > 3 {
        return None;
    }
    Some(whole_number(text)?.value)
}

/// A short number from 1 up to `most`.
pub(crate) fn short_number_up_to(line: u64, most: u16, text: &[u8]) -> Result<u16, Refusal>
    ensures value { result ≡ short_number_up_to line most text.now }
    ensures bound { IfOk result (λ n. n ≤ most) }
{
    let Some(n) = short_number(text) else {
        return Err(Refusal::BadRule(line));
    };
    if 1 <= n && n <= u64::from(most) {
        Ok(n as u16)
    } else {
        Err(Refusal::NumberRange(line))
    }
}

// A place, counted from the front or from the back.
fn signed_place(from_back: bool, n: u16) -> i8
    requires { n ≤ 31 }
    ensures { result ≡ (if from_back then neg_ℤ (pos n) else pos n) }
{
    if from_back { -(n as i8) } else { n as i8 }
}

fn place_of(line: u64, most: u16, from_back: bool, text: &[u8]) -> Result<i8, Refusal>
    requires { most ≤ 31 }
    ensures { result ≡ place_of line most from_back text.now }
{
    let n = short_number_up_to(line, most, text)?;
    Ok(signed_place(from_back, n))
}

/// A place with `+` or `-` after it.
pub(crate) fn marked_place(line: u64, most: u16, text: &[u8]) -> Result<i8, Refusal>
    requires { most ≤ 31 }
    ensures { result ≡ marked_place line most text.now }
{
    if let Some(front) = text.strip_suffix(b"+") {
        return place_of(line, most, false, front);
    }
    match text.strip_suffix(b"-") {
        Some(front) => place_of(line, most, true, front),
        None => Err(Refusal::BadRule(line)),
    }
}

/// A day of the month; `LD` is the last, and a day without a mark counts from the front.
pub(crate) fn month_day_of(line: u64, text: &[u8]) -> Result<i8, Refusal>
    ensures { result ≡ month_day_of line text.now }
{
    if is_word(text, b"LD") {
        return Ok(-1);
    }
    match text {
        [.., b'+' | b'-'] => marked_place(line, 31, text),
        _ => place_of(line, 31, false, text),
    }
}
