// Decimal numbers in words.
ghost use Rattle.std.specs.Prelude.{◌≡◌, ◌≤◌, IfSome};
ghost use Rattle.rr_answer.specs.Command.{is_decimal, number_between};

use rr_text::{all_digits, number};

// Decimal digits without a leading zero, but for the number 0.
fn is_decimal(text: &[u8]) -> bool
    ensures { result ≡ is_decimal text.now }
{
    match text {
        [] => false,
        [first, rest @ ..] => all_digits(text) && (*first != b'0' || rest.is_empty()),
    }
}

/// A decimal number from the least to the most, without a leading zero; None if the text is none.
#[tactic(auto, unfolding(crate::specs::Command::number_between))]
pub fn number_between(least: u64, most: u64, text: &str) -> Option<u64>
    requires { most ≤ 1_125_899_906_842_624 }
    ensures number { result ≡ number_between least most text.now }
    ensures within { IfSome result (λ n. (least ≤ n) × (n ≤ most)) }
{
    let digits = text.as_bytes();
    if !is_decimal(digits) {
        return None;
    }
    let value = number(digits, 0).value;
    if least <= value && value <= most {
        Some(value)
    } else {
        None
    }
}
