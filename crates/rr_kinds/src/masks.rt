// The first day of a year that exactly one of two masks has.
ghost use Rattle.std.specs.Prelude.{◌≡◌, ℕ, ◌≤◌, ◌<◌, true, false, IfNone, IfSome};
ghost use Rattle.rr_expand.specs.Years.{is_bit_set};
ghost use Rattle.rr_kinds.specs.Days.{AreSetAlike, IsFirstUnlikeBit};

use rr_expand::YearMask;
use rr_model::Side;

// How many bits a mask has.
const BITS: u16 = 384;

/// A bit that exactly one of two masks has.
#[derive(Clone, Copy, Debug, PartialEq, Eq)]
pub struct UnlikeBit {
    /// The bit, which is that of a day of the year from 0.
    pub bit: u16,
    /// Whose mask has it.
    pub side: Side,
}

/// The first bit from one on that exactly one of two masks has.
pub(crate) fn first_unlike(a: &YearMask, b: &YearMask, from: u16) -> Option<UnlikeBit>
    ensures none { IfNone result (AreSetAlike a.now.bits b.now.bits from 384) }
    ensures some { IfSome result (IsFirstUnlikeBit a.now.bits b.now.bits from) }
{
    if a.bits == b.bits {
        return None;
    }
    let mut bit = from;
    while bit < BITS {
        let of_a = next_bit(a, bit);
        let of_b = next_bit(b, bit);
        if of_a < of_b {
            return Some(UnlikeBit {
                bit: of_a,
                side: Side::A,
            });
        }
        if of_b < of_a {
            return Some(UnlikeBit {
                bit: of_b,
                side: Side::B,
            });
        }
        bit = of_a + 1;
    }
    None
}

// The first bit of a mask from one on, or `BITS`.
fn next_bit(mask: &YearMask, from: u16) -> u16
    requires { from < 384 }
    ensures low { from ≤ result }
    ensures high { result ≤ 384 }
    ensures set { result < 384 → is_bit_set mask.now.bits result ≡ true }
    ensures none { (k : ℕ) → from ≤ k → k < result → is_bit_set mask.now.bits k ≡ false }
{
    match mask.first_from(from, BITS) {
        Some(bit) => bit,
        None => BITS,
    }
}
