// The numbers of a BY part, and what they say of a number.
ghost use Rattle.std.specs.Prelude.{◌≡◌, ◌≤◌, ◌-ℤ◌, pos};
ghost use Rattle.rr_model.specs.Rule.Candidate.{allows, allows_signed, lists};
ghost use Rattle.rr_model.specs.Rule.Filled.{filled_part};

use rr_model::Numbers;

// Whether the list has the number.
fn lists(numbers: &Numbers, n: i16) -> bool
    ensures { result ≡ lists numbers.now n }
{
    numbers.as_slice().contains(&n)
}

/// Whether the list has the number, which may be one that no BY part can list.
pub fn lists_number(numbers: &Numbers, n: i64) -> bool
    ensures { result ≡ lists numbers.now n }
{
    numbers.as_slice().iter().any(|x| i64::from(*x) == n)
}

/// Whether a BY part is absent, or lists the number (RFC 5545, section 3.3.10).
pub fn allows(numbers: &Numbers, n: i16) -> bool
    ensures { result ≡ allows numbers.now n }
{
    numbers.is_empty() || lists(numbers, n)
}

/// Whether a BY part is absent, or lists the k-th of `many`, from the front or from the back (RFC 5545, section 3.3.10).
pub fn allows_signed(numbers: &Numbers, k: u16, many: u16) -> bool
    requires number { k ≤ 366 }
    requires most { many ≤ 366 }
    ensures { result ≡ allows_signed numbers.now (pos k) (pos many) }
{
    numbers.is_empty() || lists(numbers, k as i16) || lists(numbers, number_from_back(k, many))
}

/// The number of the k-th of `many`, from the back as a negative number: -1 for the last.
pub fn number_from_back(k: u16, many: u16) -> i16
    requires number { k ≤ 366 }
    requires most { many ≤ 366 }
    ensures { result ≡ (pos k -ℤ pos many) -ℤ pos 1 }
{
    k as i16 - many as i16 - 1
}

/// Whether a part lists `n`. If it is absent and wanted, it lists the start's own number alone.
pub fn allows_filled(numbers: &Numbers, is_wanted: bool, own: u8, n: u8) -> bool
    ensures { result ≡ allows (filled_part is_wanted numbers.now (pos own)) (pos n) }
{
    if is_wanted && numbers.is_empty() {
        own == n
    } else {
        allows(numbers, i16::from(n))
    }
}

// Whether a part lists place `n`, counted from the front or from the back. If it is absent and wanted, it lists the
// start's own number alone.
pub(crate) fn allows_place_filled(
    numbers: &Numbers,
    is_wanted: bool,
    own: u8,
    k: u8,
    many: u8,
) -> bool
    ensures { result ≡ allows_signed (filled_part is_wanted numbers.now (pos own))
        (pos k) (pos many) }
{
    if is_wanted && numbers.is_empty() {
        own == k || i16::from(own) == number_from_back(u16::from(k), u16::from(many))
    } else {
        allows_signed(numbers, u16::from(k), u16::from(many))
    }
}
