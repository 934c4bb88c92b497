// Moments of the years 1 to 9999, which texts state.
ghost use Rattle.std.specs.Prelude.{◌≡◌, ◌+ℤ◌, if◌then◌else◌, IfSome, Some, None};
ghost use Rattle.rr_model.specs.Moment.Years.{IsInYears, is_in_years};
ghost use Rattle.rr_model.specs.declared.kind.Kind.TheVariants.{Moments};

// Whether a second number lies in the years 1 to 9999.
fn is_in_years(at: i64) -> bool
    ensures { result ≡ is_in_years Moments at }
{
    at >= -62_135_596_800 && at < 253_402_300_800
}

/// The second number that is later by an offset in seconds, if it lies in the years 1 to 9999.
pub fn later_in_years(at: i64, offset: i32) -> Option<i64>
    ensures value { result
        ≡ (if is_in_years Moments (at +ℤ offset) then Some (at +ℤ offset) else None) }
    ensures years { IfSome result (IsInYears Moments) }
{
    let later = at.checked_add(i64::from(offset))?;
    if is_in_years(later) {
        Some(later)
    } else {
        None
    }
}
