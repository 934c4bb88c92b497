// Whether dates or moments lie in the years 1 to 9999.
ghost use Rattle.std.specs.Prelude.{◌≡◌, All, IsFalse, IsTrue};
ghost use Rattle.rr_model.specs.Moment.Years.{IsInYears, has_four_digit_year, is_in_years};
ghost use Rattle.rr_split.specs.Vcal.{HasOneOutside};

use rr_model::{FIRST_DAY, Kind, day_part};

// 10000-01-01, the day after the years 1 to 9999.
const DAYS_END: i64 = 2_932_897;

// Whether a day lies in the years 1 to 9999.
fn has_four_digit_year(day: i64) -> bool
    ensures { result ≡ has_four_digit_year day }
{
    day >= FIRST_DAY && day < DAYS_END
}

// Whether a date or a moment lies in the years 1 to 9999.
fn is_in_years(kind: Kind, at: i64) -> bool
    ensures { result ≡ is_in_years kind at }
{
    has_four_digit_year(day_part(kind, at))
}

/// Whether all dates or moments of a list lie in the years 1 to 9999.
pub(crate) fn are_in_years(kind: Kind, times: &[i64]) -> bool
    ensures all { IsTrue result → All (IsInYears kind) times.now }
    ensures outside { IsFalse result → HasOneOutside kind times.now }
{
    for time in times {
        if !is_in_years(kind, *time) {
            return false;
        }
    }
    true
}
