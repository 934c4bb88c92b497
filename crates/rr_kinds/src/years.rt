// The first day that exactly one of two rules allows, found in one year of each kind.
ghost use Rattle.std.specs.Prelude.{◌≡◌, true, IfNone, IfSome, ◌≤◌, ◌+ℤ◌, pos};
ghost use Rattle.rr_model.specs.Calendar.{IsDayWithin, first_day_of_year, year_of};
ghost use Rattle.rr_model.specs.Moment.Years.{HasFourDigitYear};
ghost use Rattle.rr_model.specs.Rule.Validity.{is_absent};
ghost use Rattle.rr_expand.specs.Years.{filling_of};
ghost use Rattle.rr_kinds.specs.Days.{AllowSameFrom, AllowSameOfYear, IsFirstUnlikeDay, IsFirstUnlikeOfYear};

use crate::masks::{UnlikeBit, first_unlike};
use crate::same::have_same_parts;
use rr_cal::{date_of, year_kind};
use rr_expand::{new_year, year_mask};
use rr_model::{Rule, Side};

// After this number of years the calendar begins again.
const CYCLE_YEARS: i64 = 400;

/// A day that exactly one of two rules allows.
#[derive(Clone, Copy, Debug, PartialEq, Eq)]
pub struct UnlikeDay {
    /// The day, in days since 1970-01-01.
    pub day: i64,
    /// Whose rule allows it.
    pub side: Side,
}

/// The first day from the start's day on that exactly one of two rules without BYWEEKNO allows by its date parts, which are
/// filled from there. INTERVAL and BYSETPOS are not asked.
pub(crate) fn first_unlike_day(a: &Rule, b: &Rule, start_day: i64) -> Option<UnlikeDay>
    requires start { HasFourDigitYear start_day }
    requires first { is_absent a.now.by_week_no ≡ true }
    requires second { is_absent b.now.by_week_no ≡ true }
    ensures none { IfNone result
        (AllowSameFrom (filling_of a.now start_day) (filling_of b.now start_day) start_day) }
    ensures some { IfSome result
        (IsFirstUnlikeDay (filling_of a.now start_day) (filling_of b.now start_day) start_day) }
{
    if have_same_parts(a, b) {
        return None;
    }
    let year = date_of(start_day).year;
    let first = new_year(year);
    match unlike_in_year(a, b, start_day, year, (start_day - first) as u16) {
        Some(found) => Some(day_found(first, found)),
        None => unlike_after(a, b, start_day, year),
    }
}

// The first such day in the years after one, of which those of a kind that was seen are passed over.
fn unlike_after(a: &Rule, b: &Rule, start_day: i64, year: i64) -> Option<UnlikeDay>
    requires start { HasFourDigitYear start_day }
    requires year { year ≡ year_of start_day }
    requires first { is_absent a.now.by_week_no ≡ true }
    requires second { is_absent b.now.by_week_no ≡ true }
    ensures none { IfNone result
        (AllowSameFrom (filling_of a.now start_day) (filling_of b.now start_day)
        (first_day_of_year (year +ℤ pos 1))) }
    ensures some { IfSome result
        (IsFirstUnlikeDay (filling_of a.now start_day) (filling_of b.now start_day)
        (first_day_of_year (year +ℤ pos 1))) }
{
    let mut seen = [false; 14];
    for next in year + 1..year + 1 + CYCLE_YEARS {
        let kind = usize::from(year_kind(next));
        if !seen[kind] {
            if let Some(found) = unlike_in_year(a, b, start_day, next, 0) {
                return Some(day_found(new_year(next), found));
            }
            seen[kind] = true;
        }
    }
    None
}

// The first day of a year from one on, counted from 0, that exactly one of two rules allows.
fn unlike_in_year(a: &Rule, b: &Rule, start_day: i64, year: i64, from: u16) -> Option<UnlikeBit>
    requires start { IsDayWithin 1000 start_day }
    requires first { IsDayWithin 1000 (first_day_of_year year) }
    requires next { IsDayWithin 1000 (first_day_of_year (year +ℤ pos 1)) }
    ensures none { IfNone result
        (AllowSameOfYear (filling_of a.now start_day) (filling_of b.now start_day) year from) }
    ensures some { IfSome result
        (IsFirstUnlikeOfYear (filling_of a.now start_day) (filling_of b.now start_day) year from) }
{
    let of_a = year_mask(a, start_day, year);
    let of_b = year_mask(b, start_day, year);
    first_unlike(&of_a, &of_b, from)
}

// The day that was found in the year with this first day.
fn day_found(first: i64, found: UnlikeBit) -> UnlikeDay
    requires first { IsDayWithin 1000 first }
    ensures day { result.day ≡ first +ℤ pos found.bit }
    ensures side { result.side ≡ found.side }
{
    UnlikeDay {
        day: first + i64::from(found.bit),
        side: found.side,
    }
}
