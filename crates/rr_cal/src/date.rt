// Dates and day numbers, by `jiff` inside one cycle of 400 years.
ghost use Rattle.std.specs.Prelude.{◌≡◌, ◌↔◌, IsTrue, pos, ◌+ℤ◌, ◌*ℤ◌};
ghost use Rattle.std.specs.Int.{int_div_euclid};
ghost use Rattle.rr_model.specs.Calendar.{day_number, IsDate, is_date, IsDayWithin, year_of, month_of, day_of_month};

use jiff::civil;

/// A date of the proleptic Gregorian calendar (ISO 8601), in any year.
#[derive(Clone, Copy, Debug, PartialEq, Eq)]
pub struct Date {
    /// The year; the year before 1 is 0.
    pub year: i64,
    /// The month, from 1 to 12.
    pub month: u8,
    /// The day of the month, from 1.
    pub day: u8,
}

// After this number of years the calendar begins again,
pub(crate) const CYCLE_YEARS: i64 = 400;

// which are this number of days.
const CYCLE_DAYS: i64 = 146_097;

// How many days 0000-01-01 lies before 1970-01-01.
const DAYS_TO_EPOCH: i64 = 719_528;

/// The day number of a date: days since 1970-01-01.
pub fn day_of(date: Date) -> i64
    requires date { IsDate date.year date.month date.day }
    requires near { IsDayWithin 1000 (day_number date.year date.month date.day) }
    ensures { result ≡ day_number date.year date.month date.day }
{
    day_of_near(date)
}

/// The date of a day, given by its number.
pub fn date_of(day: i64) -> Date
    requires near { IsDayWithin 1000 day }
    ensures year { result.year ≡ year_of day }
    ensures month { result.month ≡ month_of day }
    ensures day { result.day ≡ day_of_month day }
    ensures date { IsDate result.year result.month result.day }
    ensures number { day_number result.year result.month result.day ≡ day }
{
    date_of_near(day)
}

// As `day_of`, somewhat farther: a week's year can begin and end past the days that the calls take.
pub(crate) fn day_of_near(date: Date) -> i64
    requires date { IsDate date.year date.month date.day }
    requires near { IsDayWithin 3000 (day_number date.year date.month date.day) }
    ensures { result ≡ day_number date.year date.month date.day }
{
    let cycle = date.year.div_euclid(CYCLE_YEARS);
    let inner = in_first_cycle(date).to_plain();
    inner.to_unix_epoch_day() as i64 + CYCLE_DAYS * cycle
}

// The date of the same month and day in the cycle that begins with the year 0.
pub(crate) fn in_first_cycle(date: Date) -> civil::Date
    requires { IsDate date.year date.month date.day }
    ensures year { date.year ≡ result.year +ℤ (pos 400 *ℤ int_div_euclid date.year (pos 400)) }
    ensures month { result.month ≡ date.month }
    ensures day { result.day ≡ date.day }
{
    let year = date.year.rem_euclid(CYCLE_YEARS) as i16;
    civil::date(year, date.month as i8, date.day as i8)
}

// As `date_of`, somewhat farther.
pub(crate) fn date_of_near(day: i64) -> Date
    requires near { IsDayWithin 3000 day }
    ensures year { result.year ≡ year_of day }
    ensures month { result.month ≡ month_of day }
    ensures day { result.day ≡ day_of_month day }
    ensures date { IsDate result.year result.month result.day }
    ensures number { day_number result.year result.month result.day ≡ day }
{
    let shifted = day + DAYS_TO_EPOCH;
    let cycle = shifted.div_euclid(CYCLE_DAYS);
    let rest = shifted.rem_euclid(CYCLE_DAYS) - DAYS_TO_EPOCH;
    let inner = jiff_core::civil::Date::from_unix_epoch_day(rest).unwrap();
    Date {
        year: inner.year as i64 + CYCLE_YEARS * cycle,
        month: inner.month,
        day: inner.day,
    }
}

/// Whether the calendar has this date.
pub fn valid(year: i64, month: u8, day: u8) -> bool
    ensures date { IsTrue result ↔ IsDate year month day }
    ensures test { result ≡ is_date year month day }
{
    if month > 12 || day > 31 {
        return false;
    }
    let inner = civil::Date::new(year.rem_euclid(CYCLE_YEARS) as i16, month as i8, day as i8);
    inner.is_ok()
}
