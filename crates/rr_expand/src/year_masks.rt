// The days of a year that the date parts of a rule allow, as bits.
ghost use Rattle.std.specs.Prelude.{◌≡◌, ◌≢◌, ℕ, ◌+◌, ◌*◌, ◌/◌, ◌<◌, ◌≤◌, ◌+ℤ◌, pos, true, if◌then◌else◌};
ghost use Rattle.rr_model.specs.Calendar.{IsDayWithin, first_day_of_year, is_leap};
ghost use Rattle.rr_expand.specs.LeftOut.{MarksWeekdays};
ghost use Rattle.rr_expand.specs.Years.{AreBitsBetween, IsFirstBit, IsYearMask, MarksAllowed, filling_of, is_bit_set, mask_key};

use crate::left_out::{day_after, days_on, gaps, lists_weekday, names_weekdays_alone};
use rr_cal::{Date, Day, day_of, days_in_year, year_kind};
use rr_model::Rule;
use rr_parts::date_parts_hold;

/// The days of a year that the date parts of a rule allow (RFC 5545, section 3.3.10), a bit for each: bit `k`, counted
/// from the lowest bit of the first word, is that of day `k` of the year. 1 January is day 0.
#[derive(Clone, Copy)]
pub struct YearMask {
    /// The bits; those from the year's length on are 0.
    pub bits: [u64; 6],
}

impl YearMask {
    /// The first day from one on and before another, counted in the year from 0, whose bit is 1; `None` if there is
    /// none. Words of which no bit is set are passed over at once.
    pub fn first_from(&self, from: u16, end: u16) -> Option<u16>
        requires { end ≤ 384 }
        ensures { IsFirstBit self.now.bits from end result }
    {
        let mut next = from;
        while next < end {
            if let Some(bit) = self.first_in_word(next) {
                return if bit < end { Some(bit) } else { None };
            }
            next = (next / 64 + 1) * 64;
        }
        None
    }

    // The first day from one on whose bit is 1, of those that have their bits in one word.
    fn first_in_word(&self, from: u16) -> Option<u16>
        requires { from < 384 }
        ensures { IsFirstBit self.now.bits from ((from / 64 + 1) * 64) result }
    {
        let rest = self.bits[usize::from(from / 64)] >> (from % 64);
        if rest == 0 {
            None
        } else {
            Some(from + rest.trailing_zeros() as u16)
        }
    }

    // The bits of the days from one on and before another, which have theirs in one word, from the lowest bit on.
    pub(crate) fn bits_between(&self, from: u16, end: u16) -> u64
        requires some { from < end }
        requires word { end ≤ (from / 64 + 1) * 64 }
        requires within { from < 384 }
        ensures { AreBitsBetween self.now.bits from end result }
    {
        let rest = self.bits[usize::from(from / 64)] >> (from % 64);
        rest & (u64::MAX >> (64 - (end - from)))
    }

    // Sets the bit of a day, counted in the year from 0.
    fn set(&mut self, bit: u16)
        requires { bit < 384 }
        ensures same { is_bit_set self.new.bits bit ≡ true }
        ensures other { (k : ℕ) → k ≢ bit
            → is_bit_set self.new.bits k ≡ is_bit_set self.old.bits k }
    {
        self.bits[usize::from(bit / 64)] |= 1 << (bit % 64);
    }
}

/// The mask of a year: the days at which every date part of the rule holds, filled from the day of its start. INTERVAL and
/// BYSETPOS are not asked. Days are counted since 1970-01-01. Within `MAX_DAY` every year is near enough.
pub fn year_mask(rule: &Rule, start_day: i64, year: i64) -> YearMask
    requires start { IsDayWithin 1000 start_day }
    requires first { IsDayWithin 1000 (first_day_of_year year) }
    requires next { IsDayWithin 1000 (first_day_of_year (year +ℤ pos 1)) }
    ensures { IsYearMask (filling_of rule.now start_day) year result.bits }
{
    let first = Day::new(new_year(year));
    let count = days_in_year(year);
    if names_weekdays_alone(rule) {
        weekday_mask(rule, first.weekday, count)
    } else {
        mask_from(rule, &Day::new(start_day), first, count)
    }
}

// The mask of `count` days from one of a weekday on: those that have a weekday of BYDAY.
fn weekday_mask(rule: &Rule, weekday: u8, count: u16) -> YearMask
    requires weekday { weekday < 7 }
    requires count { count ≤ 384 }
    ensures { MarksWeekdays rule.now weekday count result.bits }
{
    let gaps = gaps(rule);
    let mut mask = YearMask { bits: [0; 6] };
    let mut day = weekday;
    let mut bit = 0;
    while bit < count {
        if lists_weekday(rule.by_day.as_slice(), day) {
            mask.set(bit);
        }
        let step = u16::from(gaps[usize::from(day)]).min(count - bit);
        day = (day + step as u8) % 7;
        bit += step;
    }
    mask
}

// The mask of `count` days from the first on. Days that a month, a day of the month or a weekday leaves out are stepped over.
fn mask_from(rule: &Rule, start: &Day, first: Day, count: u16) -> YearMask
    requires count { count ≤ 384 }
    requires last { IsDayWithin 1000 (first.number +ℤ pos count) }
    ensures { MarksAllowed (filling_of rule.now start.now.number) first.number count result.bits }
{
    let gaps = gaps(rule);
    let mut mask = YearMask { bits: [0; 6] };
    let mut day = first;
    let mut bit = 0;
    while bit < count {
        if date_parts_hold(rule, start, &day) {
            mask.set(bit);
        }
        let step = u16::from(days_on(rule, start, &gaps, &day)).min(count - bit);
        day = day_after(&day, step as u8);
        bit += step;
    }
    mask
}

/// The first day of a year, in days since 1970-01-01.
pub fn new_year(year: i64) -> i64
    requires { IsDayWithin 1000 (first_day_of_year year) }
    ensures { result ≡ first_day_of_year year }
{
    day_of(Date {
        year,
        month: 1,
        day: 1,
    })
}

/// How many keys of years there are: each `mask_key` is below.
pub const YEAR_KEYS: usize = 56;

/// The key of a year, below 56: years of one key have the same mask. It is the kind of the year, and with BYWEEKNO 14 more
/// if the year before is leap, and 28 more if the year after is. Years from -3,000,000,000,000 to 3,000,000,000,000.
pub fn mask_key(rule: &Rule, year: i64) -> u8
    requires { IsDayWithin 0 year }
    ensures value { result ≡ mask_key rule.now year }
    ensures below { result < 56 }
{
    let kind = year_kind(year);
    if rule.by_week_no.is_empty() {
        kind
    } else {
        kind + if_leap(year - 1, 14) + if_leap(year + 1, 28)
    }
}

// `more` if the year is leap, and 0 otherwise.
fn if_leap(year: i64, more: u8) -> u8
    ensures { result ≡ (if is_leap year then more else 0) }
{
    if days_in_year(year) == 366 { more } else { 0 }
}
