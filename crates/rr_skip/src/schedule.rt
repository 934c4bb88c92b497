// The months that a rule asks for, and the days on which their listed days fall (RFC 7529, section 4.1).
ghost use Rattle.std.specs.Prelude.{◌≡◌, ◌≤◌, IfOk, pos};
ghost use Rattle.std.specs.List.{list_any};
ghost use Rattle.rr_model.specs.Calendar.{IsDayWithin};
ghost use Rattle.rr_model.specs.Rule.Filled.{filled_part};
ghost use Rattle.rr_skip.specs.Months.{falls_at, is_due, is_offset_of_lacking, month_of_year, schedule_of, some_falls_on, unit_of_month};

use crate::months::Month;
use crate::{Skip, SkipRule};
use rr_cal::{Day, month_number};
use rr_model::{Freq, NoMemory, Numbers};
use rr_num::is_congruent;
use rr_parts::{allows, wants_month, wants_month_day};
use std::alloc::Global;

/// Which months a rule asks for, and which of their days.
#[derive(Drop)]
pub struct Schedule {
    /// What becomes of a day that a month lacks.
    pub skip: Skip,
    /// Whether months count, or years.
    pub freq: Freq,
    /// INTERVAL, how many months or years lie from one that is due to the next, from 1.
    pub interval: u32,
    /// The month or the year of the start.
    pub start_unit: i64,
    /// BYMONTH, taken from the start if the rule lacks and wants it.
    pub months: Numbers,
    /// BYMONTHDAY, taken from the start if the rule lacks it.
    pub days: Numbers,
}

// The unit of a month: its year in a yearly rule, and otherwise the month itself.
fn unit_of_month(freq: Freq, month: i64) -> i64
    ensures { result ≡ unit_of_month freq month }
{
    match freq {
        Freq::Yearly => month.div_euclid(12),
        _ => month,
    }
}

// The number in its year, from 1, of the month of this number.
fn month_of_year(month: i64) -> i16
    ensures { result ≡ pos (month_of_year month) }
{
    month.rem_euclid(12) as i16 + 1
}

// A part of a rule; if it is absent and wanted, the start's own number alone.
fn filled_part(
    alloc: Global,
    values: &Numbers,
    is_wanted: bool,
    own: u8,
) -> Result<Numbers, NoMemory>
    ensures { IfOk result (λ filled. filled ≡ filled_part is_wanted values.now (pos own)) }
{
    if is_wanted && values.is_empty() {
        let mut filled = Numbers::new(alloc);
        filled.put(i16::from(own))?;
        return Ok(filled);
    }
    values.copy(alloc)
}

// Whether a listed day that a month of this length lacks falls `offset` days after the month's first.
fn is_offset_of_lacking(skip: Skip, length: u16, offset: i64) -> bool
    ensures { result ≡ is_offset_of_lacking skip length offset }
{
    match skip {
        Skip::Omit => false,
        Skip::Backward => offset == i64::from(length) - 1,
        Skip::Forward => offset == i64::from(length),
    }
}

// Whether the k-th day of a month of this length falls `offset` days after its first.
fn falls_at(skip: Skip, length: u16, offset: i64, k: i16) -> bool
    ensures { result ≡ falls_at skip length offset k }
{
    let k = i64::from(k);
    if k <= i64::from(length) {
        offset == k - 1
    } else {
        is_offset_of_lacking(skip, length, offset)
    }
}

impl Schedule {
    /// The months that a rule asks for from the day of its start on.
    pub(crate) fn new(alloc: Global, rule: &SkipRule, start_day: i64) -> Result<Schedule, NoMemory>
        requires { IsDayWithin 1000 start_day }
        ensures { IfOk result (λ schedule. schedule ≡ schedule_of rule.now start_day) }
    {
        let day = Day::new(start_day);
        let parts = &rule.rule;
        Ok(Schedule {
            skip: rule.skip,
            freq: parts.freq,
            interval: parts.interval,
            start_unit: unit_of_month(parts.freq, month_number(&day)),
            months: filled_part(alloc, &parts.by_month, wants_month(parts), day.month)?,
            days: filled_part(
                alloc,
                &parts.by_month_day,
                wants_month_day(parts),
                day.day_of_month,
            )?,
        })
    }

    /// Whether a month is due.
    pub(crate) fn is_due(&self, month: &Month) -> bool
        requires { 1 ≤ self.now.interval }
        ensures { result ≡ is_due self.now month.now.number }
    {
        is_congruent(
            self.start_unit,
            unit_of_month(self.freq, month.number),
            self.interval,
        ) && allows(&self.months, month_of_year(month.number))
    }

    /// Whether some listed day of a month falls on a day.
    pub(crate) fn some_falls_on(&self, month: &Month, day: i64) -> bool
        requires { IsDayWithin 1000 day }
        ensures { result ≡ some_falls_on self.now month.now.number day }
    {
        self.some_falls_at(month.length, month.offset_of(day))
    }

    // Whether some listed day of a month of this length falls `offset` days after its first.
    fn some_falls_at(&self, length: u16, offset: i64) -> bool
        ensures { result ≡ list_any (λ k. falls_at self.now.skip length offset k) self.now.days }
    {
        let skip = self.skip;
        self.days
            .as_slice()
            .iter()
            .any(|k| falls_at(skip, length, offset, *k))
    }
}
