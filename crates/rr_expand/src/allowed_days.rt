// The days that the date parts of a rule allow, found by masks of years.
ghost use Rattle.std.specs.Prelude.{◌≡◌, ◌+◌, ◌*◌, ◌/◌, ◌<◌, ◌≤◌, IfOk, OnOk, [], false, pos, true, ◌+ℤ◌, ◌≤ℤ◌, ◌<ℤ◌, ℤ};
ghost use Rattle.rr_model.specs.Calendar.{IsDayWithin, first_day_of_year};
ghost use Rattle.rr_expand.specs.Years.{AllowsEveryDay, Filling, IsFirstAllowed, IsYearMask, allows_day, filling_of};
ghost use Rattle.rr_expand.specs.KeptMasks.{AreAllowedDays, AreMasks, AreKeptMasks, IsFirstMarked, IsMaskedYear, ListsOn, TellDays, has_date_part};

use crate::year_masks::{YEAR_KEYS, YearMask, mask_key, new_year, year_mask};
use rr_cal::{date_of, days_in_year};
use rr_model::{Freq, NoMemory, Rule};
use std::alloc::{AllocError, Global};
use std::marker::Model;

/// The days that the date parts of a rule allow, filled from the day of its start (RFC 5545, section 3.3.10).
///
/// A year's days are found by a mask, of which there are at most 56, each made at its first use and kept. If no date
/// part is present or filled every day is allowed, and no date is computed.
#[derive(Drop)]
pub struct AllowedDays {
    rule: Rule,
    start_day: i64,
    masks: Option<KeptMasks>,
}

impl Model for AllowedDays {
    ghost use Rattle.rr_expand.specs.Years.{Filling, filling_of};
    ghost use Rattle.rr_expand.specs.KeptMasks.{AreMasksOf};

    ghost Value = { Filling };

    ghost view = { λ s. filling_of s.rule s.start_day };

    ghost invariant = { λ s. AreMasksOf (filling_of s.rule s.start_day) s.masks };
}

// Masks of years, each at the index of its key, and the year in which the last day lay that was asked for.
#[derive(Drop)]
struct KeptMasks {
    kept: Vec<Option<YearMask>>,
    year: MaskedYear,
}

// A year by its number, its days, from its first one on and before the next year's, and its mask. At first it has no day.
#[derive(Clone, Copy)]
struct MaskedYear {
    number: i64,
    first: i64,
    next: i64,
    mask: YearMask,
}

impl AllowedDays {
    /// The days that a rule allows beside the day of its start, in days since 1970-01-01. No mask is made yet.
    pub fn new(alloc: Global, rule: &Rule, start_day: i64) -> Result<Self, NoMemory>
        requires { IsDayWithin 1000 start_day }
        ensures { IfOk result (λ a. a ≡ filling_of rule.now start_day) }
    {
        let rule = rule.copy(alloc)?;
        let masks = masks_for(alloc, &rule)?;
        Ok(AllowedDays {
            rule,
            start_day,
            masks,
        })
    }

    /// The first allowed day from one on and before another, in days since 1970-01-01; `None` if there is none. It
    /// takes no memory.
    pub fn first_from(&mut self, from: i64, end: i64) -> Option<i64>
        requires from { IsDayWithin 0 from }
        requires end { IsDayWithin 0 end }
        ensures same { self.new ≡ self.old }
        ensures first { IsFirstAllowed self.old from end result }
    {
        match &mut self.masks {
            None => first_of_all(from, end),
            Some(masks) => masks.first_from(&self.rule, self.start_day, from, end),
        }
    }

    /// Puts the allowed days, of `count` from the first one on, in place of those of a list.
    pub fn list(&mut self, first: i64, count: u16, days: &mut Vec<i64>) -> Result<(), NoMemory>
        requires first { IsDayWithin 400 first }
        requires last { IsDayWithin 400 (first +ℤ pos count) }
        ensures same { self.new ≡ self.old }
        ensures listed { OnOk result (AreAllowedDays self.old first count days.new.items) }
    {
        days.clear();
        match &mut self.masks {
            None => list_all(first, count, days),
            Some(masks) => masks.list(&self.rule, self.start_day, first, count, days),
        }
    }
}

impl KeptMasks {
    // An entry for each key, and no mask.
    fn new(alloc: Global) -> Result<Self, AllocError>
        ensures { IfOk result (λ m. (f : Filling) → AreKeptMasks f m) }
    {
        let mut kept = Vec::new(alloc);
        for _ in 0..YEAR_KEYS {
            kept.push(None)?;
        }
        Ok(KeptMasks {
            kept,
            year: MaskedYear {
                number: 1969,
                first: 0,
                next: 0,
                mask: YearMask { bits: [0; 6] },
            },
        })
    }

    // The first day from one on and before another that the rule allows, year by year.
    fn first_from(&mut self, rule: &Rule, start_day: i64, from: i64, end: i64) -> Option<i64>
        requires start { IsDayWithin 1000 start_day }
        requires from { IsDayWithin 400 from }
        requires end { IsDayWithin 400 end }
        requires known { AreKeptMasks (filling_of rule.now start_day) self.old }
        ensures known { AreKeptMasks (filling_of rule.now start_day) self.new }
        ensures first { IsFirstAllowed (filling_of rule.now start_day) from end result }
    {
        let mut day = from;
        while day < end {
            self.enter_year_of(rule, start_day, day);
            if let Some(found) = self.year.first_from(day, end) {
                return Some(found);
            }
            day = self.year.next;
        }
        None
    }

    // Puts the days that the rule allows, of `count` from the first one on, into an empty list, year by year.
    fn list(
        &mut self,
        rule: &Rule,
        start_day: i64,
        first: i64,
        count: u16,
        days: &mut Vec<i64>,
    ) -> Result<(), NoMemory>
        requires start { IsDayWithin 1000 start_day }
        requires first { IsDayWithin 400 first }
        requires last { IsDayWithin 400 (first +ℤ pos count) }
        requires empty { days.old.items ≡ [] }
        requires known { AreKeptMasks (filling_of rule.now start_day) self.old }
        ensures known { AreKeptMasks (filling_of rule.now start_day) self.new }
        ensures listed { OnOk result
            (AreAllowedDays (filling_of rule.now start_day) first count days.new.items) }
    {
        let end = first + i64::from(count);
        let mut day = first;
        while day < end {
            self.enter_year_of(rule, start_day, day);
            let last = end.min(self.year.next);
            self.year.list(day, last, days)?;
            day = last;
        }
        Ok(())
    }

    // Turns to the year of a day. No date is computed for the year after the one looked at, which begins where that one ends.
    fn enter_year_of(&mut self, rule: &Rule, start_day: i64, day: i64)
        requires start { IsDayWithin 1000 start_day }
        requires near { IsDayWithin 400 day }
        requires known { AreKeptMasks (filling_of rule.now start_day) self.old }
        ensures known { AreKeptMasks (filling_of rule.now start_day) self.new }
        ensures begun { self.new.year.first ≤ℤ day }
        ensures not_over { day <ℤ self.new.year.next }
    {
        if self.year.first <= day && day < self.year.next {
            return;
        }
        if self.year.next <= day && day < self.year.next + 365 {
            let number = self.year.number + 1;
            let first = self.year.next;
            self.enter_year(rule, start_day, number, first);
        } else {
            let number = date_of(day).year;
            let first = new_year(number);
            self.enter_year(rule, start_day, number, first);
        }
    }

    // Turns to the year of this number and first day.
    fn enter_year(&mut self, rule: &Rule, start_day: i64, number: i64, first: i64)
        requires start { IsDayWithin 1000 start_day }
        requires first { first ≡ first_day_of_year number }
        requires near { IsDayWithin 1000 (first_day_of_year number) }
        requires next { IsDayWithin 1000 (first_day_of_year (number +ℤ pos 1)) }
        requires known { AreKeptMasks (filling_of rule.now start_day) self.old }
        ensures known { AreKeptMasks (filling_of rule.now start_day) self.new }
        ensures first { self.new.year.first ≡ first }
        ensures next { self.new.year.next ≡ first_day_of_year (number +ℤ pos 1) }
    {
        let mask = mask_of(&mut self.kept, rule, start_day, number);
        self.year = MaskedYear {
            number,
            first,
            next: first + i64::from(days_in_year(number)),
            mask,
        };
    }
}

impl MaskedYear {
    // The first of the year's days from `from` on and before `end` whose bit is set.
    fn first_from(&self, from: i64, end: i64) -> Option<i64>
        requires year { IsMaskedYear self.now }
        requires begun { self.now.first ≤ℤ from }
        requires not_over { from <ℤ self.now.next }
        requires some { from ≤ℤ end }
        ensures { IsFirstMarked self.now from end result }
    {
        let end = end.min(self.next);
        let bit = self
            .mask
            .first_from((from - self.first) as u16, (end - self.first) as u16)?;
        Some(self.first + i64::from(bit))
    }

    // Puts the year's days from one on and before another whose bit is set after those of a list.
    fn list(&self, from: i64, end: i64, days: &mut Vec<i64>) -> Result<(), NoMemory>
        requires year { IsMaskedYear self.now }
        requires begun { self.now.first ≤ℤ from }
        requires some { from ≤ℤ end }
        requires not_over { end ≤ℤ self.now.next }
        ensures { OnOk result (ListsOn self.now from end days.old.items days.new.items) }
    {
        let last = (end - self.first) as u16;
        let mut bit = (from - self.first) as u16;
        while bit < last {
            let next = ((bit / 64 + 1) * 64).min(last);
            self.list_word(bit, next, days)?;
            bit = next;
        }
        Ok(())
    }

    // The same of days, counted in the year from 0, that have their bits in one word.
    fn list_word(&self, from: u16, end: u16, days: &mut Vec<i64>) -> Result<(), NoMemory>
        requires year { IsMaskedYear self.now }
        requires some { from < end }
        requires word { end ≤ (from / 64 + 1) * 64 }
        requires not_over { (self.now.first +ℤ pos end) ≤ℤ self.now.next }
        ensures { OnOk result (ListsOn self.now (self.now.first +ℤ pos from)
            (self.now.first +ℤ pos end) days.old.items days.new.items) }
    {
        days.reserve(usize::from(end - from))?;
        let mut rest = self.mask.bits_between(from, end);
        let mut day = self.first + i64::from(from);
        while rest != 0 {
            let zeros = rest.trailing_zeros();
            day += i64::from(zeros);
            days.push_reserved(day);
            day += 1;
            rest = rest >> zeros >> 1;
        }
        Ok(())
    }
}

// The mask of a year, made at the first use of its key.
fn mask_of(kept: &mut Vec<Option<YearMask>>, rule: &Rule, start_day: i64, year: i64) -> YearMask
    requires start { IsDayWithin 1000 start_day }
    requires first { IsDayWithin 1000 (first_day_of_year year) }
    requires next { IsDayWithin 1000 (first_day_of_year (year +ℤ pos 1)) }
    requires kept { AreMasks (filling_of rule.now start_day) kept.old.items }
    ensures kept { AreMasks (filling_of rule.now start_day) kept.new.items }
    ensures mask { IsYearMask (filling_of rule.now start_day) year result.bits }
{
    let key = usize::from(mask_key(rule, year));
    if let Some(mask) = kept[key] {
        return mask;
    }
    let mask = year_mask(rule, start_day, year);
    kept[key] = Some(mask);
    mask
}

// Masks for the rule, or none if it allows every day.
fn masks_for(alloc: Global, rule: &Rule) -> Result<Option<KeptMasks>, AllocError>
    ensures { IfOk result (λ m. (start : ℤ) → TellDays (filling_of rule.now start) m) }
{
    if restricts_days(rule) {
        Ok(Some(KeptMasks::new(alloc)?))
    } else {
        Ok(None)
    }
}

// Whether a date part of the rule is present, or filled from its start: that of a week, a month or a year always is.
fn restricts_days(rule: &Rule) -> bool
    ensures { (start d : ℤ) → result ≡ false → allows_day (filling_of rule.now start) d ≡ true }
{
    match rule.freq {
        Freq::Weekly | Freq::Monthly | Freq::Yearly => true,
        _ => has_date_part(rule),
    }
}

// Whether a date part is present.
fn has_date_part(rule: &Rule) -> bool
    ensures { result ≡ has_date_part rule.now }
{
    !(rule.by_month.is_empty()
        && rule.by_week_no.is_empty()
        && rule.by_year_day.is_empty()
        && rule.by_month_day.is_empty()
        && rule.by_day.is_empty())
}

// The first day from one on and before another.
fn first_of_all(from: i64, end: i64) -> Option<i64>
    ensures { (f : Filling) → AllowsEveryDay f → IsFirstAllowed f from end result }
{
    if from < end { Some(from) } else { None }
}

// Puts the days, of `count` from the first one on, into an empty list.
fn list_all(first: i64, count: u16, days: &mut Vec<i64>) -> Result<(), NoMemory>
    requires first { IsDayWithin 400 first }
    requires last { IsDayWithin 400 (first +ℤ pos count) }
    requires empty { days.old.items ≡ [] }
    ensures { (f : Filling) → AllowsEveryDay f
        → OnOk result (AreAllowedDays f first count days.new.items) }
{
    for k in 0..count {
        days.push(first + i64::from(k))?;
    }
    Ok(())
}
