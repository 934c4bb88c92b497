// A rule of whole days with BYSETPOS, walked unit by unit (RFC 5545, section 3.3.10, BYSETPOS).
ghost use Rattle.std.specs.Prelude.{◌≡◌, ◌⊎◌, ◌<◌, ◌≤◌, Some, None, IfOk, false, get_or, int_lt, length, pos, ◌+ℤ◌, ◌≤ℤ◌, ◌<ℤ◌, ℕ};
ghost use Rattle.rr_model.specs.Calendar.{IsDayWithin};
ghost use Rattle.rr_model.specs.Rising.{Rises};
ghost use Rattle.rr_model.specs.Rule.Validity.{is_absent};
ghost use Rattle.rr_model.specs.declared.kind.Kind.TheVariants.{Days};
ghost use Rattle.rr_shapes.specs.Tables.{Extends};
ghost use Rattle.rr_parts.specs.Units.{start_of_unit};
ghost use Rattle.rr_walk.specs.Ruling.{AreUnitDays, IsCandidateAt, IsFittingUnit, IsSameRuling, KnowsTimes};
ghost use Rattle.rr_walk.specs.Steps.{tree_of_ruling};
ghost use Rattle.rr_walk.specs.Walk.{AreSecondsOn, IsFirstInIn, IsFirstOfIn, IsFirstUpToIn, IsFirstWithTimes, IsOnDayIn};

use crate::day_rule::{DayRule, END_OF_DAY, day_of_times, unit_beside};
use crate::set_positions::{next_rank, times_at_positions};
use rr_lazy::OccupiedDay;
use rr_model::NoMemory;
use rr_shapes::SetTable;
use rr_times::TimeSet;
use std::alloc::Global;

impl DayRule {
    // The first occupied day from a day on and not after another.
    pub(crate) fn first_at_positions(
        &mut self,
        alloc: Global,
        sets: &mut SetTable,
        from: i64,
        to: i64,
    ) -> Result<Option<OccupiedDay>, NoMemory>
        requires positions { is_absent self.old.rule.by_set_pos ≡ false }
        requires from { IsDayWithin 0 from }
        requires to { IsDayWithin 0 to }
        requires knows { KnowsTimes self.old sets.old }
        ensures same { IsSameRuling self.new self.old }
        ensures knows { KnowsTimes self.new sets.new }
        ensures kept { Extends sets.old sets.new }
        ensures found { IfOk result (IsFirstUpToIn sets.new (tree_of_ruling self.old) from to) }
    {
        let step = i64::from(self.rule.interval);
        let mut unit = self.first_unit(from);
        while self.begins_by(unit, to) {
            match self.first_in(alloc, sets, unit, from)? {
                None => {}
                Some(found) => return Ok(up_to(found, to)),
            }
            unit += step;
        }
        Ok(None)
    }

    // The first occupied day of a unit that fits the interval, from a day on. The unit's candidate days are held for the next
    // call.
    fn first_in(
        &mut self,
        alloc: Global,
        sets: &mut SetTable,
        unit: i64,
        from: i64,
    ) -> Result<Option<OccupiedDay>, NoMemory>
        requires positions { is_absent self.old.rule.by_set_pos ≡ false }
        requires first { IsDayWithin 400 (start_of_unit self.old.rule Days unit) }
        requires next { IsDayWithin 400 (start_of_unit self.old.rule Days (unit +ℤ pos 1)) }
        requires fits { IsFittingUnit self.old unit }
        requires knows { KnowsTimes self.old sets.old }
        ensures same { IsSameRuling self.new self.old }
        ensures knows { KnowsTimes self.new sets.new }
        ensures kept { Extends sets.old sets.new }
        ensures found { IfOk result
            (IsFirstInIn sets.new (tree_of_ruling self.old) self.old.rule unit from) }
    {
        if !(self.is_held && self.unit.number == unit) {
            self.unit = unit_beside(self.rule.freq, self.rule.week_start, self.unit, unit);
            self.is_held = false;
            let count = (self.unit.next - self.unit.first) as u16;
            self.allowed.list(self.unit.first, count, &mut self.days)?;
            self.is_held = true;
        }
        match self.first_alone(self.days.as_slice(), from) {
            None => self.first_of(alloc, sets, self.days.as_slice(), from),
            Some(day) => self.with_times(alloc, sets, day),
        }
    }

    // The first occupied one of a unit's candidate days from a day on, if each has one time: a day on which a position is has
    // that time. None if the days have other numbers of times, and if the position lies before the start.
    fn first_alone(&self, days: &[i64], from: i64) -> Option<i64>
        requires positions { is_absent self.now.rule.by_set_pos ≡ false }
        requires days { AreUnitDays self.now days.now }
        ensures { IsFirstWithTimes self.now days.now from result }
    {
        let times = self.times.as_slice();
        if times.len() != 1 {
            return None;
        }
        let rank = count_before(days, from);
        let found = next_rank(&self.rule.by_set_pos, 1, days.len(), rank)?;
        if self.first_second(days[found]) > times[0] {
            return None;
        }
        Some(days[found])
    }

    // The first occupied one of a unit's candidate days from a day on. Days on which no position is are passed over.
    fn first_of(
        &self,
        alloc: Global,
        sets: &mut SetTable,
        days: &[i64],
        from: i64,
    ) -> Result<Option<OccupiedDay>, NoMemory>
        requires positions { is_absent self.now.rule.by_set_pos ≡ false }
        requires days { AreUnitDays self.now days.now }
        ensures kept { Extends sets.old sets.new }
        ensures found { IfOk result (IsFirstOfIn sets.new (tree_of_ruling self.now) days.now from) }
    {
        let count = days.len();
        let each = self.times.as_slice().len();
        let mut rank = count_before(days, from);
        while let Some(found) = next_rank(&self.rule.by_set_pos, each, count, rank) {
            let occupied = self.on_day(alloc, sets, days[found], found, count)?;
            if occupied.is_some() {
                return Ok(occupied);
            }
            rank = found + 1;
        }
        Ok(None)
    }

    // A candidate day, if it is occupied: of its unit's `count` candidate days `rank` come before it.
    fn on_day(
        &self,
        alloc: Global,
        sets: &mut SetTable,
        day: i64,
        rank: usize,
        count: usize,
    ) -> Result<Option<OccupiedDay>, NoMemory>
        requires positions { is_absent self.now.rule.by_set_pos ≡ false }
        requires candidate { IsCandidateAt self.now day rank count }
        ensures kept { Extends sets.old sets.new }
        ensures found { IfOk result (IsOnDayIn sets.new (tree_of_ruling self.now) day) }
    {
        let times = self.seconds_of(alloc, day, rank, count)?;
        day_of_times(sets, day, times)
    }

    // The seconds of a candidate day that the rule chooses from its start on: of its unit's `count` candidate
    // days `rank` come before it.
    fn seconds_of(
        &self,
        alloc: Global,
        day: i64,
        rank: usize,
        count: usize,
    ) -> Result<TimeSet, NoMemory>
        requires positions { is_absent self.now.rule.by_set_pos ≡ false }
        requires candidate { IsCandidateAt self.now day rank count }
        ensures { IfOk result (λ t. AreSecondsOn (tree_of_ruling self.now) day t) }
    {
        let from = self.first_second(day);
        let positions = &self.rule.by_set_pos;
        let chosen = times_at_positions(alloc, &self.times, rank, count, positions)?;
        TimeSet::cut(alloc, &chosen, from, END_OF_DAY)
    }
}

// How many of the days lie before one. That none or all do is seen at once.
fn count_before(days: &[i64], from: i64) -> usize
    requires rising { Rises int_lt days.now }
    ensures bound { result ≤ length days.now }
    ensures before { (k : ℕ) → k < result → get_or days.now k (pos 0) <ℤ from }
    ensures not_before { (k : ℕ) → result ≤ k → k < length days.now
        → from ≤ℤ get_or days.now k (pos 0) }
{
    let count = days.len();
    if count == 0 || from <= days[0] {
        return 0;
    }
    if days[count - 1] < from {
        return count;
    }
    days.partition_point(|day| *day < from)
}

// An occupied day, if it is not after a day.
fn up_to(found: OccupiedDay, to: i64) -> Option<OccupiedDay>
    ensures { ((result ≡ Some found) × (found.day ≤ℤ to))
        ⊎ ((result ≡ None) × (to <ℤ found.day)) }
{
    if found.day <= to { Some(found) } else { None }
}
