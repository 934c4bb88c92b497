// A rule whose units are shorter than a day, walked day by day.
ghost use Rattle.std.specs.Prelude.{◌≡◌, ◌<◌, IfOk, List, Some, ℕ, false, length, nat_lt, slice_get, pos, neg_ℤ, ◌≤ℤ◌, ◌+ℤ◌};
ghost use Rattle.std.proofs.Math.ListN.{set};
ghost use Rattle.rr_model.specs.Calendar.{IsDayWithin};
ghost use Rattle.rr_model.specs.Moment.Units.{is_whole_days};
ghost use Rattle.rr_model.specs.Moment.Years.{IsInYears};
ghost use Rattle.rr_model.specs.Rising.Sets.{IsSetOf};
ghost use Rattle.rr_model.specs.Rule.Validity.{IsValidRule};
ghost use Rattle.rr_model.specs.declared.kind.Kind.TheVariants.{Moments};
ghost use Rattle.rr_shapes.specs.Tables.{Extends};
ghost use Rattle.rr_shapes.specs.declared.ids.SetId.{SetId};
ghost use Rattle.rr_lazy.specs.Next.{HasNone, IsNextIn};
ghost use Rattle.rr_walk.specs.Ruling.{AllowsDay, IsChosenSecond, IsSameRuling, IsSetAt, KnowsUnitOffsets, at_moments, unit_offset};
ghost use Rattle.rr_walk.specs.Steps.{HasBegun, tree_of_ruling};
ghost use Rattle.rr_walk.specs.Walk.{IsFirstSecond, IsFirstUpToIn, IsOnDayIn};

use crate::day_rule::{END_OF_DAY, day_of_times, first_second};
use crate::offsets::{at_offsets, chosen_offsets};
use crate::rule_walk::RuleWalk;
use rr_expand::{
    AllowedDays, UnitTimes, first_fit, first_unit, fitting_seconds_by, unit_of, units_of_day,
};
use rr_lazy::OccupiedDay;
use rr_model::{Kind, NoMemory, Rule, day_part, second_part};
use rr_parts::seconds_of_unit;
use rr_shapes::{SetId, SetTable};
use rr_times::TimeSet;
use std::alloc::Global;
use std::marker::Model;

/// The walk over the days of a rule of hours, minutes or seconds beside its start.
///
/// It keeps the start's unit, the seconds of each unit that BYSETPOS chooses, the minutes and seconds that the time parts allow
/// in a unit, the days that the date parts allow, and the numbers of the sets of its days in the table. What is chosen on an allowed day
/// depends on nothing but the offset of the day's first unit that fits the interval: the numbers are kept by that offset.
#[derive(Drop)]
pub struct FineRule {
    rule: Rule,
    start: i64,
    start_day: i64,
    start_second: u32,
    own_unit: i64,
    offsets: TimeSet,
    times: UnitTimes,
    allowed: AllowedDays,
    numbers: Vec<Option<SetId>>,
}

impl Model for FineRule {
    ghost use Rattle.rr_model.specs.declared.kind.Kind.TheVariants.{Moments};
    ghost use Rattle.rr_walk.specs.Ruling.{IsFine, Ruling, ruling_of};

    ghost Value = { Ruling };

    ghost view = { λ s. ruling_of s.rule Moments s.start s.numbers.items };

    ghost invariant = { λ s. IsFine (ruling_of s.rule Moments s.start s.numbers.items)
        s.start_day s.start_second s.own_unit s.offsets s.times s.allowed };
}

impl RuleWalk for FineRule {
    ghost use Rattle.std.specs.Prelude.{false};
    ghost use Rattle.rr_walk.specs.Ruling.{KnowsUnitOffsets, unit_offsets_more};

    ghost ruling = { λ s. s };

    ghost keeps = { λ s sets. KnowsUnitOffsets s sets };

    ghost more = { λ s old new more k. unit_offsets_more s old new more k };

    ghost of_whole_days = { false };

    fn new(alloc: Global, rule: &Rule, kind: Kind, start: i64) -> Result<FineRule, NoMemory> {
        let start_day = day_part(kind, start);
        let count = units_of_day(rule.freq).min(u64::from(rule.interval)) as usize;
        let mut numbers = Vec::new(alloc);
        numbers.resize(count, None)?;
        let times = UnitTimes::new(alloc, rule, start)?;
        Ok(FineRule {
            rule: rule.copy(alloc)?,
            start,
            start_day,
            start_second: second_part(kind, start),
            own_unit: unit_of(rule.freq, start),
            offsets: chosen_offsets(alloc, rule, start)?,
            times,
            allowed: AllowedDays::new(alloc, rule, start_day)?,
            numbers,
        })
    }

    fn start_day(&self) -> i64 {
        self.start_day
    }

    fn first_up_to(
        &mut self,
        alloc: Global,
        sets: &mut SetTable,
        from: i64,
        to: i64,
    ) -> Result<Option<OccupiedDay>, NoMemory> {
        let mut day = self.fitting_day(from);
        while day <= to {
            match self.allowed.first_from(day, to + 1) {
                None => return Ok(None),
                Some(allowed) if day < allowed => day = self.fitting_day(allowed),
                Some(_) => {
                    if let Some(found) = self.on_day(alloc, sets, day)? {
                        return Ok(Some(found));
                    }
                    day = self.fitting_day(day + 1);
                }
            }
        }
        Ok(None)
    }
}

impl FineRule {
    // The first day from this one on that has a unit which fits the interval.
    #[inline(always)]
    fn fitting_day(&self, day: i64) -> i64
        requires { IsDayWithin 1000 day }
        ensures kind { self.now.kind ≡ Moments }
        ensures late { day ≤ℤ result }
        ensures near { result ≤ℤ (day +ℤ pos 4_294_967_295) }
        ensures none { HasNone (tree_of_ruling (at_moments self.now)) day result }
    {
        if self.rule.interval == 1 {
            return day;
        }
        day + (self.unit_offset(day) / units_of_day(self.rule.freq)) as i64
    }

    // How many units after the first one of a day the first comes that fits the interval.
    fn unit_offset(&self, day: i64) -> u64
        requires { IsDayWithin 1000 day }
        ensures { result ≡ unit_offset self.now day }
    {
        if self.rule.interval == 1 {
            return 0;
        }
        let first = first_unit(self.rule.freq, day);
        first_fit(first, self.own_unit, self.rule.interval)
    }

    // An allowed day, if it is occupied.
    fn on_day(
        &mut self,
        alloc: Global,
        sets: &mut SetTable,
        day: i64,
    ) -> Result<Option<OccupiedDay>, NoMemory>
        requires near { IsDayWithin 1000 day }
        requires allowed { AllowsDay self.old day }
        requires knows { KnowsUnitOffsets self.old sets.old }
        ensures same { IsSameRuling self.new self.old }
        ensures knows { KnowsUnitOffsets self.new sets.new }
        ensures kept { Extends sets.old sets.new }
        ensures found { IfOk result
            (IsOnDayIn sets.new (tree_of_ruling (at_moments self.old)) day) }
    {
        let number = self.number_on(alloc, sets, day)?;
        let chosen = sets.times(number);
        let first = self.first_second(day);
        if first > 0 {
            let times = TimeSet::cut(alloc, chosen, first, END_OF_DAY)?;
            return day_of_times(sets, day, times);
        }
        let count = chosen.as_slice().len();
        if count == 0 {
            return Ok(None);
        }
        Ok(Some(OccupiedDay { day, number, count }))
    }

    // The number of the seconds that the rule chooses on an allowed day, also before its start.
    fn number_on(&mut self, alloc: Global, sets: &mut SetTable, day: i64) -> Result<SetId, NoMemory>
        requires near { IsDayWithin 1000 day }
        requires allowed { AllowsDay self.old day }
        requires knows { KnowsUnitOffsets self.old sets.old }
        ensures same { IsSameRuling self.new self.old }
        ensures knows { KnowsUnitOffsets self.new sets.new }
        ensures kept { Extends sets.old sets.new }
        ensures within { IfOk result (λ n. n.index < length sets.new) }
        ensures number { IfOk result (IsSetAt sets.new (IsChosenSecond self.old day)) }
    {
        let offset = self.unit_offset(day) as usize;
        if let Some(number) = kept_at(&self.numbers, offset) {
            return Ok(number);
        }
        let chosen = self.chosen_on(alloc, day)?;
        let number = sets.place(chosen)?;
        self.keep(offset, number);
        Ok(number)
    }

    // Keeps a number at an index, if there is one.
    fn keep(&mut self, index: usize, number: SetId)
        ensures same { IsSameRuling self.new self.old }
        ensures kept { self.new.kept ≡ set self.old.kept index (Some number) }
    {
        if index < self.numbers.len() {
            self.numbers[index] = Some(number);
        }
    }

    // The seconds of an allowed day that the rule chooses, also before its start.
    fn chosen_on(&self, alloc: Global, day: i64) -> Result<TimeSet, NoMemory>
        requires near { IsDayWithin 1000 day }
        requires allowed { AllowsDay self.now day }
        ensures { IfOk result (λ t. IsSetOf nat_lt t (IsChosenSecond self.now day)) }
    {
        let fitting = fitting_seconds_by(alloc, &self.rule, self.start, &self.times, day)?;
        if self.rule.by_set_pos.is_empty() {
            return Ok(fitting);
        }
        let unit = seconds_of_unit(self.rule.freq);
        at_offsets(alloc, &fitting, unit, &self.offsets)
    }

    // The first second of a day that is not before the start; 86,400 if there is none.
    fn first_second(&self, day: i64) -> u32
        ensures { IsFirstSecond Moments self.now.start day result }
    {
        first_second(day, self.start_day, self.start_second)
    }
}

// The number that is kept at an index.
fn kept_at(numbers: &[Option<SetId>], index: usize) -> Option<SetId>
    ensures { (n : SetId) → result ≡ Some n → slice_get numbers.now index ≡ Some (Some n) }
{
    if index < numbers.len() {
        numbers[index]
    } else {
        None
    }
}
