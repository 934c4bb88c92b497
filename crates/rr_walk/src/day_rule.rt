// A rule of whole days, walked over its candidate days.
ghost use Rattle.std.specs.Prelude.{◌≡◌, ◌<◌, ◌↔◌, IfOk, IsTrue, length, true, pos, ◌≤ℤ◌, ◌+ℤ◌, ℕ};
ghost use Rattle.rr_model.specs.Calendar.{IsDayWithin};
ghost use Rattle.rr_model.specs.Moment.{day_part};
ghost use Rattle.rr_model.specs.Moment.Units.{is_whole_days, unit_number, unit_start};
ghost use Rattle.rr_model.specs.Moment.Years.{IsInYears};
ghost use Rattle.rr_model.specs.Rule.Validity.{IsValidRule, is_absent};
ghost use Rattle.rr_model.specs.declared.kind.Kind.TheVariants.{Days};
ghost use Rattle.rr_shapes.specs.Tables.{Extends};
ghost use Rattle.rr_lazy.specs.Next.{IsNextIn};
ghost use Rattle.rr_parts.specs.Units.{start_of_unit};
ghost use Rattle.rr_walk.specs.Ruling.{IsFirstCandidate, IsFirstCandidateIn, IsFittingUnit, IsPassed, IsSameRuling, IsSetAt, IsTimeOf, IsWholeUnit, KnowsTimes, is_candidate_day};
ghost use Rattle.rr_walk.specs.Steps.{HasBegun, tree_of_ruling};
ghost use Rattle.rr_walk.specs.Walk.{IsDayWith, IsFirstSecond, IsFirstSecondAfter, IsFirstUpToIn, IsOnDayIn, IsDayOfTimes, IsWalked};

use crate::rule_walk::RuleWalk;
use rr_cal::{Day, days_in_unit, first_day_of_unit, unit_of_day, week_index};
use rr_expand::{AllowedDays, first_fit, times};
use rr_lazy::OccupiedDay;
use rr_model::{Freq, Kind, NoMemory, Rule, SECONDS_OF_DAY, day_part, second_part};
use rr_shapes::{SetId, SetTable};
use rr_times::TimeSet;
use std::alloc::Global;
use std::marker::Model;

// The first second past a day's last.
pub(crate) const END_OF_DAY: u32 = SECONDS_OF_DAY as u32;

// A day and the number of its unit.
#[derive(Clone, Copy)]
struct DayInUnit {
    day: i64,
    unit: i64,
}

// A unit by its number, and its days, from its first one on and before the next unit's.
#[derive(Clone, Copy)]
pub(crate) struct WholeUnit {
    pub(crate) number: i64,
    pub(crate) first: i64,
    pub(crate) next: i64,
}

/// The walk over the days of a rule of whole days beside its start.
///
/// It keeps the seconds of each candidate day and their number in the table of sets, the days that the date parts allow, the
/// start's unit, the last day that was asked for, and the unit entered last, with BYSETPOS also its candidate days, if they are
/// held.
#[derive(Drop)]
pub struct DayRule {
    pub(crate) rule: Rule,
    kind: Kind,
    start: i64,
    pub(crate) start_day: i64,
    start_second: u32,
    pub(crate) times: TimeSet,
    number: Option<SetId>,
    pub(crate) allowed: AllowedDays,
    own_unit: i64,
    last: DayInUnit,
    pub(crate) unit: WholeUnit,
    pub(crate) is_held: bool,
    pub(crate) days: Vec<i64>,
}

impl Model for DayRule {
    ghost use Rattle.std.specs.Prelude.{[], ◌∷◌};
    ghost use Rattle.rr_walk.specs.Ruling.{IsUnrolled, Ruling, ruling_of};

    ghost Value = { Ruling };

    ghost view = { λ s. ruling_of s.rule s.kind s.start (s.number ∷ []) };

    ghost invariant = { λ s. IsUnrolled (ruling_of s.rule s.kind s.start (s.number ∷ []))
        s.start_day s.start_second s.times s.allowed s.own_unit s.last s.unit
        s.is_held s.days.items };
}

impl RuleWalk for DayRule {
    ghost use Rattle.std.specs.Prelude.{true};
    ghost use Rattle.rr_walk.specs.Ruling.{KnowsTimes, keeps_more};

    ghost ruling = { λ s. s };

    ghost keeps = { λ s sets. KnowsTimes s sets };

    ghost more = { λ s old new more k. keeps_more s 0 _ old new more k };

    ghost of_whole_days = { true };

    fn new(alloc: Global, rule: &Rule, kind: Kind, start: i64) -> Result<DayRule, NoMemory> {
        let times = times(alloc, rule, kind, start)?;
        let start_day = day_part(kind, start);
        let allowed = AllowedDays::new(alloc, rule, start_day)?;
        let own_unit = unit_of(rule.freq, rule.week_start, start_day);
        Ok(DayRule {
            rule: rule.copy(alloc)?,
            kind,
            start,
            start_day,
            start_second: second_part(kind, start),
            times,
            number: None,
            allowed,
            own_unit,
            last: DayInUnit {
                day: start_day,
                unit: own_unit,
            },
            unit: whole_unit(rule.freq, rule.week_start, own_unit),
            is_held: false,
            days: Vec::new(alloc),
        })
    }

    fn start_day(&self) -> i64 {
        self.start_day
    }

    fn first_up_to(
        &mut self,
        alloc: Global,
        sets: &mut SetTable,
        from: i64,
        to: i64,
    ) -> Result<Option<OccupiedDay>, NoMemory> {
        if self.rule.by_set_pos.is_empty() {
            self.first_plain(alloc, sets, from, to)
        } else {
            self.first_at_positions(alloc, sets, from, to)
        }
    }
}

impl DayRule {
    // The first occupied day of a rule without BYSETPOS, from a day on and not after another.
    fn first_plain(
        &mut self,
        alloc: Global,
        sets: &mut SetTable,
        from: i64,
        to: i64,
    ) -> Result<Option<OccupiedDay>, NoMemory>
        requires freq { is_whole_days self.old.rule.freq ≡ true }
        requires plain { is_absent self.old.rule.by_set_pos ≡ true }
        requires from { IsDayWithin 0 from }
        requires to { IsDayWithin 0 to }
        requires next { IsDayWithin 0 (to +ℤ pos 1) }
        requires knows { KnowsTimes self.old sets.old }
        ensures same { IsSameRuling self.new self.old }
        ensures knows { KnowsTimes self.new sets.new }
        ensures kept { Extends sets.old sets.new }
        ensures found { IfOk result (IsFirstUpToIn sets.new (tree_of_ruling self.old) from to) }
    {
        let mut day = from;
        while let Some(candidate) = self.candidate_from(day, to) {
            match self.plain_day(alloc, sets, candidate)? {
                None => {}
                Some(found) => return Ok(Some(found)),
            }
            day = candidate + 1;
        }
        Ok(None)
    }

    // The first candidate day from a day on and not after another.
    fn candidate_from(&mut self, from: i64, to: i64) -> Option<i64>
        requires from { IsDayWithin 0 from }
        requires to { IsDayWithin 0 to }
        requires next { IsDayWithin 0 (to +ℤ pos 1) }
        ensures same { self.new ≡ self.old }
        ensures first { IsFirstCandidate self.old from to result }
    {
        if from > to {
            return None;
        }
        if self.rule.interval == 1 {
            return self.allowed.first_from(from, to + 1);
        }
        self.candidate_in_units(from, to)
    }

    // The first candidate day from `from` on and not after `to`, found unit by unit: for a rule whose interval leaves
    // units out.
    fn candidate_in_units(&mut self, from: i64, to: i64) -> Option<i64>
        requires from { IsDayWithin 0 from }
        requires to { IsDayWithin 0 to }
        requires next { IsDayWithin 0 (to +ℤ pos 1) }
        ensures same { self.new ≡ self.old }
        ensures first { IsFirstCandidate self.old from to result }
    {
        let last = self.last_unit(to);
        let step = i64::from(self.rule.interval);
        let mut unit = self.first_unit(from);
        while unit <= last {
            if let Some(found) = self.candidate_in(unit, from, to) {
                return Some(found);
            }
            unit += step;
        }
        None
    }

    // The first candidate day of a unit that fits the interval, from a day on and not after another.
    fn candidate_in(&mut self, unit: i64, from: i64, to: i64) -> Option<i64>
        requires from { IsDayWithin 0 from }
        requires to { IsDayWithin 0 (to +ℤ pos 1) }
        requires first { IsDayWithin 1000 (start_of_unit self.old.rule Days unit) }
        requires begun { start_of_unit self.old.rule Days unit ≤ℤ to }
        requires over { from ≤ℤ start_of_unit self.old.rule Days (unit +ℤ pos 1) }
        requires fits { IsFittingUnit self.old unit }
        ensures same { self.new ≡ self.old }
        ensures first { IsFirstCandidateIn self.old unit from to result }
    {
        if self.unit.number != unit {
            self.unit = whole_unit(self.rule.freq, self.rule.week_start, unit);
            self.is_held = false;
        }
        self.allowed
            .first_from(self.unit.first.max(from), self.unit.next.min(to + 1))
    }

    // A candidate day of a rule without BYSETPOS, if it is occupied: all days after the start's have the same seconds.
    pub(crate) fn plain_day(
        &mut self,
        alloc: Global,
        sets: &mut SetTable,
        day: i64,
    ) -> Result<Option<OccupiedDay>, NoMemory>
        requires plain { is_absent self.old.rule.by_set_pos ≡ true }
        requires candidate { IsTrue (is_candidate_day self.old day) }
        requires knows { KnowsTimes self.old sets.old }
        ensures same { IsSameRuling self.new self.old }
        ensures knows { KnowsTimes self.new sets.new }
        ensures kept { Extends sets.old sets.new }
        ensures found { IfOk result (IsOnDayIn sets.new (tree_of_ruling self.old) day) }
    {
        let first = self.first_second(day);
        if first > 0 {
            let times = TimeSet::cut(alloc, &self.times, first, END_OF_DAY)?;
            return day_of_times(sets, day, times);
        }
        let count = self.times.as_slice().len();
        if count == 0 {
            return Ok(None);
        }
        let number = self.number_of_times(alloc, sets)?;
        Ok(Some(OccupiedDay { day, number, count }))
    }

    // A day with the seconds of each candidate day.
    pub(crate) fn with_times(
        &mut self,
        alloc: Global,
        sets: &mut SetTable,
        day: i64,
    ) -> Result<Option<OccupiedDay>, NoMemory>
        requires knows { KnowsTimes self.old sets.old }
        ensures same { IsSameRuling self.new self.old }
        ensures knows { KnowsTimes self.new sets.new }
        ensures kept { Extends sets.old sets.new }
        ensures found { IfOk result (IsDayWith sets.new (IsTimeOf self.old) day) }
    {
        let count = self.times.as_slice().len();
        let number = self.number_of_times(alloc, sets)?;
        Ok(Some(OccupiedDay { day, number, count }))
    }

    // The number of the seconds of each candidate day.
    #[inline(always)]
    fn number_of_times(&mut self, alloc: Global, sets: &mut SetTable) -> Result<SetId, NoMemory>
        requires knows { KnowsTimes self.old sets.old }
        ensures same { IsSameRuling self.new self.old }
        ensures knows { KnowsTimes self.new sets.new }
        ensures kept { Extends sets.old sets.new }
        ensures within { IfOk result (λ n. n.index < length sets.new) }
        ensures number { IfOk result (IsSetAt sets.new (IsTimeOf self.old)) }
    {
        if let Some(number) = self.number {
            return Ok(number);
        }
        let number = sets.place(TimeSet::of(alloc, self.times.as_slice())?)?;
        self.number = Some(number);
        Ok(number)
    }

    // The first second of a day that is not before the start; 86,400 if there is none.
    pub(crate) fn first_second(&self, day: i64) -> u32
        ensures { IsFirstSecond self.now.kind self.now.start day result }
    {
        first_second(day, self.start_day, self.start_second)
    }

    // The first unit that fits the interval from the start's, from the unit of a day on.
    pub(crate) fn first_unit(&self, from: i64) -> i64
        requires { IsDayWithin 0 from }
        ensures near { result ≤ℤ pos 8_000_000_000_000 }
        ensures walked { IsWalked self.now.rule (tree_of_ruling self.now)
            (day_part self.now.kind self.now.start) from result }
        ensures passed { IsPassed self.now from result }
    {
        let unit = self.unit_at(from);
        unit + first_fit(unit, self.own_unit, self.rule.interval) as i64
    }

    // The unit of a day. No date is computed if the unit entered last has the day, or ends with the day before.
    fn unit_at(&self, day: i64) -> i64
        requires near { IsDayWithin 0 day }
        ensures { result ≡ unit_number self.now.rule.freq self.now.rule.week_start Days day }
    {
        if self.unit.first <= day && day < self.unit.next {
            self.unit.number
        } else if day == self.unit.next {
            self.unit.number + 1
        } else {
            unit_of(self.rule.freq, self.rule.week_start, day)
        }
    }

    // Whether a unit begins on a day or before. No date is computed for the unit entered last and for the one after it.
    pub(crate) fn begins_by(&mut self, unit: i64, day: i64) -> bool
        requires near { IsDayWithin 0 day }
        ensures same { self.new ≡ self.old }
        ensures begun { IsTrue result
            ↔ unit ≤ℤ unit_number self.old.rule.freq self.old.rule.week_start Days day }
    {
        if unit == self.unit.number {
            self.unit.first <= day
        } else if unit == self.unit.number + 1 {
            self.unit.next <= day
        } else {
            unit <= self.last_unit(day)
        }
    }

    // The unit of the day up to which is looked, which is that of the call before for most calls.
    pub(crate) fn last_unit(&mut self, to: i64) -> i64
        requires near { IsDayWithin 0 to }
        ensures same { self.new ≡ self.old }
        ensures unit { result ≡ unit_number self.old.rule.freq self.old.rule.week_start Days to }
    {
        if self.last.day != to {
            self.last = DayInUnit {
                day: to,
                unit: unit_of(self.rule.freq, self.rule.week_start, to),
            };
        }
        self.last.unit
    }
}

// The unit of a number. No date is computed for the one after a unit that is known.
pub(crate) fn unit_beside(freq: Freq, week_start: u8, known: WholeUnit, number: i64) -> WholeUnit
    requires freq { IsTrue (is_whole_days freq) }
    requires known { IsWholeUnit freq week_start known }
    requires near { IsDayWithin 1000 (unit_start freq week_start Days number) }
    ensures number { result.number ≡ number }
    ensures unit { IsWholeUnit freq week_start result }
{
    if number == known.number + 1 {
        unit_from(freq, number, known.next)
    } else {
        whole_unit(freq, week_start, number)
    }
}

// The unit of a number.
pub(crate) fn whole_unit(freq: Freq, week_start: u8, number: i64) -> WholeUnit
    requires freq { IsTrue (is_whole_days freq) }
    requires near { IsDayWithin 1000 (unit_start freq week_start Days number) }
    ensures number { result.number ≡ number }
    ensures unit { IsWholeUnit freq week_start result }
{
    let first = first_day_of_unit(freq, week_start, number);
    unit_from(freq, number, first)
}

// The unit of a number and a first day.
fn unit_from(freq: Freq, number: i64, first: i64) -> WholeUnit
    requires freq { IsTrue (is_whole_days freq) }
    requires near { IsDayWithin 1000 first }
    ensures number { result.number ≡ number }
    ensures unit { (w : ℕ) → first ≡ unit_start freq w Days number → IsWholeUnit freq w result }
{
    WholeUnit {
        number,
        first,
        next: first + i64::from(days_in_unit(freq, number)),
    }
}

// A day with its seconds, if it has some.
pub(crate) fn day_of_times(
    sets: &mut SetTable,
    day: i64,
    times: TimeSet,
) -> Result<Option<OccupiedDay>, NoMemory>
    ensures kept { Extends sets.old sets.new }
    ensures day { IfOk result (IsDayOfTimes sets.new day times) }
{
    let count = times.as_slice().len();
    if count == 0 {
        return Ok(None);
    }
    let number = sets.place(times)?;
    Ok(Some(OccupiedDay { day, number, count }))
}

// The first second of a day that is not before a start, which lies on the day `start_day` at `start_second`; 86,400 if
// there is none.
pub(crate) fn first_second(day: i64, start_day: i64, start_second: u32) -> u32
    ensures { IsFirstSecondAfter start_day start_second day result }
{
    if day > start_day {
        0
    } else if day == start_day {
        start_second
    } else {
        END_OF_DAY
    }
}

// The number of the unit in which a day lies.
fn unit_of(freq: Freq, week_start: u8, day: i64) -> i64
    requires freq { IsTrue (is_whole_days freq) }
    requires near { IsDayWithin 1000 day }
    ensures { result ≡ unit_number freq week_start Days day }
{
    match freq {
        Freq::Daily => day,
        Freq::Weekly => week_index(day, week_start),
        _ => unit_of_day(freq, week_start, &Day::new(day)),
    }
}
