// Days, each by the number of its time set, as a sequence that repeats.
ghost use Rattle.std.specs.Prelude.{◌≡◌, ◌<◌, ◌≤◌, ◌+◌, ◌++◌, ◌%◌, [], All, IfOk, drop, get_or, length, min, nat_abs, take, pos, ◌+ℤ◌, ◌-ℤ◌, ◌≤ℤ◌};
ghost use Rattle.rr_model.specs.Bounds.{earliest_near, earliest_taken, latest_near, latest_taken, longest_period};
ghost use Rattle.rr_model.specs.Sets.Sketch.{IsFirstDay};
ghost use Rattle.rr_word.specs.Bounded.{IsBounded, IsBounded-prop, IsFirstDay-prop};
ghost use Rattle.rr_word.specs.Stretches.{AreFree};
ghost use Rattle.rr_days.specs.Rows.{AreRising, AreRising-prop, AreWithin, HasEmptyFirst, first_number, sketch_of_runs};
ghost use Rattle.rr_days.specs.Sketched.{IsFirstFilled, IsWholeFold, sketch_of};

use crate::days::days_between;
use rr_model::{Kind, NoMemory};
use rr_runs::{Pages, RunDays};
use rr_shapes::{FoldedSetId, Shapes};
use rr_word::{DaySeq, Stretch};
use std::alloc::Global;

/// A set of occurrences that repeats from its settled day on: the occupied days before that day and those of one period, each
/// with the number of its time set.
///
/// Days are numbered from 1970-01-01, which is day 0. It takes at most four bytes for each of these days, or eight for one before
/// the settled day, and much less if they are more than 200,025 and repeat, beside its distinct time sets. `sequence` and its
/// kin make one.
#[derive(Drop)]
pub struct Folded {
    kind: Kind,
    occupied: Option<i64>,
    settled: i64,
    period: u64,
    // Each number is one less than that of the day's set.
    before: RunDays,
    cycle: RunDays,
    shapes: Shapes,
    ghost bounded: { IsBounded
        (sketch_of_runs kind shapes before cycle settled period) } by { IsBounded-prop
            (sketch_of_runs kind shapes before cycle settled period) },
    ghost first_is: { IsFirstDay
        (sketch_of_runs kind shapes before cycle settled period) occupied } by { IsFirstDay-prop
            (sketch_of_runs kind shapes before cycle settled period) occupied },
    ghost empty: { HasEmptyFirst shapes },
    ghost before_within: { AreWithin shapes before },
    ghost cycle_within: { AreWithin shapes cycle },
    ghost before_rises: { AreRising earliest_near before } by { AreRising-prop
        earliest_near before },
    ghost cycle_rises: { AreRising settled cycle } by { AreRising-prop settled cycle },
}

/// The sequence whose days have these numbers: number `k` is that of the time set, in `shapes`, of the day `first + k`.
///
/// There is a number for each day from `first` up to, but without, `settled + period`, and from `settled` on the days repeat
/// every `period` days; no day before `first` is occupied. The days lie between -1,000,000,000 and 1,000,000,000, and each set
/// is empty, as set 0 is, or one of seconds of a day, and `[0]` alone for dates. `first` need not be occupied, and neither
/// `settled` nor `period` need be the least ones.
pub fn sequence(
    alloc: Global,
    kind: Kind,
    first: i64,
    settled: i64,
    period: u64,
    numbers: Pages,
    shapes: Shapes,
) -> Result<Folded, NoMemory>
    requires whole { IsWholeFold kind shapes numbers first settled period }
    requires empty { get_or shapes 0 [] ≡ [] }
    ensures { IfOk result (λ f. ⟦<Folded as DaySeq>⟧.sketch f
        ≡ sketch_of kind shapes numbers first settled period) }
{
    let days = days_between(first, settled);
    let mut before = Pages::new(alloc);
    before.push_from(&numbers, 0, days)?;
    let folded = sequence_of_rest(kind, first, settled, period, before, numbers, days, shapes);
    Ok(folded)
}

/// The sequence whose days have these numbers, for a list of numbers in place of pages: number `k` is that of the time set, in
/// `shapes`, of the day `first + k`.
///
/// There is a number for each day from `first` up to, but without, `settled + period`; days lie in the bounds of `sequence`.
pub fn sequence_of_numbers(
    alloc: Global,
    kind: Kind,
    first: i64,
    settled: i64,
    period: u64,
    numbers: Vec<u32>,
    shapes: Shapes,
) -> Result<Folded, NoMemory>
    requires whole { IsWholeFold kind shapes numbers.items first settled period }
    requires empty { get_or shapes 0 [] ≡ [] }
    ensures { IfOk result (λ f. ⟦<Folded as DaySeq>⟧.sketch f
        ≡ sketch_of kind shapes numbers.items first settled period) }
{
    let days = days_between(first, settled);
    let mut before = Pages::new(alloc);
    before.push_all(first_of_row(numbers.as_slice(), days))?;
    let mut cycle = Pages::new(alloc);
    cycle.push_all(rest_of_row(numbers.as_slice(), days))?;
    let folded = sequence_in_parts(kind, first, settled, period, before, cycle, shapes);
    Ok(folded)
}

// The sequence whose days have these numbers, if those before the settled day and those of the period stand apart. It takes no memory.
fn sequence_in_parts(
    kind: Kind,
    first: i64,
    settled: i64,
    period: u64,
    before: Pages,
    cycle: Pages,
    shapes: Shapes,
) -> Folded
    requires whole { IsWholeFold kind shapes (before ++ cycle) first settled period }
    requires parts { length before ≡ nat_abs (settled -ℤ first) }
    requires empty { get_or shapes 0 [] ≡ [] }
    ensures { ⟦<Folded as DaySeq>⟧.sketch result
        ≡ sketch_of kind shapes (before ++ cycle) first settled period }
{
    sequence_of_rest(kind, first, settled, period, before, cycle, 0, shapes)
}

// The sequence whose days have these numbers, if those before the settled day stand apart, and those of the period
// follow the first `skipped` numbers of a row.
fn sequence_of_rest(
    kind: Kind,
    first: i64,
    settled: i64,
    period: u64,
    before: Pages,
    row: Pages,
    skipped: usize,
    shapes: Shapes,
) -> Folded
    requires whole { IsWholeFold kind shapes (before ++ drop skipped row) first settled period }
    requires parts { length before ≡ nat_abs (settled -ℤ first) }
    requires within { skipped ≤ length row }
    requires empty { get_or shapes 0 [] ≡ [] }
    ensures { ⟦<Folded as DaySeq>⟧.sketch result
        ≡ sketch_of kind shapes (before ++ drop skipped row) first settled period }
{
    let occupied = first_occupied(&before, &row, skipped, &shapes, first);
    let early = RunDays::of_row(first, before);
    let repeated = RunDays::of_rest(settled, row, skipped);
    Folded {
        kind,
        occupied,
        settled,
        period,
        before: early,
        cycle: repeated,
        shapes,
    }
}

// The first of the days whose set is not empty.
fn first_occupied(
    before: &Pages,
    row: &Pages,
    skipped: usize,
    shapes: &Shapes,
    first: i64,
) -> Option<i64>
    requires low { earliest_near ≤ℤ first }
    requires high { first ≤ℤ latest_near }
    requires skipped { skipped ≤ length row.now }
    requires within { All (λ n. n < length shapes.now) (before.now ++ drop skipped row.now) }
    ensures { IsFirstFilled shapes.now (before.now ++ drop skipped row.now) first result }
{
    for index in 0..before.len() + (row.len() - skipped) {
        if !shapes
            .times(number_at_index(before, row, skipped, index))
            .is_empty()
        {
            return Some(first + index as i64);
        }
    }
    None
}

// The number at an index of two lists, one after the other, of which the first `skipped` of the second are passed over.
fn number_at_index(before: &Pages, row: &Pages, skipped: usize, index: usize) -> FoldedSetId
    requires skipped { skipped ≤ length row.now }
    requires index { index + skipped < length before.now + length row.now }
    requires few { index + skipped ≤ 20_000_000_000 }
    ensures { result.number ≡ get_or (before.now ++ drop skipped row.now) index 0 }
{
    let days = before.len();
    if index < days {
        return FoldedSetId {
            number: before.number_at(index),
        };
    }
    FoldedSetId {
        number: row.number_at(index - days + skipped),
    }
}

impl DaySeq for Folded {
    ghost use Rattle.rr_word.specs.Bounded.{IsDaySequence-bounded};
    ghost use Rattle.rr_days.specs.Sequence.{sketch};

    ghost sketch = { λ f. sketch f };

    ghost sets = { λ f. f.shapes };

    ghost bounded = { λ f. IsDaySequence-bounded (sketch f) f.bounded };

    fn kind(&self) -> Kind {
        self.kind
    }

    fn first(&self) -> Option<i64> {
        self.occupied
    }

    fn settled(&self) -> i64 {
        self.settled
    }

    fn period(&self) -> u64 {
        self.period
    }

    fn at(&self, day: i64) -> &[u32] {
        match self.row_on(day) {
            [] => &[],
            [number, ..] => self.shapes.times(FoldedSetId { number: *number }),
        }
    }

    fn stretch(&self, day: i64) -> Stretch<'_> {
        stretch_of(self.row_on(day))
    }

    fn free_days(&self, day: i64) -> u64 {
        self.free_ahead(day)
    }

    fn times(&self, number: u32) -> &[u32] {
        self.shapes.times(FoldedSetId { number })
    }
}

impl Folded {
    ghost use Rattle.rr_days.specs.Rows.{IsRowOn};
    ghost use Rattle.rr_days.specs.Sequence.{sketch};

    // The numbers of the sets of a day and days after it, as far as they are kept in a row.
    fn row_on(&self, day: i64) -> &[u32]
        requires low { earliest_taken ≤ℤ day }
        requires high { day ≤ℤ latest_taken }
        ensures { IsRowOn self.now.shapes (sketch self.now) day result.now }
    {
        if day < self.settled {
            return first_of_row(self.before.row_from(day), days_between(day, self.settled));
        }
        let period = self.period as usize;
        let index = index_in_cycle(days_between(self.settled, day), period);
        first_of_row(
            self.cycle.row_from(day_after(self.settled, index)),
            period - index,
        )
    }

    // For how many days in a row from a day on it is known that none is occupied; 0 if the day is occupied.
    fn free_ahead(&self, day: i64) -> u64
        requires low { earliest_taken ≤ℤ day }
        requires high { day ≤ℤ latest_taken }
        ensures { AreFree (sketch self.now) day result }
    {
        if self.settled > day {
            let before = self.before.free_days(day);
            return before.min(days_between(day, self.settled) as u64);
        }
        let period = self.period as usize;
        let past = days_between(self.settled, day);
        let index = index_in_cycle(past, period);
        let cycle = self.cycle.free_days(day_after(self.settled, index));
        cycle.min((period - index) as u64)
    }
}

// How far into a cycle a day lies that comes `past` days after the settled day.
fn index_in_cycle(past: usize, period: usize) -> usize
    requires { 1 ≤ period }
    ensures { result ≡ past % period }
{
    if past < period { past } else { past % period }
}

// The day that lies `days` days after another.
fn day_after(day: i64, days: usize) -> i64
    requires low { earliest_near ≤ℤ day }
    requires high { day ≤ℤ latest_near }
    requires few { days ≤ longest_period }
    ensures { result ≡ day +ℤ pos days }
{
    day + days as i64
}

// The first numbers of a row, at most `most`.
fn first_of_row(row: &[u32], most: usize) -> &[u32]
    ensures { result.now ≡ take (min (length row.now) most) row.now }
{
    &row[..row.len().min(most)]
}

// The numbers of a row after the first ones.
fn rest_of_row(row: &[u32], from: usize) -> &[u32]
    requires { from ≤ length row.now }
    ensures { result.now ≡ drop from row.now }
{
    &row[from..]
}

// The first number of a row, and those after it.
fn stretch_of(row: &[u32]) -> Stretch<'_>
    ensures first { result.first ≡ first_number row.now }
    ensures rest { result.rest.now ≡ drop 1 row.now }
{
    match row {
        [] => Stretch {
            first: None,
            rest: &[],
        },
        [number, rest @ ..] => Stretch {
            first: Some(*number),
            rest,
        },
    }
}
