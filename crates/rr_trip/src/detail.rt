// What a page says of the events of a line beside it: what each calendar states, and where their local times differ.
ghost use Rattle.std.specs.Prelude.{IfOk, Some};
ghost use Rattle.rr_days.specs.Sequence.{sketch};
ghost use Rattle.rr_trip.specs.Details.{IsDetail, IsDifference, IsDifferenceBy, IsDifferenceFor, IsDifferenceOfJudged, IsSeriesIn};
ghost use Rattle.rr_trip.specs.Pairs.{IsPair, IsSound, days_b};
ghost use Rattle.rr_trip.specs.Report.{stated_in};

use crate::further::further_of;
use crate::months::{months_from, times_from};
use crate::pair::{Judged, KeyPair, judge_key};
use crate::report::ReportLine;
use rr_differ::Further;
use rr_model::{NoMemory, Series, Verdict, day_part};
use rr_seam::{EventFile, KeyFault};
use std::alloc::Global;

/// A month whose days are marked.
#[derive(Drop)]
pub struct Month {
    /// The first day of the month, in days since 1970-01-01.
    pub first: i64,
    /// The sign of each of its days: `=` if both have it at the same times, `x` if both have it at others, `A` or `B` if one alone has it,
    /// `.` if none has.
    pub signs: Vec<u8>,
}

/// Where the local times of events differ.
#[derive(Drop)]
pub struct Difference {
    /// How many occurrences exactly one of both has beside the first.
    pub further: Further,
    /// Those of the month of the first difference and the two after it that have one.
    pub months: Vec<Month>,
    /// The usual times and the days with others, a line each, as `show` prints them below the months.
    pub times: Vec<u8>,
}

/// What a page says of the events of a line beside it.
#[derive(Drop)]
pub struct Detail {
    /// What A states, if it has such events and they state a series.
    pub series_a: Option<Series>,
    /// What B states, if it has such events and they state a series.
    pub series_b: Option<Series>,
    /// Where their local times differ, if both are compared and they do.
    pub difference: Option<Difference>,
}

// The series that the events of these indexes state together, if they state one.
fn series_stated<F: EventFile>(
    alloc: Global,
    file: &F,
    indexes: &[usize],
) -> Result<Option<Series>, NoMemory>
    ensures { IfOk result (IsSeriesIn (Some (F.stated file.now indexes.now))) }
{
    match file.key_series(alloc, indexes) {
        Ok(key) => Ok(Some(key.series)),
        Err(KeyFault::Refused(_)) => Ok(None),
        Err(KeyFault::NoMemory) => Err(NoMemory),
    }
}

// The series that the events of these indexes state, if they are some and state one.
fn series_of<F: EventFile>(
    alloc: Global,
    file: &F,
    indexes: &[usize],
) -> Result<Option<Series>, NoMemory>
    ensures { IfOk result (IsSeriesIn (stated_in (F.stated file.now) indexes.now)) }
{
    match indexes {
        [] => Ok(None),
        [_, ..] => series_stated(alloc, file, indexes),
    }
}

// How many differences come after the first, the months from a day on, and the times in them.
fn difference_from(alloc: Global, pair: &KeyPair, day: i64) -> Result<Difference, NoMemory>
    requires { IsPair pair.now }
    ensures { IfOk result (IsDifference (sketch pair.now.a.days) (sketch (days_b pair.now)) day) }
{
    let b = pair.days_b();
    let further = further_of(alloc, pair)?;
    let months = months_from(alloc, &pair.a.days, b, day)?;
    let times = times_from(alloc, &pair.a.days, b, day)?;
    Ok(Difference {
        further,
        months,
        times,
    })
}

// Where the local times of a pair differ, if they do.
fn difference_of_pair(alloc: Global, pair: &KeyPair) -> Result<Option<Difference>, NoMemory>
    requires { IsPair pair.now }
    ensures { IfOk result (IsDifferenceBy pair.now.local (sketch pair.now.a.days)
        (sketch (days_b pair.now))) }
{
    match pair.local {
        Verdict::Yes => Ok(None),
        Verdict::No { kind, at, .. } => {
            let difference = difference_from(alloc, pair, day_part(kind, at))?;
            Ok(Some(difference))
        }
    }
}

// Where the local times of the events of a key differ, if they are compared and do.
fn difference_of(alloc: Global, judged: &Judged) -> Result<Option<Difference>, NoMemory>
    requires { IsSound judged.now }
    ensures { IfOk result (IsDifferenceOfJudged judged.now) }
{
    match judged {
        Judged::Told(_) => Ok(None),
        Judged::Compared(pair) => difference_of_pair(alloc, pair),
    }
}

// Where the local times of the events of these indexes differ, if both calendars have some, they are compared and they do.
fn difference_between<A: EventFile, B: EventFile>(
    alloc: Global,
    a: &A,
    in_a: &[usize],
    b: &B,
    in_b: &[usize],
) -> Result<Option<Difference>, NoMemory>
    ensures { IfOk result (IsDifferenceFor (stated_in (A.stated a.now) in_a.now)
        (stated_in (B.stated b.now) in_b.now)) }
{
    let judged = judge_key(alloc, a, in_a, b, in_b)?;
    difference_of(alloc, &judged)
}

/// What a page says of the events of a line of a report on these two files beside the line.
pub fn detail_of<A: EventFile, B: EventFile>(
    alloc: Global,
    a: &A,
    b: &B,
    line: &ReportLine,
) -> Result<Detail, NoMemory>
    ensures { IfOk result (IsDetail (A.stated a.now) (B.stated b.now) line.now) }
{
    let in_a = line.in_a.as_slice();
    let in_b = line.in_b.as_slice();
    let difference = difference_between(alloc, a, in_a, b, in_b)?;
    let series_a = series_of(alloc, a, in_a)?;
    let series_b = series_of(alloc, b, in_b)?;
    Ok(Detail {
        series_a,
        series_b,
        difference,
    })
}
