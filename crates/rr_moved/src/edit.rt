// The series of a key with its instances as dates, whatever the language (RFC 5545, sections 3.8.4.4, 3.8.5.1 and 3.8.5.2).
ghost use Rattle.std.specs.Prelude.{◌≡◌, IfOk, OnOk};
ghost use Rattle.std.specs.List.{list_any};
ghost use Rattle.std.specs.Ordering.{int_eq};
ghost use Rattle.rr_seam.specs.Steps.{AnswersKey};
ghost use Rattle.rr_moved.specs.Moved.{edited_moved, edited_series, edited_starts, minus_without_starts, no_shifts, series_of_starts, values_outside, with_moment, with_shifts, with_start_at, with_values, within_dates};

use crate::date_set::DateSet;
use rr_model::{Dates, Kind, MAX_DATES, NoMemory, Refusal, Rules, Series};
use rr_seam::{KeyFault, KeyRefusal};
use std::alloc::Global;
use std::marker::Model;

/// The moments that instances take out, and the moments at which they start, while instances are read in any order.
#[derive(Drop)]
pub struct ShiftSets {
    moments: DateSet,
    starts: DateSet,
}

impl Model for ShiftSets {
    ghost use Rattle.rr_moved.specs.Moved.{Shifts};

    ghost Value = { Shifts };

    ghost view = { λ s. record { moments = s.moments; starts = s.starts } };
}

impl ShiftSets {
    /// What instances take out and put in before one is read: nothing; it takes no memory.
    pub fn new(alloc: Global) -> ShiftSets
        ensures { result ≡ no_shifts }
    {
        ShiftSets {
            moments: DateSet::new(alloc),
            starts: DateSet::new(alloc),
        }
    }

    /// Takes out the moment of an instance, in days or seconds since 1970-01-01. `TwoInstances` comes, with this place,
    /// if an instance took it out before.
    pub fn take_out(self, place: u64, at: i64) -> Result<ShiftSets, KeyFault>
        ensures { AnswersKey (with_moment place self at) result }
    {
        let mut shifts = self;
        if shifts.moments.put(at)? {
            Ok(shifts)
        } else {
            Err(KeyFault::Refused(KeyRefusal::TwoInstances(place)))
        }
    }

    /// Puts in the start of an instance, in days or seconds since 1970-01-01.
    pub fn put_in(self, at: i64) -> Result<ShiftSets, NoMemory>
        ensures { IfOk result (λ shifts. shifts ≡ with_start_at self at) }
    {
        let mut shifts = self;
        shifts.starts.put(at)?;
        Ok(shifts)
    }
}

// The moments that instances take out, and the moments at which they start, rising.
#[derive(Drop)]
struct Shifted {
    moments: Dates,
    starts: Dates,
}

impl Model for Shifted {
    ghost use Rattle.rr_moved.specs.Moved.{Shifts};

    ghost Value = { Shifts };

    ghost view = { λ s. record { moments = s.moments; starts = s.starts } };
}

// The moments that are taken out and those of starts, each as a rising list.
fn rising_shifts(alloc: Global, shifts: &ShiftSets) -> Result<Shifted, NoMemory>
    ensures { IfOk result (λ shifted. shifted ≡ shifts.now) }
{
    Ok(Shifted {
        moments: shifts.moments.dates(alloc)?,
        starts: shifts.starts.dates(alloc)?,
    })
}

// Whether the date is one of a rising list.
fn has_date(dates: &Dates, at: i64) -> bool
    ensures { result ≡ list_any (λ t. int_eq t at) dates.now }
{
    dates.as_slice().binary_search(&at).is_ok()
}

// Puts the dates that are not among the starts.
fn put_outside(dates: &mut DateSet, starts: &Dates, values: &[i64]) -> Result<(), NoMemory>
    ensures { OnOk result (dates.new
        ≡ with_values dates.old (values_outside starts.now values.now)) }
{
    for at in values {
        if !has_date(starts, *at) {
            dates.put(*at)?;
        }
    }
    Ok(())
}

// Dates with these, in an order of their own.
fn with_dates(alloc: Global, dates: &Dates, values: &[i64]) -> Result<Dates, NoMemory>
    ensures { IfOk result (λ made. made ≡ with_values dates.now values.now) }
{
    let mut set = DateSet::new(alloc);
    set.put_all(dates.as_slice())?;
    set.put_all(values)?;
    Ok(set.dates(alloc)?)
}

// The dates that are taken out, and the moments, without those at which an instance starts.
fn without_starts(alloc: Global, minus: &Dates, shifted: &Shifted) -> Result<Dates, NoMemory>
    ensures { IfOk result (λ made. made ≡ minus_without_starts minus.now shifted.now) }
{
    let mut set = DateSet::new(alloc);
    put_outside(&mut set, &shifted.starts, minus.as_slice())?;
    put_outside(&mut set, &shifted.starts, shifted.moments.as_slice())?;
    set.dates(alloc)
}

// The starts alone, as a list of dates.
fn series_of_starts(alloc: Global, kind: Kind, starts: &Dates) -> Result<Series, NoMemory>
    ensures { IfOk result (λ series. series ≡ series_of_starts kind starts.now) }
{
    match starts.as_slice() {
        [] => Ok(Series {
            kind: Kind::Days,
            start: 0,
            start_counts: false,
            rules: Rules::new(alloc),
            excluded: Rules::new(alloc),
            plus: Dates::new(alloc),
            minus: Dates::new(alloc),
        }),
        [first, more @ ..] => {
            let plus = with_dates(alloc, &Dates::new(alloc), more)?;
            Ok(Series {
                kind,
                start: *first,
                start_counts: true,
                rules: Rules::new(alloc),
                excluded: Rules::new(alloc),
                plus,
                minus: Dates::new(alloc),
            })
        }
    }
}

// The series with the starts as dates that are added, and the moments taken out, unless something starts there.
fn with_shifts(alloc: Global, series: Series, shifted: &Shifted) -> Result<Series, NoMemory>
    ensures { IfOk result (λ made. made ≡ with_shifts series shifted.now) }
{
    let mut series = series;
    series.plus = with_dates(alloc, &series.plus, shifted.starts.as_slice())?;
    series.minus = without_starts(alloc, &series.minus, shifted)?;
    Ok(series)
}

// A series with at most `MAX_DATES` dates.
fn within_dates(place: u64, series: Series) -> Result<Series, KeyRefusal>
    ensures { result ≡ within_dates place series }
{
    if series.plus.len() + series.minus.len() > MAX_DATES {
        return Err(KeyRefusal::Event {
            refusal: Refusal::TooManyParts,
            place,
        });
    }
    Ok(series)
}

// A series that stands here, with its instances as dates.
fn edited_series(
    alloc: Global,
    place: u64,
    series: Series,
    shifted: &Shifted,
) -> Result<Series, KeyFault>
    ensures { AnswersKey (edited_series place series shifted.now) result }
{
    if series.excluded.is_empty() || shifted.starts.is_empty() {
        return Ok(within_dates(place, with_shifts(alloc, series, shifted)?)?);
    }
    Err(KeyFault::Refused(KeyRefusal::ExcludedRule(place)))
}

// The series of the starts of instances alone, if it has no more dates than a series may have.
fn starts_alone(
    alloc: Global,
    place: u64,
    kind: Kind,
    shifted: &Shifted,
) -> Result<Series, KeyFault>
    ensures { AnswersKey (edited_starts place kind shifted.now) result }
{
    let series = series_of_starts(alloc, kind, &shifted.starts)?;
    Ok(within_dates(place, series)?)
}

/// The starts of instances whose series is not there, in the place of the first of them. `TooManyParts` comes for more than
/// `MAX_DATES` dates.
pub fn starts_of(
    alloc: Global,
    place: u64,
    kind: Kind,
    shifts: &ShiftSets,
) -> Result<Series, KeyFault>
    ensures { AnswersKey (edited_starts place kind shifts.now) result }
{
    let shifted = rising_shifts(alloc, shifts)?;
    starts_alone(alloc, place, kind, &shifted)
}

/// A series, which may be cancelled, with its instances as dates. A series that is cancelled has the starts of
/// its instances alone. `ExcludedRule` comes if an EXRULE stands beside a start, then `TooManyParts` for more than `MAX_DATES`
/// dates.
pub fn moved(
    alloc: Global,
    is_cancelled: bool,
    place: u64,
    series: Series,
    shifts: &ShiftSets,
) -> Result<Series, KeyFault>
    ensures { AnswersKey (edited_moved is_cancelled place series shifts.now) result }
{
    let shifted = rising_shifts(alloc, shifts)?;
    if is_cancelled {
        return starts_alone(alloc, place, series.kind, &shifted);
    }
    edited_series(alloc, place, series, &shifted)
}
