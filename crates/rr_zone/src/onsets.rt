// The onsets of observances up to a day.
ghost use Rattle.std.specs.Prelude.{◌≡◌, ◌+ℤ◌, ◌-ℤ◌, ◌<◌, All, IfOk, List, OnOk, int_lt, pos, ℕ};
ghost use Rattle.rr_model.specs.Calendar.{IsDayWithin};
ghost use Rattle.rr_model.specs.Moment.{moment_at};
ghost use Rattle.rr_model.specs.Rising.Sets.{IsSetOf};
ghost use Rattle.rr_model.specs.Series.Tree.{dates_with_start, members_of_all};
ghost use Rattle.rr_model.specs.Series.Validity.{IsValidSeries};
ghost use Rattle.rr_model.specs.Sets.Tree.{many};
ghost use Rattle.rr_model.specs.declared.kind.Kind.TheVariants.{Moments};
ghost use Rattle.rr_iter.specs.Ends.{IsSoundRule};
ghost use Rattle.rr_lazy.specs.Next.{IsUnasked};
ghost use Rattle.rr_zone.specs.Observances.{IsSoundObservance};
ghost use Rattle.rr_zone.specs.Onsets.{earliest, first_onset};
ghost use Rattle.rr_zone.specs.Tables.{AreListed, AreOnsets, IsLastDay, IsListed, IsTableOf, with_moments};

use crate::clock::Table;
use crate::observance::Observance;
use rr_iter::EndedLazy;
use rr_lazy::{DatesLazy, Lazy, Many, Union};
use rr_model::{Dates, Kind, NoMemory, Rule, Series, moment_at};
use rr_shapes::SetTable;
use std::alloc::Global;

// A second of a day of local time, as a moment of UTC.
fn utc_moment(from: i32, day: i64, second: u32) -> i64
    requires near { IsDayWithin 0 day }
    requires of_day { second < 86_400 }
    ensures { result ≡ moment_at Moments day second -ℤ from }
{
    moment_at(Kind::Moments, day, second) - i64::from(from)
}

// Puts the seconds of a day of local time, as moments of UTC.
fn put_seconds(onsets: &mut Dates, from: i32, day: i64, seconds: &[u32]) -> Result<(), NoMemory>
    requires near { IsDayWithin 0 day }
    requires of_day { All (λ s. s < 86_400) seconds.now }
    ensures { OnOk result (onsets.new ≡ with_moments onsets.old from day seconds.now) }
{
    for second in seconds {
        onsets.put(utc_moment(from, day, *second))?;
    }
    Ok(())
}

// What an iterator gives up to the last day, as moments of UTC.
fn listed<A: Lazy + Drop>(
    alloc: Global,
    mut lazy: A,
    from: i32,
    last: i64,
) -> Result<Dates, NoMemory>
    requires last { IsLastDay last }
    requires unasked { IsUnasked (A.position lazy) }
    requires knows { (sets : List (List ℕ)) → A.knows lazy sets }
    ensures { IfOk result (λ onsets. IsSetOf int_lt onsets
        (IsListed (A.tree lazy) from (last +ℤ pos 1))) }
{
    let mut sets = SetTable::new(alloc);
    let mut onsets = Dates::new(alloc);
    'days: loop {
        match lazy.next(alloc, &mut sets, last)? {
            None => return Ok(onsets),
            Some(found) => {
                let seconds = &sets.times(found.number).as_slice()[..found.count];
                put_seconds(&mut onsets, from, found.day, seconds)?;
            }
        }
    }
}

// The members of rules from one start on.
fn members_of_rules(alloc: Global, start: i64, rules: &[Rule]) -> Result<Many<EndedLazy>, NoMemory>
    requires sound { All (IsSoundRule Moments start) rules.now }
    ensures tree { IfOk result (λ l. ⟦<Many<EndedLazy> as Lazy>⟧.tree l
        ≡ many (members_of_all Moments start rules.now)) }
    ensures unasked { IfOk result (λ l. IsUnasked (⟦<Many<EndedLazy> as Lazy>⟧.position l)) }
    ensures knows { IfOk result (λ l. (sets : List (List ℕ))
        → ⟦<Many<EndedLazy> as Lazy>⟧.knows l sets) }
{
    let mut lazy = Many::new(alloc);
    for rule in rules {
        let members = EndedLazy::new(alloc, rule, Kind::Moments, start)?;
        lazy.put(members)?;
    }
    Ok(lazy)
}

// The further dates of a series, and its start.
fn dates_of(alloc: Global, series: &Series) -> Result<Dates, NoMemory>
    ensures { IfOk result (λ dates. dates ≡ dates_with_start series.now) }
{
    let mut dates = series.plus.copy(alloc)?;
    if series.start_counts {
        dates.put(series.start)?;
    }
    Ok(dates)
}

// The onsets of an observance up to a day, as moments of UTC: its start, its further dates and the members of its rules.
fn onsets_of(alloc: Global, series: &Series, from: i32, last: i64) -> Result<Dates, NoMemory>
    requires kind { series.now.kind ≡ Moments }
    requires valid { IsValidSeries series.now }
    requires rules { All (IsSoundRule Moments series.now.start) series.now.rules }
    requires last { IsLastDay last }
    ensures { IfOk result (AreOnsets series.now from (last +ℤ pos 1)) }
{
    let dates = DatesLazy::new(Kind::Moments, dates_of(alloc, series)?);
    let rules = members_of_rules(alloc, series.start, series.rules.as_slice())?;
    listed(alloc, Union::new(dates, rules), from, last)
}

// The first of rising dates, or this one if it is earlier.
fn earliest(dates: &[i64], start: i64) -> i64
    ensures { result ≡ earliest dates.now start }
{
    match dates {
        [first, ..] if *first <= start => *first,
        _ => start,
    }
}

// The first of the start and the further dates of an observance, as a moment of UTC.
fn first_onset(observance: &Observance) -> i64
    requires { IsSoundObservance observance.now }
    ensures { result ≡ first_onset observance.now }
{
    let series = &observance.series;
    let first = earliest(series.plus.as_slice(), series.start);
    first - i64::from(observance.from)
}

// The onsets of an observance up to a day.
fn table_of(alloc: Global, observance: &Observance, last: i64) -> Result<Table, NoMemory>
    requires sound { IsSoundObservance observance.now }
    requires last { IsLastDay last }
    ensures { IfOk result (IsTableOf (last +ℤ pos 1) observance.now) }
{
    Ok(Table {
        onsets: onsets_of(alloc, &observance.series, observance.from, last)?,
        first: first_onset(observance),
        from: observance.from,
        to: observance.to,
    })
}

/// The onsets of a zone, observance by observance, up to a day in days since 1970-01-01.
pub fn tables_of(alloc: Global, zone: &[Observance], last: i64) -> Result<Vec<Table>, NoMemory>
    requires sound { All IsSoundObservance zone.now }
    requires last { IsLastDay last }
    ensures { IfOk result (λ tables. AreListed zone.now tables.items last) }
{
    let mut tables = Vec::new(alloc);
    for observance in zone {
        tables.push(table_of(alloc, observance, last)?)?;
    }
    Ok(tables)
}
