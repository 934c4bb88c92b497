// What clocks of a zone show at moments of UTC.
ghost use Rattle.std.specs.Prelude.{◌≡◌, ◌≤ℤ◌, ◌<ℤ◌, ◌+ℤ◌, ◌-ℤ◌, ℤ, None, IfOk, IfSome, int_lt, pos};
ghost use Rattle.rr_model.specs.Calendar.{first_day_of_year};
ghost use Rattle.rr_model.specs.Moment.Years.{HasFourDigitYear, IsInYears};
ghost use Rattle.rr_model.specs.Rising.{Rises};
ghost use Rattle.rr_model.specs.declared.kind.Kind.TheVariants.{Moments};
ghost use Rattle.rr_zone.specs.Clocks.{local_before, local_from, local_time, offset_before, offset_from};
ghost use Rattle.rr_zone.specs.Moments.{is_over, moment_about, moment_at_offset, moment_by, offset_about, utc_moment};
ghost use Rattle.rr_zone.specs.Onsets.{earlier, first_of_zone, last_of_zone, later, with_last};
ghost use Rattle.rr_zone.specs.Tables.{IsCountUpTo, IsLastDay, IsNear, IsUpTo, first_of, last_day, last_listed, last_of};

use crate::onsets::tables_of;
use crate::zone::Zone;
use rr_model::{Dates, FIRST_DAY, Kind, NoMemory, day_part};
use rr_text::later_in_years;
use std::alloc::Global;
use std::marker::Model;

/// Local time at a moment of UTC, in seconds since 1970-01-01T00:00:00 (RFC 5545, sections 3.3.5 and 3.6.5).
#[derive(Clone, Copy)]
pub(crate) enum LocalTime {
    /// The local time; nothing about it is in doubt.
    Once(i64),
    /// The clock was set back at the last onset, and showed this local time before. The first local time that it does not show twice.
    Again(i64),
    /// The clock was set forward at the last onset, and local times that it passed over name moments from here on too. The local time.
    Skipping(i64),
}

/// A moment at which local time begins to be another one: the onset of an observance (RFC 5545, section 3.6.5).
#[derive(Clone, Copy)]
pub struct Onset {
    /// The moment of UTC, in seconds since 1970-01-01T00:00:00.
    pub at: i64,
    /// Local time less UTC before it, in seconds.
    pub from: i32,
    /// Local time less UTC from it on, in seconds.
    pub to: i32,
}

/// The onsets of an observance up to a day.
#[derive(Drop)]
pub struct Table {
    /// The onsets as moments of UTC, rising.
    pub onsets: Dates,
    /// The first of its start and its further dates, as a moment of UTC.
    pub first: i64,
    /// Local time less UTC before an onset, in seconds.
    pub from: i32,
    /// Local time less UTC from an onset on, in seconds.
    pub to: i32,
}

/// A zone with its onsets, listed as far as they were asked for.
#[derive(Drop)]
pub(crate) struct Clock {
    zone: Zone,
    tables: Vec<Table>,
    last: i64,
}

impl Model for Clock {
    ghost use Rattle.std.specs.Prelude.{List};
    ghost use Rattle.rr_zone.specs.declared.observance.Observance.{Observance};

    ghost Value = { List Observance };

    ghost use Rattle.rr_zone.specs.Tables.{AreListed};

    ghost view = { λ c. c.zone };

    ghost invariant = { λ c. AreListed c.zone c.tables.items c.last };
}

// 10000-01-01, the last day that is ever listed: no moment of the years 1 to 9999 is later in local time.
const LAST_DAY: i64 = 2_932_897;

// Ten years with three leap days among them, in days.
const SOME_YEARS: i64 = 3_653;

// A day, in seconds.
const DAY_SECONDS: i32 = 86_400;

// How many of some onsets are not after a moment.
fn count_up_to(onsets: &[i64], at: i64) -> usize
    requires { Rises int_lt onsets.now }
    ensures { IsCountUpTo onsets.now at result }
{
    onsets.partition_point(|onset| *onset <= at)
}

// The last of these onsets that is not after a moment.
fn last_listed(onsets: &Dates, at: i64) -> Option<i64>
    ensures { result ≡ last_listed onsets.now at }
{
    let onsets = onsets.as_slice();
    let count = count_up_to(onsets, at);
    if count == 0 {
        None
    } else {
        Some(onsets[count - 1])
    }
}

// The later of two onsets, the first one if they are at once.
fn later(a: Option<Onset>, b: Onset) -> Onset
    ensures { result ≡ later a b }
{
    match a {
        Some(a) => { if b.at <= a.at { a } else { b } }
        None => b,
    }
}

// The earlier of two onsets, the first one if they are at once.
fn earlier(a: Option<Onset>, b: Onset) -> Onset
    ensures { result ≡ earlier a b }
{
    match a {
        Some(a) => { if a.at <= b.at { a } else { b } }
        None => b,
    }
}

// What is found with the last onset of an observance, if it has one.
fn with_last(found: Option<Onset>, from: i32, to: i32, onset: Option<i64>) -> Option<Onset>
    ensures { result ≡ with_last found from to onset }
{
    match onset {
        Some(at) => Some(later(found, Onset { at, from, to })),
        None => found,
    }
}

// The last onset of all observances that is not after a moment of UTC.
fn last_of_all(tables: &[Table], at: i64) -> Option<Onset>
    ensures { result ≡ last_of None tables.now at }
{
    let mut last = None;
    for table in tables {
        let onset = last_listed(&table.onsets, at);
        last = with_last(last, table.from, table.to, onset);
    }
    last
}

/// The first onset of all observances that are listed; `None` if there is none.
pub fn first_of_all(tables: &[Table]) -> Option<Onset>
    ensures { result ≡ first_of None tables.now }
{
    let mut first = None;
    for table in tables {
        let onset = Onset {
            at: table.first,
            from: table.from,
            to: table.to,
        };
        first = Some(earlier(first, onset));
    }
    first
}

// A moment by this offset.
fn moved(at: i64, offset: i32) -> i64
    requires { IsNear at }
    ensures { result ≡ at +ℤ offset }
{
    at + i64::from(offset)
}

// What is earlier by this offset.
fn less(at: i64, offset: i32) -> i64
    requires { IsNear at }
    ensures { result ≡ at -ℤ offset }
{
    at - i64::from(offset)
}

// Local time from an onset on.
fn local_from(onset: Onset, at: i64) -> LocalTime
    requires onset { IsNear onset.at }
    requires at { IsNear at }
    ensures { result ≡ local_from onset at }
{
    let local = moved(at, onset.to);
    let single = moved(onset.at, onset.from);
    if local < single {
        return LocalTime::Again(single);
    }
    let unset = moved(at, onset.from);
    let set = moved(onset.at, onset.to);
    if unset < set {
        LocalTime::Skipping(local)
    } else {
        LocalTime::Once(local)
    }
}

// Local time before all onsets, of which this is the first.
fn local_before(first: Option<Onset>, at: i64) -> LocalTime
    requires { IsNear at }
    ensures { result ≡ local_before first at }
{
    match first {
        None => LocalTime::Once(at),
        Some(first) => LocalTime::Once(moved(at, first.from)),
    }
}

// Local time less UTC before all onsets, of which this is the first.
fn offset_before(first: Option<Onset>) -> i32
    ensures { result ≡ offset_before first }
{
    match first {
        None => 0,
        Some(first) => first.from,
    }
}

// Local time less UTC by the last onset, and the first of all.
fn offset_from(last: Option<Onset>, first: Option<Onset>) -> i32
    ensures { result ≡ offset_from last first }
{
    match last {
        None => offset_before(first),
        Some(last) => last.to,
    }
}

// The moment of a local time that is so far ahead of UTC, if it is one of the years 1 to 9999.
fn moment_at_offset(local: i64, offset: i32) -> Option<i64>
    requires { IsNear local }
    ensures value { result ≡ moment_at_offset local offset }
    ensures years { IfSome result (IsInYears Moments) }
{
    later_in_years(less(local, offset), 0)
}

// Whether no onset lies behind a moment.
fn is_over(early: i64, onset: Option<Onset>) -> bool
    ensures { result ≡ is_over early onset }
{
    match onset {
        None => true,
        Some(onset) => onset.at <= early,
    }
}

// How far a local time about an onset is ahead of UTC.
fn offset_about(before: i32, onset: Onset, local: i64) -> i32
    requires { IsNear onset.at }
    ensures { result ≡ offset_about before onset local }
{
    let unset = moved(onset.at, before);
    let set = moved(onset.at, onset.to);
    if local < unset || local < set {
        before
    } else {
        onset.to
    }
}

// The moment of a local time by the onset that it is about and the one before that.
fn moment_about(
    first: Option<Onset>,
    previous: Option<Onset>,
    onset: Onset,
    local: i64,
) -> Option<i64>
    requires onset { IsNear onset.at }
    requires local { IsNear local }
    ensures value { result ≡ moment_about first previous onset local }
    ensures years { IfSome result (IsInYears Moments) }
{
    if !is_over(less(local, DAY_SECONDS), previous) {
        return None;
    }
    let before = offset_from(previous, first);
    moment_at_offset(local, offset_about(before, onset, local))
}

// Days from the first onset up to a day.
fn days_since(first: Option<Onset>, day: i64) -> i64
    requires { HasFourDigitYear day }
    ensures { result ≤ℤ pos 4_000_000 }
{
    let Some(first) = first else {
        return 0;
    };
    let begun = day_part(Kind::Moments, first.at);
    if begun < FIRST_DAY {
        return 0;
    }
    if day < begun {
        return 0;
    }
    day - begun
}

// The day, or the last that is ever listed if that comes first.
fn up_to_last(day: i64) -> i64
    requires { first_day_of_year (pos 1) ≤ℤ day }
    ensures last { IsLastDay result }
    ensures beyond { (t : ℤ) → t <ℤ day → t <ℤ last_day → t <ℤ result }
{
    if day < LAST_DAY { day } else { LAST_DAY }
}

// The last day that is listed when a day is asked for: twice as far from the first onset, and some years more at least, so that
// a text asks for few new lists.
fn last_to_list(first: Option<Onset>, day: i64) -> i64
    requires { HasFourDigitYear day }
    ensures last { IsLastDay result }
    ensures beyond { day <ℤ result }
{
    let more = days_since(first, day);
    if more < SOME_YEARS {
        up_to_last(day + SOME_YEARS)
    } else {
        up_to_last(day + more)
    }
}

impl Clock {
    /// No onset is listed yet, but for those of the first day.
    pub(crate) fn new(alloc: Global, zone: Zone) -> Result<Clock, NoMemory>
        ensures { IfOk result (λ clock. clock ≡ zone) }
    {
        let tables = tables_of(alloc, zone.as_slice(), FIRST_DAY)?;
        Ok(Clock {
            zone,
            tables,
            last: FIRST_DAY,
        })
    }

    // The first onset of the zone, if it has one.
    fn first(&self) -> Option<Onset>
        ensures { result ≡ first_of_zone None self.now }
    {
        first_of_all(&self.tables)
    }

    // The last onset that is not after a moment of UTC in the years 1 to 9999. Onsets are listed anew for a moment behind them.
    fn last(&mut self, alloc: Global, at: i64) -> Result<Option<Onset>, NoMemory>
        requires { IsInYears Moments at }
        ensures onset { IfOk result (λ onset. onset ≡ last_of_zone None self.old at) }
        ensures up_to { IfOk result (λ onset. IfSome onset (IsUpTo at)) }
        ensures zone { self.new ≡ self.old }
    {
        let day = day_part(Kind::Moments, at);
        if self.last <= day {
            let last = last_to_list(first_of_all(&self.tables), day);
            self.tables = tables_of(alloc, self.zone.as_slice(), last)?;
            self.last = last;
        }
        Ok(last_of_all(&self.tables, at))
    }

    /// Local time at a moment of UTC in the years 1 to 9999.
    pub(crate) fn local_time(&mut self, alloc: Global, at: i64) -> Result<LocalTime, NoMemory>
        requires { IsInYears Moments at }
        ensures time { IfOk result (λ time. time ≡ local_time self.old at) }
        ensures zone { self.new ≡ self.old }
    {
        match self.last(alloc, at)? {
            Some(onset) => Ok(local_from(onset, at)),
            None => Ok(local_before(self.first(), at)),
        }
    }

    // The moment of UTC that a local time names, by the last onset that is not more than a day after it.
    fn moment_by(
        &mut self,
        alloc: Global,
        local: i64,
        last: Option<Onset>,
    ) -> Result<Option<i64>, NoMemory>
        requires local { IsNear local }
        requires early { IsInYears Moments (local -ℤ pos 86_400) }
        requires late { IsInYears Moments (local +ℤ pos 86_400) }
        requires last { IfSome last (IsUpTo (local +ℤ pos 86_400)) }
        ensures value { IfOk result (λ moment. moment ≡ moment_by self.old local last) }
        ensures years { IfOk result (λ moment. IfSome moment (IsInYears Moments)) }
        ensures zone { self.new ≡ self.old }
    {
        let Some(onset) = last else {
            return Ok(moment_at_offset(local, offset_before(self.first())));
        };
        if onset.at <= less(local, DAY_SECONDS) {
            return Ok(moment_at_offset(local, onset.to));
        }
        let previous = self.last(alloc, less(onset.at, 1))?;
        Ok(moment_about(self.first(), previous, onset, local))
    }

    /// The moment of UTC that a local time of the years 1 to 9999 names. None if the clock is set twice in the two days about it.
    pub(crate) fn moment(&mut self, alloc: Global, local: i64) -> Result<Option<i64>, NoMemory>
        requires { IsInYears Moments local }
        ensures value { IfOk result (λ moment. moment ≡ utc_moment self.old local) }
        ensures years { IfOk result (λ moment. IfSome moment (IsInYears Moments)) }
        ensures zone { self.new ≡ self.old }
    {
        if later_in_years(local, -DAY_SECONDS).is_none() {
            return Ok(None);
        }
        let Some(late) = later_in_years(local, DAY_SECONDS) else {
            return Ok(None);
        };
        let last = self.last(alloc, late)?;
        self.moment_by(alloc, local, last)
    }
}
