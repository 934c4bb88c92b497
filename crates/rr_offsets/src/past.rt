// When all that a zone states is over but for its endless rules.
ghost use Rattle.std.specs.Prelude.{◌≡◌, ◌≤ℤ◌, ◌+ℤ◌, ◌-ℤ◌, true, neg_ℤ, pos, All};
ghost use Rattle.std.specs.List.{list_all};
ghost use Rattle.rr_model.specs.Moment.{day_part};
ghost use Rattle.rr_model.specs.declared.kind.Kind.TheVariants.{Moments};
ghost use Rattle.rr_offsets.specs.Past.{AreOver, EndsBefore, HaveEnds, IsDayAfterCycle, IsLaterPast, IsOver, IsPastMoment, LiesBefore, zone_cycle};
ghost use Rattle.rr_offsets.specs.Steady.{is_early, is_steady, is_steady_end, is_steady_observance, is_steady_rule};
ghost use Rattle.rr_zone.specs.Observances.{IsSoundObservance};
ghost use Rattle.rr_zone.specs.Offsets.{IsBelowDay};

use rr_model::{End, Kind, Rule, day_part};
use rr_zone::Observance;

// 0001-01-01T00:00:00, in seconds since 1970-01-01T00:00:00.
const FIRST_MOMENT: i64 = -62_135_596_800;

// 400 years, in seconds.
const CYCLE: i64 = 12_622_780_800;

// Local time at a moment of UTC, so far ahead.
fn local_at(past: i64, from: i32) -> i64
    requires { IsPastMoment past }
    ensures { result ≡ past +ℤ from }
{
    past + i64::from(from)
}

// The moment of UTC after a moment of local time, which is so far ahead.
fn utc_after(at: i64, from: i32) -> i64
    requires low { neg_ℤ (pos 100_000_000_000) ≤ℤ at }
    requires high { is_early at ≡ true }
    ensures { result ≡ at -ℤ (from -ℤ pos 1) }
{
    at - (i64::from(from) - 1)
}

// A moment of UTC not before this one, and after a moment of local time, which is so far ahead.
fn after_date(past: i64, from: i32, at: i64) -> i64
    requires past { IsPastMoment past }
    requires from { IsBelowDay from }
    requires at { is_early at ≡ true }
    ensures past { IsLaterPast past result }
    ensures date { LiesBefore from result at }
{
    if at < local_at(past, from) {
        past
    } else {
        utc_after(at, from)
    }
}

// A moment of UTC after all of some dates of local time, and not before `past`.
fn after_dates(past: i64, from: i32, dates: &[i64]) -> i64
    requires past { IsPastMoment past }
    requires from { IsBelowDay from }
    requires dates { list_all is_early dates.now ≡ true }
    ensures past { IsLaterPast past result }
    ensures dates { All (LiesBefore from result) dates.now }
{
    let mut last = past;
    for date in dates {
        last = after_date(last, from, *date);
    }
    last
}

// A moment of UTC after the UNTIL of a rule, if it has one, and not before `past`.
fn after_end(past: i64, from: i32, end: End) -> i64
    requires past { IsPastMoment past }
    requires from { IsBelowDay from }
    requires end { is_steady_end end ≡ true }
    ensures past { IsLaterPast past result }
    ensures end { EndsBefore from result end }
{
    match end {
        End::Never => past,
        End::Until { at, .. } => after_date(past, from, at),
        End::Count(_) => past,
        End::Both { .. } => past,
    }
}

// A moment of UTC after the UNTIL of each of some rules, and not before `past`.
fn after_rules(past: i64, from: i32, rules: &[Rule]) -> i64
    requires past { IsPastMoment past }
    requires from { IsBelowDay from }
    requires rules { list_all is_steady_rule rules.now ≡ true }
    ensures past { IsLaterPast past result }
    ensures rules { HaveEnds from result rules.now }
{
    let mut last = past;
    for rule in rules {
        last = after_end(last, from, rule.end);
    }
    last
}

// A moment of UTC after all that an observance states but for its endless rules, and not before `past`.
fn after_observance(past: i64, observance: &Observance) -> i64
    requires past { IsPastMoment past }
    requires sound { IsSoundObservance observance.now }
    requires steady { is_steady_observance observance.now ≡ true }
    ensures past { IsLaterPast past result }
    ensures over { IsOver result observance.now }
{
    let from = observance.from;
    let start = after_date(past, from, observance.series.start);
    let dates = after_dates(start, from, observance.series.plus.as_slice());
    after_rules(dates, from, observance.series.rules.as_slice())
}

/// A moment of UTC after all that a zone states but for its endless rules.
pub(crate) fn past_of(zone: &[Observance]) -> i64
    requires sound { All IsSoundObservance zone.now }
    requires steady { is_steady zone.now ≡ true }
    ensures moment { IsPastMoment result }
    ensures over { AreOver result zone.now }
{
    let mut last = FIRST_MOMENT;
    for observance in zone {
        last = after_observance(last, observance);
    }
    last
}

// 400 years after a moment.
fn cycle_after(past: i64) -> i64
    requires { IsPastMoment past }
    ensures { result ≡ past +ℤ pos zone_cycle }
{
    past + CYCLE
}

// The day after that of a moment.
fn day_after(at: i64) -> i64
    requires low { neg_ℤ (pos 100_000_000_000) ≤ℤ at }
    requires high { at ≤ℤ pos 100_000_000_000 }
    ensures { result ≡ day_part Moments at +ℤ pos 1 }
{
    day_part(Kind::Moments, at) + 1
}

/// A day that begins 400 years after a moment or later.
pub(crate) fn day_after_cycle(past: i64) -> i64
    requires { IsPastMoment past }
    ensures { IsDayAfterCycle past result }
{
    day_after(cycle_after(past))
}
