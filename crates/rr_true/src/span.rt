// Stretches of moments with one offset.
ghost use Rattle.std.specs.Prelude.{◌≡◌, ◌<◌, ◌≤◌, ◌-◌, ◌*◌, All, true, length, map, pos, slice_index_or, ℤ, ◌-ℤ◌, ◌≤ℤ◌, ◌<ℤ◌, int_lt};
ghost use Rattle.rr_model.specs.Rising.{Rises};
ghost use Rattle.rr_true.specs.Changes.{IsSettledNear, moment_in_cycle, moment_of, offset_by};
ghost use Rattle.rr_true.specs.Near.{IsInReach, IsNear};
ghost use Rattle.rr_true.specs.Spans.{IsCountUpTo, IsSpan};
ghost use Rattle.rr_true.specs.declared.change.Change.{Change};

use crate::change::Change;
use rr_model::SECONDS_OF_DAY;

/// The offset from some moment of UTC on, up to a later one.
#[derive(Clone, Copy)]
pub(crate) struct Span {
    /// The moment at which the stretch has ended, in seconds.
    pub end: i64,
    /// Local time less UTC, in seconds.
    pub offset: i32,
}

// How many of some changes are not after a moment.
fn count_up_to(changes: &[Change], at: i64) -> usize
    requires { Rises int_lt (map moment_of changes.now) }
    ensures { IsCountUpTo changes.now at result }
{
    changes.partition_point(|change| change.at <= at)
}

// The offset after the first `count` changes.
fn offset_after(initial: i32, changes: &[Change], count: usize) -> i32
    requires { count ≤ length changes.now }
    ensures none { count ≡ 0 → result ≡ initial }
    ensures some { (d : Change) → 0 < count → result ≡ (slice_index_or changes.now (count - 1) d).offset }
{
    if count == 0 {
        initial
    } else {
        changes[count - 1].offset
    }
}

// The moment of the change after the first `count` changes, or a last moment if it is earlier.
fn end_after(changes: &[Change], count: usize, last: i64) -> i64
    ensures last { result ≤ℤ last }
    ensures change { (d : Change) → count < length changes.now → result ≤ℤ (slice_index_or changes.now count d).at }
    ensures later { (at : ℤ) → at <ℤ last → ((d : Change) → count < length changes.now
        → at <ℤ (slice_index_or changes.now count d).at) → at <ℤ result }
{
    if count < changes.len() {
        changes[count].at.min(last)
    } else {
        last
    }
}

/// The stretch from a moment on, of which all is told up to a last moment.
pub(crate) fn span_by(initial: i32, changes: &[Change], at: i64, last: i64) -> Span
    requires rising { Rises int_lt (map moment_of changes.now) }
    requires last { at <ℤ last }
    ensures span { IsSpan (offset_by initial changes.now) at result }
    ensures within { result.end ≤ℤ last }
{
    let count = count_up_to(changes, at);
    Span {
        end: end_after(changes, count, last),
        offset: offset_after(initial, changes, count),
    }
}

/// Whether no change is later than a moment.
pub(crate) fn end_by(changes: &[Change], settled: i64) -> bool
    requires { Rises int_lt (map moment_of changes.now) }
    ensures { result ≡ true → All (λ change. change.at ≤ℤ settled) changes.now }
{
    match changes {
        [.., last] => last.at <= settled,
        [] => true,
    }
}

/// A cycle of days, in seconds.
pub(crate) fn cycle_of(days: u32) -> i64
    ensures { result ≡ pos (days * 86_400) }
{
    i64::from(days) * SECONDS_OF_DAY
}

/// The moment of the first cycle that a later moment repeats.
pub(crate) fn moment_in_cycle(settled: i64, days: u32, moment: i64) -> i64
    requires settled { IsSettledNear settled }
    requires some { 1 ≤ days }
    requires reach { IsInReach moment }
    ensures { result ≡ moment_in_cycle settled (days * 86_400) moment }
{
    if moment < settled {
        return moment;
    }
    settled + (moment - settled).rem_euclid(cycle_of(days))
}

/// A local time less an offset, in seconds.
pub(crate) fn by_offset(local: i64, offset: i32) -> i64
    requires { IsNear local }
    ensures { result ≡ local -ℤ offset }
{
    local - i64::from(offset)
}
