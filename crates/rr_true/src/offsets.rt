// Local time of a zone less UTC, for ever.
ghost use Rattle.std.specs.Prelude.{◌≡◌, ◌≤◌, ◌*◌, ℤ, pos, ◌≤ℤ◌, ◌<ℤ◌};
ghost use Rattle.rr_model.specs.Whole.Periodic.{RepeatsFrom};
ghost use Rattle.std.specs.Int.{◌∣◌};
ghost use Rattle.rr_true.specs.Changes.{AreSoundChanges, IsBelowDay, IsSettledNear, offset_of, offsets_of};
ghost use Rattle.rr_true.specs.Moments.{IsOffset, IsTrueMoment};
ghost use Rattle.rr_true.specs.Near.{IsInReach, IsNear};
ghost use Rattle.rr_true.specs.Occurrences.{utc};
ghost use Rattle.rr_true.specs.Spans.{IsSpan};

use crate::change::Change;
use crate::search::{first_from, first_reached};
use crate::span::{Span, by_offset, cycle_of, end_by, moment_in_cycle, span_by};
use std::alloc::Global;
use std::marker::Model;

// Later than each moment that is asked for.
const FAR: i64 = 1_000_000_000_000_000_000;

/// How far local time of a zone is ahead of UTC at each moment, for ever, in seconds.
///
/// Contracts see it as what is known of the zone; `offset_of` of that is the function from moments of UTC to offsets, which are
/// less than a day either way.
#[derive(Drop)]
pub struct Offsets {
    initial: i32,
    changes: Vec<Change>,
    settled: i64,
    days: u32,
}

impl Model for Offsets {
    ghost use Rattle.rr_true.specs.Changes.{AreSoundChanges, ZoneOffsets};

    ghost Value = { ZoneOffsets };

    ghost view = { λ o. record {
      initial = o.initial;
      changes = o.changes.items;
      settled = o.settled;
      days = o.days;
    } };

    ghost invariant = { λ o. AreSoundChanges o.initial o.changes.items o.settled o.days };
}

/// From when on and after how many days offsets repeat.
#[derive(Clone, Copy, Debug, PartialEq, Eq)]
pub struct ZoneCycle {
    /// The moment of UTC from which on they repeat, in seconds since 1970-01-01T00:00:00.
    pub settled: i64,
    /// After how many days they do, from 1 on; 146,097 days are a whole number of cycles.
    pub days: u32,
}

impl Offsets {
    /// The offsets of UTC itself: always 0. It takes no memory.
    pub fn utc(alloc: Global) -> Offsets
        ensures { (u : ℤ) → offset_of result u ≡ utc u }
    {
        Offsets::fixed(alloc, 0)
    }

    /// Always this offset, in seconds, less than a day either way. It takes no memory.
    pub fn fixed(alloc: Global, offset: i32) -> Offsets
        requires { IsBelowDay offset }
        ensures { (u : ℤ) → offset_of result u ≡ offset }
    {
        Offsets::new(offset, Vec::new(alloc), 0, 1)
    }

    /// An offset before all changes, then the changes, which repeat after `days` days from the settled moment on: a
    /// change that is not before `settled` stands for those whole cycles later too, and one that is a cycle later or
    /// more counts for nothing.
    pub fn new(initial: i32, changes: Vec<Change>, settled: i64, days: u32) -> Offsets
        requires { AreSoundChanges initial changes.items settled days }
        ensures { (u : ℤ) → offset_of result u ≡ offsets_of initial changes.items settled days u }
    {
        Offsets {
            initial,
            changes,
            settled,
            days,
        }
    }

    // The stretch with one offset from a moment on, up to the end of its cycle at most.
    fn span_in_cycle(&self, moment: i64) -> Span
        requires { IsInReach moment }
        ensures span { IsSpan (offset_of self.now) moment result }
        ensures end { result.end ≤ℤ pos 1_000_000_000_000_000_000 }
        ensures below { IsBelowDay result.offset }
    {
        let first = moment_in_cycle(self.settled, self.days, moment);
        let last = self.settled + cycle_of(self.days);
        let span = span_by(self.initial, self.changes.as_slice(), first, last);
        Span {
            end: span.end + (moment - first),
            offset: span.offset,
        }
    }

    /// The stretch with one offset from a moment on.
    pub(crate) fn span_at(&self, moment: i64) -> Span
        requires { IsInReach moment }
        ensures span { IsSpan (offset_of self.now) moment result }
        ensures end { result.end ≤ℤ pos 1_000_000_000_000_000_000 }
        ensures below { IsBelowDay result.offset }
    {
        if end_by(self.changes.as_slice(), self.settled) {
            span_by(self.initial, self.changes.as_slice(), moment, FAR)
        } else {
            self.span_in_cycle(moment)
        }
    }

    /// Local time less UTC at a moment of UTC, in seconds.
    pub fn at(&self, moment: i64) -> i32
        requires { IsNear moment }
        ensures value { result ≡ offset_of self.now moment }
        ensures below { IsBelowDay result }
    {
        self.span_at(moment).offset
    }

    /// A moment after this one, up to which, but without it, the offset stays the same. Both are moments of UTC in
    /// seconds since 1970-01-01T00:00:00.
    pub fn constant_until(&self, moment: i64) -> i64
        requires { IsNear moment }
        ensures later { moment <ℤ result }
        ensures same { (u : ℤ) → moment ≤ℤ u → u <ℤ result → offset_of self.now u ≡ offset_of self.now moment }
    {
        self.span_at(moment).end
    }

    /// The moment of UTC that a local time names (RFC 5545, section 3.3.5): the first that has it; if a gap passes over it,
    /// the local time less the offset before the gap. Both in seconds since 1970-01-01T00:00:00.
    pub fn true_moment(&self, local: i64) -> i64
        requires { IsNear local }
        ensures { IsTrueMoment (offset_of self.now) local result }
    {
        let reached = first_reached(self, local);
        match first_from(self, reached, local) {
            Some(named) => named,
            None => by_offset(local, self.span_at(reached - 1).offset),
        }
    }

    /// From when on the offsets repeat, and after how many days.
    pub fn cycle(&self) -> ZoneCycle
        ensures settled { result.settled ≡ self.now.settled }
        ensures days { result.days ≡ self.now.days }
        ensures repeats { RepeatsFrom (offset_of self.now) result.settled (result.days * 86_400) }
        ensures near { IsSettledNear result.settled }
        ensures some { 1 ≤ result.days }
        ensures divides { result.days ∣ 146_097 }
        ensures offset { IsOffset (offset_of self.now) }
    {
        ZoneCycle {
            settled: self.settled,
            days: self.days,
        }
    }

    /// A law: the offsets are less than a day either way.
    pub fn is_offset(&self)
        ensures { IsOffset (offset_of self.now) }
    {
        let _days = self.days;
    }
}
