// The moments of a local time, stretch by stretch.
ghost use Rattle.std.specs.Prelude.{pos, ◌+ℤ◌, ◌-ℤ◌, ◌≤ℤ◌};
ghost use Rattle.rr_true.specs.Changes.{offset_of};
ghost use Rattle.rr_true.specs.Near.{IsNear};
ghost use Rattle.rr_true.specs.Spans.{IsFirstFrom, IsFirstReached, IsNamedIn};

use crate::offsets::Offsets;
use crate::span::{Span, by_offset};
use rr_model::SECONDS_OF_DAY;

/// The first moment at which a local time is reached or passed.
pub(crate) fn first_reached(offsets: &Offsets, local: i64) -> i64
    requires { IsNear local }
    ensures reached { IsFirstReached (offset_of offsets.now) local result }
    ensures low { (local -ℤ pos 86_400) ≤ℤ result }
    ensures high { result ≤ℤ (local +ℤ pos 86_400) }
{
    offsets.is_offset();
    let mut from = local - SECONDS_OF_DAY;
    loop {
        let span = offsets.span_at(from);
        let named = by_offset(local, span.offset);
        if named < span.end {
            return named.max(from);
        }
        from = span.end;
    }
}

// The moment of a stretch from some moment on that a local time names there.
fn named_in(span: Span, from: i64, local: i64) -> Option<i64>
    requires { IsNear local }
    ensures { IsNamedIn from span local result }
{
    let named = by_offset(local, span.offset);
    if from <= named && named < span.end {
        Some(named)
    } else {
        None
    }
}

/// The first moment from some moment on that has a local time.
pub(crate) fn first_from(offsets: &Offsets, from: i64, local: i64) -> Option<i64>
    requires local { IsNear local }
    requires low { (local -ℤ pos 86_400) ≤ℤ from }
    ensures { IsFirstFrom (offset_of offsets.now) from local result }
{
    offsets.is_offset();
    let last = local + SECONDS_OF_DAY;
    let mut start = from;
    while start <= last {
        let span = offsets.span_at(start);
        if let Some(named) = named_in(span, start, local) {
            return Some(named);
        }
        start = span.end;
    }
    None
}
