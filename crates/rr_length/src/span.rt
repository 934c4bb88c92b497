// The length from a start to an end.
ghost use Rattle.std.specs.Prelude.{◌≡◌};
ghost use Rattle.rr_length.specs.Length.{is_same_mark, is_span, span_between, span_of};

use crate::length::Length;
use rr_model::{Kind, Stamp};

// The length of `count` dates, which are days, or of `count` seconds.
fn span_of(kind: Kind, count: u64) -> Length
    ensures { result ≡ span_of kind count }
{
    match kind {
        Kind::Days => Length {
            days: count,
            seconds: 0,
        },
        Kind::Moments => Length {
            days: 0,
            seconds: count,
        },
    }
}

// Whether both are of UTC, or neither is.
fn is_same_mark(start_utc: bool, end_utc: bool) -> bool
    ensures { result ≡ is_same_mark start_utc end_utc }
{
    start_utc == end_utc
}

// Whether a start and an end are of one kind, both of UTC or neither, and the end is not before the start.
fn is_span(start: Stamp, end: Stamp) -> bool
    ensures { result ≡ is_span start end }
{
    start.kind.is_same(end.kind) && is_same_mark(start.utc, end.utc) && start.at <= end.at
}

/// The length from a start to an end (RFC 5545, sections 3.8.2.2 and 3.8.5.3): of dates in days, of moments in seconds.
///
/// `None` comes if one is a date and the other a moment, if only one is of UTC, and if the end comes before the start.
pub fn span_between(start: Stamp, end: Stamp) -> Option<Length>
    ensures { result ≡ span_between start end }
{
    if !is_span(start, end) {
        return None;
    }
    Some(span_of(start.kind, end.at.abs_diff(start.at)))
}
