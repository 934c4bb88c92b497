// Moments and ends beside the start of an event (RFC 5545, sections 3.3.5 and 3.3.10).
ghost use Rattle.std.specs.Prelude.{◌≡◌};
ghost use Rattle.rr_model.specs.Text.Passes.{local_moment_of, moment_beside};
ghost use Rattle.rr_model.specs.Text.Calendars.{end_at, end_beside};
ghost use Rattle.rr_model.specs.Text.Rules.{has_time};

use rr_model::{End, Kind, Refusal, Stamp};
use rr_text::later_in_years;

// A moment of UTC as local time.
fn local_moment(line: u64, offset: Option<i32>, at: i64) -> Result<i64, Refusal>
    ensures { result ≡ local_moment_of line offset at }
{
    let Some(offset) = offset else {
        return Err(Refusal::UtcMoment);
    };
    later_in_years(at, offset).ok_or(Refusal::BadMoment(line))
}

fn has_time(kind: Kind) -> bool
    ensures { result ≡ has_time kind }
{
    match kind {
        Kind::Days => false,
        Kind::Moments => true,
    }
}

/// A moment beside the start: a moment of UTC is turned into local time if the start is local time.
pub(crate) fn moment_beside(
    offset: Option<i32>,
    start: Stamp,
    line: u64,
    stamp: Stamp,
) -> Result<i64, Refusal>
    ensures { result ≡ moment_beside offset start line stamp }
{
    if stamp.utc && !start.utc && has_time(start.kind) {
        local_moment(line, offset, stamp.at)
    } else {
        Ok(stamp.at)
    }
}

// The end at another moment of its kind.
fn end_at(end: End, at: i64) -> End
    ensures { result ≡ end_at end at }
{
    match end {
        End::Until { kind, at: _ } => End::Until { kind, at },
        End::Both { kind, at: _, count } => End::Both { kind, at, count },
        other => other,
    }
}

/// The end beside the start: a moment of UTC is turned into local time if the start is local time.
///
/// The offset is local time less UTC in seconds. `UtcMoment` comes for a moment to be turned without an offset, and
/// `BadMoment` if it leaves the years 1 to 9999.
pub fn end_beside(
    offset: Option<i32>,
    start: Stamp,
    line: u64,
    until: Option<Stamp>,
    end: End,
) -> Result<End, Refusal>
    ensures { result ≡ end_beside offset start line until end }
{
    match until {
        None => Ok(end),
        Some(stamp) => {
            let at = moment_beside(offset, start, line, stamp)?;
            Ok(end_at(end, at))
        }
    }
}
