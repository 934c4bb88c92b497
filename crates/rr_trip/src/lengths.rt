// What is said of how long the occurrences of a key are, if its local times are equal.
ghost use Rattle.std.specs.Prelude.{◌≡◌, IfOk};
ghost use Rattle.rr_trip.specs.Pairs.{IsPair, IsSaidBehindTimes, lengths_beside};
ghost use Rattle.rr_trip.specs.Said.{HasOtherLength, IsAnsweredLength, IsPrintableSaid, IsSaidBehind, has_equal_times, occurs_at};

use crate::pair::KeyPair;
use crate::said::{Said, Zones};
use rr_length::{OtherLength, first_other_length};
use rr_model::{NoMemory, Verdict};
use std::alloc::Global;

// Whether local times that were compared are equal, for ever.
fn has_equal_times(times: Said) -> bool
    ensures { result ≡ has_equal_times times }
{
    match times {
        Said::Compared {
            verdict: Verdict::Yes,
            zones,
        } => match zones {
            Zones::Local | Zones::Unknown => true,
            Zones::Moments { only_zones, .. } => only_zones,
        },
        _ => false,
    }
}

// The first occurrence that has two lengths, if both sides tell how long theirs are.
fn other_length(alloc: Global, pair: &KeyPair) -> Result<Option<OtherLength>, NoMemory>
    requires { IsPair pair.now }
    ensures { IfOk result (IsAnsweredLength (occurs_at pair.now.a.series) pair.now.a.lengths
        (lengths_beside pair.now.b)) }
{
    match (&pair.a.lengths, pair.lengths_b()) {
        (Some(a), Some(b)) => first_other_length(alloc, &pair.a.days, a, b),
        (None, _) | (_, None) => Ok(None),
    }
}

/// What is said behind what is said of the times of a key: that an occurrence has two lengths, if local times are equal for ever.
pub fn said_behind(alloc: Global, pair: &KeyPair, times: Said) -> Result<Said, NoMemory>
    requires pair { IsPair pair.now }
    requires printable { IsPrintableSaid times }
    ensures said { IfOk result (IsSaidBehindTimes pair.now times) }
    ensures printable { IfOk result IsPrintableSaid }
{
    if !has_equal_times(times) {
        return Ok(times);
    }
    match other_length(alloc, pair)? {
        Some(other) => Ok(Said::Length(other)),
        None => Ok(times),
    }
}
