// The times of a day that BYSETPOS chooses (RFC 5545, section 3.3.10, BYSETPOS): one step for each listed position.
ghost use Rattle.std.specs.Prelude.{◌≡◌, ◌≤◌, ◌<◌, ◌+◌, IfOk, length, nat_lt, pos};
ghost use Rattle.rr_model.specs.Rising.Sets.{IsSetOf};
ghost use Rattle.rr_model.specs.Rule.Validity.{CountUpTo};
ghost use Rattle.rr_walk.specs.SetPositions.{AreAtPositions, IsAtSome, IsDayOfPosition, IsNextRank, IsTimeAt};

use rr_model::{NoMemory, Numbers, Seconds};
use rr_setpos::rank_of;
use rr_times::TimeSet;
use std::alloc::Global;

// The times of a day that the positions choose on the unit's candidate day of this rank, from 0; each day has the same
// times.
pub(crate) fn times_at_positions(
    alloc: Global,
    times: &TimeSet,
    rank: usize,
    count: usize,
    positions: &Numbers,
) -> Result<TimeSet, NoMemory>
    requires rank { rank < count }
    requires count { count ≤ 366 }
    requires positions { CountUpTo 366 positions.now }
    ensures { IfOk result (AreAtPositions times.now rank count positions.now) }
{
    let times = times.as_slice();
    let before = rank * times.len();
    let size = count * times.len();
    let chosen = seconds_at_positions(alloc, times, before as u32, size as u32, positions)?;
    TimeSet::of(alloc, chosen.as_slice())
}

// The first rank, from one on, among the `count` candidate days of a unit, whose day one of the positions is on, if each
// day has `each` times.
pub(crate) fn next_rank(
    positions: &Numbers,
    each: usize,
    count: usize,
    from: usize,
) -> Option<usize>
    requires each { each ≤ 86_400 }
    requires count { count ≤ 366 }
    requires positions { CountUpTo 366 positions.now }
    ensures { IsNextRank positions.now each count from result }
{
    // No position is on the days from that one on and before this one.
    let mut end = count;
    for position in positions.as_slice() {
        if let Some(rank) = day_of_position(i64::from(*position), each, count) {
            if from <= rank && rank < end {
                end = rank;
            }
        }
    }
    if end < count { Some(end) } else { None }
}

// The rank of the day on which a position is, among `count` days of a unit that have `each` times each.
fn day_of_position(position: i64, each: usize, count: usize) -> Option<usize>
    requires position { position ≡ pos 0 → ⊥ }
    requires each { each ≤ 86_400 }
    requires count { count ≤ 366 }
    ensures { IsDayOfPosition position each count result }
{
    let size = count * each;
    match rank_of(position, size as u32) {
        None => None,
        Some(rank) => Some(rank as usize / each),
    }
}

// The times of a day that are at the listed positions, if `before` candidates of the unit come before them.
fn seconds_at_positions(
    alloc: Global,
    times: &[u32],
    before: u32,
    size: u32,
    positions: &Numbers,
) -> Result<Seconds, NoMemory>
    requires room { before + length times.now ≤ size }
    requires positions { CountUpTo 366 positions.now }
    ensures { IfOk result (λ t. IsSetOf nat_lt t
        (IsAtSome times.now before size positions.now (length positions.now))) }
{
    let mut seconds = Seconds::new(alloc);
    for position in positions.as_slice() {
        match time_at(times, before, size, i64::from(*position)) {
            None => {}
            Some(second) => seconds.put(second)?,
        }
    }
    Ok(seconds)
}

// The time at a position of the unit, if it is one of these.
fn time_at(times: &[u32], before: u32, size: u32, position: i64) -> Option<u32>
    requires room { before + length times.now ≤ size }
    requires position { position ≡ pos 0 → ⊥ }
    ensures { IsTimeAt times.now before size position result }
{
    match rank_of(position, size) {
        None => None,
        Some(rank) => {
            if before <= rank && ((rank - before) as usize) < times.len() {
                Some(times[(rank - before) as usize])
            } else {
                None
            }
        }
    }
}
