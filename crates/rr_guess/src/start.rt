// How far back before the settled day an endless pattern is led.
use crate::candidate::{Candidate, Here};
use crate::second::SecondDays;
use crate::walk::Walk;

/// The index of the day from which on a pattern has, up to the settled day, the most days of the set less those that the set
/// lacks; of equal ones the earliest, so that a series keeps its start. It is the pattern's first day from the settled day on if
/// each day before costs more than it pays.
pub(crate) fn best_start(days: &SecondDays, here: &Here, candidate: &Candidate) -> u32 {
    let mut walk = Walk::from_unit(candidate, here, 0);
    let mut start = here.index;
    let mut gain: i64 = 0;
    let mut least: i64 = 1;
    for _ in 0..days.settled {
        let Some(index) = walk.next_before(days, days.settled) else {
            break;
        };
        if gain < least {
            least = gain;
            start = index;
        }
        gain = gain.saturating_add(if days.row.has(index) { 1 } else { -1 });
    }
    if gain < least { here.index } else { start }
}

/// The set has no day of the pattern from a start up to the settled day any more. How many of them it lacked before.
pub(crate) fn take_before(
    days: &mut SecondDays,
    here: &Here,
    candidate: &Candidate,
    start: u32,
) -> u32 {
    let mut walk = Walk::from_unit(candidate, here, 0);
    let mut lacked: u32 = 0;
    for _ in 0..days.settled {
        let Some(index) = walk.next_before(days, days.settled) else {
            return lacked;
        };
        if index >= start {
            if !days.row.has(index) {
                lacked = lacked.saturating_add(1);
            }
            days.row.take(index);
        }
    }
    lacked
}
