// Units shorter than a day: the seconds from a unit's begin that BYSETPOS chooses, which are the same in each unit
// (RFC 5545, section 3.3.10, BYSETPOS).
ghost use Rattle.std.specs.Prelude.{◌≡◌, ◌<◌, IfOk, false, nat_lt};
ghost use Rattle.rr_model.specs.Moment.Units.{is_whole_days, unit_seconds};
ghost use Rattle.rr_model.specs.Rising.Sets.{IsSetOf};
ghost use Rattle.rr_model.specs.Rule.Filled.{wants_minute, wants_second};
ghost use Rattle.rr_model.specs.Rule.Validity.{CountUpTo};
ghost use Rattle.rr_parts.specs.Numbers.{number_allowed};
ghost use Rattle.rr_walk.specs.SetPositions.{AreChosenOffsets, IsAllowedOffset, IsAtOffset, offset_allowed};

use crate::set_positions::times_at_positions;
use rr_model::{Freq, NoMemory, Rule};
use rr_parts::{Time, allows_filled, seconds_of_unit, time_of, wants_minute, wants_second};
use rr_times::TimeSet;
use std::alloc::Global;

// The seconds from a unit's begin that BYSETPOS chooses; none if it is absent.
pub(crate) fn chosen_offsets(alloc: Global, rule: &Rule, start: i64) -> Result<TimeSet, NoMemory>
    requires freq { is_whole_days rule.now.freq ≡ false }
    requires positions { CountUpTo 366 rule.now.by_set_pos }
    ensures { IfOk result (AreChosenOffsets rule.now start) }
{
    if rule.by_set_pos.is_empty() {
        return TimeSet::of(alloc, &[]);
    }
    let offsets = allowed_offsets(alloc, rule, start)?;
    times_at_positions(alloc, &offsets, 0, 1, &rule.by_set_pos)
}

// The seconds from a unit's begin that the time parts allow.
fn allowed_offsets(alloc: Global, rule: &Rule, start: i64) -> Result<TimeSet, NoMemory>
    requires freq { is_whole_days rule.now.freq ≡ false }
    ensures { IfOk result (λ t. IsSetOf nat_lt t (IsAllowedOffset rule.now start)) }
{
    let own = time_of(start);
    let mut offsets = Vec::new(alloc);
    for offset in 0..seconds_of_unit(rule.freq) {
        if allows_offset(rule, own, offset) {
            offsets.push(offset)?;
        }
    }
    TimeSet::of(alloc, offsets.as_slice())
}

// Whether the time parts, filled from the start's time, allow a second of the units that they allow.
fn allows_offset(rule: &Rule, own: Time, offset: u32) -> bool
    requires { offset < unit_seconds rule.now.freq }
    ensures { result ≡ offset_allowed rule.now.freq rule.now own.minute own.second offset }
{
    match rule.freq {
        Freq::Hourly => {
            allows_minute(rule, own, (offset / 60) as u8)
                && allows_second(rule, own, (offset % 60) as u8)
        }
        Freq::Minutely => allows_second(rule, own, offset as u8),
        _ => true,
    }
}

// Whether BYMINUTE, filled from the start's time, allows a minute.
fn allows_minute(rule: &Rule, own: Time, minute: u8) -> bool
    ensures { result
        ≡ number_allowed (wants_minute rule.now.freq) rule.now.by_minute own.minute minute }
{
    allows_filled(&rule.by_minute, wants_minute(rule.freq), own.minute, minute)
}

// Whether BYSECOND, filled from the start's time, allows a second.
fn allows_second(rule: &Rule, own: Time, second: u8) -> bool
    ensures { result
        ≡ number_allowed (wants_second rule.now.freq) rule.now.by_second own.second second }
{
    allows_filled(&rule.by_second, wants_second(rule.freq), own.second, second)
}

// The seconds of a day that lie at these seconds of their unit, which has `unit` seconds.
pub(crate) fn at_offsets(
    alloc: Global,
    seconds: &TimeSet,
    unit: u32,
    offsets: &TimeSet,
) -> Result<TimeSet, NoMemory>
    requires { 0 < unit }
    ensures { IfOk result (λ t. IsSetOf nat_lt t (IsAtOffset unit offsets.now seconds.now)) }
{
    let listed = offsets.as_slice();
    let mut chosen = Vec::new(alloc);
    for second in seconds.as_slice() {
        if listed.binary_search(&(*second % unit)).is_ok() {
            chosen.push(*second)?;
        }
    }
    TimeSet::of(alloc, chosen.as_slice())
}
