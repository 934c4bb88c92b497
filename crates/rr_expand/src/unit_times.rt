// The minutes and seconds that the time parts of a rule allow in a unit that is shorter than a day.
ghost use Rattle.std.specs.Prelude.{IfOk};
ghost use Rattle.rr_expand.specs.UnitTimes.{AreNumbersOfUnit, AreUnitTimes};

use crate::time_parts::allowed_numbers;
use rr_model::{Numbers, Rule};
use rr_parts::{time_of, wants_minute, wants_second};
use std::alloc::{AllocError, Global};

/// The minutes and seconds that the time parts of a rule allow in a unit that is shorter than a day, filled from its start
/// (RFC 5545, section 3.3.10). They depend on nothing but the rule and its start.
#[derive(Drop)]
pub struct UnitTimes {
    /// The minutes of an hour, from 0 to 59 and rising; none of a shorter unit.
    pub minutes: Vec<u32>,
    /// The seconds of a minute, from 0 to 59 and rising; none of a unit of one second.
    pub seconds: Vec<u32>,
}

impl UnitTimes {
    /// The minutes and seconds that the time parts of a rule allow in a unit. The start is 86,400 times its day number
    /// plus the second of the day.
    pub fn new(alloc: Global, rule: &Rule, start: i64) -> Result<Self, AllocError>
        ensures { IfOk result (λ t. AreUnitTimes rule.now start t.minutes.items t.seconds.items) }
    {
        let own = time_of(start);
        let has_minutes = wants_minute(rule.freq);
        let has_seconds = wants_second(rule.freq);
        Ok(UnitTimes {
            minutes: numbers_of_unit(alloc, &rule.by_minute, has_minutes, own.minute)?,
            seconds: numbers_of_unit(alloc, &rule.by_second, has_seconds, own.second)?,
        })
    }
}

// The numbers below 60 that a part allows, filled from the start's own number, of a unit that holds many; otherwise none.
fn numbers_of_unit(
    alloc: Global,
    part: &Numbers,
    holds_many: bool,
    own: u8,
) -> Result<Vec<u32>, AllocError>
    ensures { IfOk result (λ v. AreNumbersOfUnit holds_many part.now own v.items) }
{
    if holds_many {
        allowed_numbers(alloc, part, true, own, 60)
    } else {
        Ok(Vec::new(alloc))
    }
}
