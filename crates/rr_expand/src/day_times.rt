// The seconds of each candidate day of a rule whose units are whole days.
ghost use Rattle.std.specs.Prelude.{IfOk, IsTrue, nat_lt};
ghost use Rattle.rr_model.specs.Rising.Sets.{IsSetOf};
ghost use Rattle.rr_model.specs.declared.kind.Kind.TheVariants.{Moments};
ghost use Rattle.rr_model.specs.Rule.DaysAndTimes.{IsCandidateTime};
ghost use Rattle.rr_model.specs.Moment.Units.{is_whole_days};

use crate::spread::push_hours;
use crate::time_parts::allowed_numbers;
use rr_model::{Kind, NoMemory, Rule};
use rr_parts::time_of;
use rr_times::TimeSet;
use std::alloc::Global;

/// The seconds of every candidate day of a rule, DAILY or coarser: those that its time parts, filled from the start,
/// allow together (RFC 5545, section 3.3.10). Midnight alone in kind `Days`.
///
/// The start is a day number in kind `Days`, and 86,400 times the day number plus the second of the day in kind `Moments`.
/// Only its second of the day enters.
pub fn times(alloc: Global, rule: &Rule, kind: Kind, start: i64) -> Result<TimeSet, NoMemory>
    requires { IsTrue (is_whole_days rule.now.freq) }
    ensures { IfOk result (λ t. IsSetOf nat_lt t (IsCandidateTime rule.now kind start)) }
{
    match kind {
        Kind::Days => TimeSet::of(alloc, &[0]),
        Kind::Moments => times_of_day(alloc, rule, start),
    }
}

// The seconds of every candidate day of a rule of moments, DAILY or coarser, whose start is this moment.
fn times_of_day(alloc: Global, rule: &Rule, start: i64) -> Result<TimeSet, NoMemory>
    requires { IsTrue (is_whole_days rule.now.freq) }
    ensures { IfOk result (λ t. IsSetOf nat_lt t (IsCandidateTime rule.now Moments start)) }
{
    let own = time_of(start);
    let hours = allowed_numbers(alloc, &rule.by_hour, true, own.hour, 24)?;
    let minutes = allowed_numbers(alloc, &rule.by_minute, true, own.minute, 60)?;
    let seconds = allowed_numbers(alloc, &rule.by_second, true, own.second, 60)?;
    let mut times = Vec::new(alloc);
    push_hours(&mut times, &hours, &minutes, &seconds)?;
    TimeSet::of(alloc, times.as_slice())
}
