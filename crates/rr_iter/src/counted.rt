// The last member of a rule with COUNT.
ghost use Rattle.std.specs.Prelude.{◌≡◌, ◌+◌, ◌<◌, ◌≤◌, IfOk, min};
ghost use Rattle.rr_model.specs.Moment.{day_part};
ghost use Rattle.rr_model.specs.Rule.Cycle.{rule_cycle};
ghost use Rattle.rr_model.specs.Sets.Tree.{chosen_of};
ghost use Rattle.rr_iter.specs.Counts.{IsCountUpTo, day_alone};
ghost use Rattle.rr_iter.specs.Ends.{AnswersDayOf, IsSoundRule, up_to_cycle, up_to_start};

use crate::counts::{CycleCount, LastDay};
use crate::nth::{NthDay, day_of_nth};
use rr_model::{Fault, Kind, MAX_SPAN_DAYS, Refusal, Rule, day_part};
use rr_num::day_cycle;
use std::alloc::Global;

// The seconds of a span, of which a rule chooses at most all.
const MOST_MOMENTS: u64 = 86_400 * (MAX_SPAN_DAYS + 1);

// The day of the chosen moment of a number, and what was counted if it lies after the first cycle; refused if it lies more
// than `MAX_SPAN_DAYS` days after the start's.
pub(crate) fn last_counted(
    alloc: Global,
    rule: &Rule,
    kind: Kind,
    start: i64,
    count: u64,
) -> Result<LastDay, Fault>
    requires sound { IsSoundRule kind start rule.now }
    requires some { 1 ≤ count }
    ensures day { AnswersDayOf (chosen_of rule.now kind start) (day_part kind start) count
        (day_alone result) }
    ensures counted { IfOk result (λ last.
        IsCountUpTo rule.now kind start count last.counted) }
{
    if count > MOST_MOMENTS {
        return Err(Fault::Refused(Refusal::CountedTooFar));
    }
    match day_of_nth(alloc, rule, kind, start, count, day_part(kind, start))? {
        NthDay::On(day) => Ok(LastDay { day, counted: None }),
        NthDay::Beyond(left) => after_start(alloc, rule, kind, start, count, left),
    }
}

// The day of the chosen moment of number `count`, which is `left` above the moments up to the start's day, and what was
// counted. A rule that chooses nothing in a whole cycle after that day never does.
fn after_start(
    alloc: Global,
    rule: &Rule,
    kind: Kind,
    start: i64,
    count: u64,
    left: u64,
) -> Result<LastDay, Fault>
    requires sound { IsSoundRule kind start rule.now }
    requires some { 1 ≤ left }
    requires left { up_to_start rule.now kind start + left ≡ count }
    ensures day { AnswersDayOf (chosen_of rule.now kind start) (day_part kind start) count
        (day_alone result) }
    ensures counted { IfOk result (λ last.
        IsCountUpTo rule.now kind start count last.counted) }
{
    let cycle = cycle_within_span(rule);
    let to = day_part(kind, start) + cycle as i64;
    match day_of_nth(alloc, rule, kind, start, count, to)? {
        NthDay::On(day) => Ok(LastDay { day, counted: None }),
        NthDay::Beyond(after) => {
            if cycle == MAX_SPAN_DAYS {
                return Err(Fault::Refused(Refusal::CountedTooFar));
            }
            if after == left {
                return Err(Fault::Refused(Refusal::CountedTooFar));
            }
            let each = left - after;
            match after_cycles(alloc, rule, kind, start, count, left, each) {
                Ok(day) => Ok(LastDay {
                    day,
                    counted: Some(CycleCount { each, after }),
                }),
                Err(fault) => Err(fault),
            }
        }
    }
}

// The day of the chosen moment of number `count`, if the cycle is shorter than a span and each cycle after the start's
// day has `each` moments, one at least.
fn after_cycles(
    alloc: Global,
    rule: &Rule,
    kind: Kind,
    start: i64,
    count: u64,
    left: u64,
    each: u64,
) -> Result<i64, Fault>
    requires sound { IsSoundRule kind start rule.now }
    requires some { 1 ≤ left }
    requires left { up_to_start rule.now kind start + left ≡ count }
    requires cycle { rule_cycle rule.now < MAX_SPAN_DAYS }
    requires some_each { 1 ≤ each }
    requires each { up_to_cycle rule.now kind start ≡ up_to_start rule.now kind start + each }
    ensures { AnswersDayOf (chosen_of rule.now kind start) (day_part kind start) count result }
{
    let cycle = day_cycle(rule) as u64;
    let cycles = (left - 1) / each;
    if cycles > MAX_SPAN_DAYS / cycle {
        return Err(Fault::Refused(Refusal::CountedTooFar));
    }
    let days = (cycles * cycle) as i64;
    let to = day_part(kind, start) + (MAX_SPAN_DAYS as i64 - days);
    match day_of_nth(alloc, rule, kind, start, count - cycles * each, to)? {
        NthDay::On(day) => Ok(day + days),
        NthDay::Beyond(_) => Err(Fault::Refused(Refusal::CountedTooFar)),
    }
}

// The cycle of a rule in days, or the most days of a span if it is longer.
fn cycle_within_span(rule: &Rule) -> u64
    requires { 1 ≤ rule.now.interval }
    ensures { result ≡ min (rule_cycle rule.now) MAX_SPAN_DAYS }
{
    day_cycle(rule).min(MAX_SPAN_DAYS as u128) as u64
}
