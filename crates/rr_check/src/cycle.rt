// The cycle of a series.
ghost use Rattle.std.specs.Prelude.{◌≡◌, ◌≤◌, ◌<◌, All, IfErr, IfOk, SomeIff};
ghost use Rattle.rr_model.specs.Whole.Divisors.{lcm};
ghost use Rattle.rr_model.specs.Rule.Repetition.{ChosenRepeats};
ghost use Rattle.rr_model.specs.Series.Cycle.{endless_cycle, rules_cycle, series_cycle};
ghost use Rattle.rr_model.specs.declared.refusal.Refusal.TheVariants.{CycleTooLong};

use crate::Checked;
use rr_model::{End, MAX_CYCLE_DAYS, Refusal, Rule};
use rr_num::{day_cycle, lcm_within};

/// The cycle of a series in days: the least common multiple of the cycles of its endless rules, excluded ones among them, 1 if
/// there is none.
///
/// `CycleTooLong` exactly if it is above `MAX_CYCLE_DAYS`.
pub fn admit(checked: &Checked) -> Result<u64, Refusal>
    ensures admitted { IfOk result (λ days. (days ≡ series_cycle checked.now)
        × (days ≤ MAX_CYCLE_DAYS)) }
    ensures refused { IfErr result (λ refusal. (refusal ≡ CycleTooLong)
        × (MAX_CYCLE_DAYS < series_cycle checked.now)) }
{
    let series = checked.series();
    let Some(rules) = cycle_of(series.rules.as_slice()) else {
        return Err(Refusal::CycleTooLong);
    };
    let Some(excluded) = cycle_of(series.excluded.as_slice()) else {
        return Err(Refusal::CycleTooLong);
    };
    match lcm_within(rules, excluded, MAX_CYCLE_DAYS) {
        Some(days) => Ok(days),
        None => Err(Refusal::CycleTooLong),
    }
}

// The cycle of rules; `None` if it is above `MAX_CYCLE_DAYS`.
fn cycle_of(rules: &[Rule]) -> Option<u64>
    requires { All (λ rule. 1 ≤ rule.interval) rules.now }
    ensures { SomeIff result (rules_cycle rules.now ≤ MAX_CYCLE_DAYS) (rules_cycle rules.now) }
{
    let mut cycle = 1;
    for rule in rules {
        let Some(joined) = join_cycles(cycle, endless_cycle(rule)) else {
            return None;
        };
        cycle = joined;
    }
    Some(cycle)
}

// What a rule adds to the cycle of its series: its own cycle if it is endless, and nothing if it ends.
fn endless_cycle(rule: &Rule) -> u128
    requires { 1 ≤ rule.now.interval }
    ensures value { result ≡ endless_cycle rule.now.end rule.now }
    ensures some { 1 ≤ result }
{
    match rule.end {
        End::Never => day_cycle(rule),
        _ => 1,
    }
}

// The least common multiple of a cycle and another; `None` if it is above `MAX_CYCLE_DAYS`.
pub(crate) fn join_cycles(cycle: u64, days: u128) -> Option<u64>
    requires some { 1 ≤ cycle }
    requires some_days { 1 ≤ days }
    ensures { SomeIff result (lcm cycle days ≤ MAX_CYCLE_DAYS) (lcm cycle days) }
{
    if days > MAX_CYCLE_DAYS as u128 {
        return None;
    }
    lcm_within(cycle, days as u64, MAX_CYCLE_DAYS)
}

/// The chosen moments of a valid rule repeat with its cycle, which `admit` joins, whether the rule chooses its start or not.
pub fn chosen_repeats()
    ensures { ChosenRepeats }
{}
