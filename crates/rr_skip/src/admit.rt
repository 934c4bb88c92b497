// The cycle of a series.
ghost use Rattle.std.specs.Prelude.{◌≡◌, ◌<◌, ◌≤◌, IfErr, IfOk};
ghost use Rattle.rr_model.specs.Series.Cycle.{endless_cycle};
ghost use Rattle.rr_model.specs.declared.limits.TheConstants.{MAX_CYCLE_DAYS};
ghost use Rattle.rr_model.specs.declared.refusal.Refusal.TheVariants.{CycleTooLong};
ghost use Rattle.rr_skip.specs.Members.{skip_cycle};
ghost use Rattle.rr_skip.specs.Validity.{IsSoundSkipping};

use crate::{SkipRule, SkipSeries};
use rr_model::{End, MAX_CYCLE_DAYS, Refusal};
use rr_num::day_cycle;

// What a rule adds to the cycle of its series: its own cycle if it is endless, and nothing if it ends.
fn rule_cycle(rule: &SkipRule) -> u128
    requires { 1 ≤ rule.now.rule.interval }
    ensures value { result ≡ endless_cycle rule.now.rule.end rule.now.rule }
    ensures some { 1 ≤ result }
{
    match rule.rule.end {
        End::Never => day_cycle(&rule.rule),
        _ => 1,
    }
}

impl SkipSeries {
    /// The cycle of the series in days: that of its rule if the rule is endless, and otherwise 1.
    ///
    /// `CycleTooLong` exactly if it is above `MAX_CYCLE_DAYS`.
    pub fn admit(&self) -> Result<u64, Refusal>
        requires { IsSoundSkipping self.now }
        ensures admitted { IfOk result
            (λ days. (days ≡ skip_cycle self.now) × (days ≤ MAX_CYCLE_DAYS)) }
        ensures refused { IfErr result
            (λ refusal. (refusal ≡ CycleTooLong) × (MAX_CYCLE_DAYS < skip_cycle self.now)) }
    {
        match &self.rule {
            None => Ok(1),
            Some(rule) => within_limit(rule_cycle(rule)),
        }
    }
}

// The cycle, if it is at most `MAX_CYCLE_DAYS`.
fn within_limit(cycle: u128) -> Result<u64, Refusal>
    ensures admitted { IfOk result (λ days. (days ≡ cycle) × (days ≤ MAX_CYCLE_DAYS)) }
    ensures refused { IfErr result
        (λ refusal. (refusal ≡ CycleTooLong) × (MAX_CYCLE_DAYS < cycle)) }
{
    if cycle > MAX_CYCLE_DAYS as u128 {
        Err(Refusal::CycleTooLong)
    } else {
        Ok(cycle as u64)
    }
}
