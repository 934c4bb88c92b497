// The rule that a line states, and what it becomes beside the start (RFC 5545, section 3.3.10).
ghost use Rattle.std.specs.Prelude.{◌≡◌};
ghost use Rattle.rr_model.specs.Answers.{Answers};
ghost use Rattle.rr_rule_parts.specs.Calendars.{stated_rule, rule_beside};
ghost use Rattle.rr_rule_parts.specs.Rules.{rule_parts};

use rr_ical::{StatedRule, end_beside};
use rr_model::{Fault, Refusal, Rule, Stamp};
use rr_rule_parts::{RuleParts, parts_of, rule_of, takes_start};
use rr_text::line_value;
use std::alloc::Global;

#[tactic(auto, unfolding(rr_rule_parts::specs::Rules::rule_parts))]
fn rule_parts(alloc: Global, line: u64, text: &[u8]) -> Result<RuleParts, Fault>
    ensures { Answers (rule_parts line text.now) result }
{
    let value = line_value(alloc, text)?;
    parts_of(alloc, line, &value)
}

/// The rule that the value of a line states.
#[tactic(auto, unfolding(rr_rule_parts::specs::Calendars::stated_rule))]
pub(crate) fn stated_rule(alloc: Global, line: u64, text: &[u8]) -> Result<StatedRule<Rule>, Fault>
    ensures { Answers (stated_rule line text.now) result }
{
    let parts = rule_parts(alloc, line, text)?;
    let until = parts.until;
    let rule = rule_of(line, parts)?;
    Ok(StatedRule::new(alloc, rule, until)?)
}

/// The rule beside the start: its UNTIL, then whether it takes a start of this kind.
#[tactic(auto, unfolding(rr_rule_parts::specs::Calendars::rule_beside))]
pub(crate) fn rule_beside(
    offset: Option<i32>,
    start: Stamp,
    line: u64,
    stated: StatedRule<Rule>,
) -> Result<Rule, Refusal>
    ensures { result ≡ rule_beside offset start line stated }
{
    let until = stated.until();
    let mut rule = stated.into_rule();
    let end = end_beside(offset, start, line, until, rule.end)?;
    if !takes_start(rule.freq, start.kind) {
        return Err(Refusal::NotAllowed);
    }
    rule.end = end;
    Ok(rule)
}
