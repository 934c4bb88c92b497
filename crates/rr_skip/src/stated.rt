// The rule that a line states, and what it becomes beside the start (RFC 7529, section 4).
ghost use Rattle.std.specs.Prelude.{◌≡◌};
ghost use Rattle.rr_model.specs.Answers.{Answers};
ghost use Rattle.rr_skip.specs.Parts.{is_scaled, skip_rule_of};
ghost use Rattle.rr_skip.specs.Reading.{skip_rule_beside, stated_skip};
ghost use Rattle.rr_skip.specs.Validity.{takes_skip};

use crate::parts::{ScaledParts, scale_parts};
use crate::{Skip, SkipRule};
use rr_ical::{Setting, StatedRule, end_beside};
use rr_model::{Fault, Freq, Refusal};
use rr_rule_parts::{end_of, rule_with};
use std::alloc::Global;

// Whether a rule of the frequency is read.
fn takes_skip(freq: Freq) -> bool
    ensures { result ≡ takes_skip freq }
{
    matches!(freq, Freq::Monthly | Freq::Yearly)
}

// Whether RSCALE is present and the frequency is read.
fn is_scaled(parts: &ScaledParts, freq: Freq) -> bool
    ensures { result ≡ is_scaled parts.now freq }
{
    parts.has_scale && takes_skip(freq)
}

// The rule of these parts, judged after its last part.
#[tactic(auto, unfolding(crate::specs::Parts::skip_rule_of))]
fn skip_rule_of(line: u64, parts: ScaledParts) -> Result<SkipRule, Refusal>
    ensures { result ≡ skip_rule_of line parts }
{
    let freq = parts.parts.freq.ok_or(Refusal::BadRule(line))?;
    let end = end_of(parts.parts.until, parts.parts.count)?;
    if !is_scaled(&parts, freq) {
        return Err(Refusal::Extended);
    }
    Ok(SkipRule {
        skip: parts.skip.unwrap_or(Skip::Omit),
        rule: rule_with(freq, end, parts.parts),
    })
}

/// The rule that the value of a line states.
#[tactic(auto, unfolding(crate::specs::Reading::stated_skip))]
pub(crate) fn stated_skip(
    alloc: Global,
    line: u64,
    text: &[u8],
) -> Result<StatedRule<SkipRule>, Fault>
    ensures { Answers (stated_skip line text.now) result }
{
    let parts = scale_parts(alloc, line, text)?;
    let until = parts.parts.until;
    let rule = skip_rule_of(line, parts)?;
    Ok(StatedRule::new(alloc, rule, until)?)
}

/// The rule with its end beside the start.
#[tactic(auto, unfolding(crate::specs::Reading::skip_rule_beside))]
pub(crate) fn skip_rule_beside(
    setting: Setting,
    line: u64,
    stated: StatedRule<SkipRule>,
) -> Result<SkipRule, Refusal>
    ensures { result ≡ skip_rule_beside setting.offset setting.start line stated }
{
    let until = stated.until();
    let mut rule = stated.into_rule();
    let end = end_beside(setting.offset, setting.start, line, until, rule.rule.end)?;
    rule.rule.end = end;
    Ok(rule)
}
