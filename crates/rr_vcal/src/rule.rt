// The rule that a line states.
ghost use Rattle.std.specs.Prelude.{◌≡◌, ◌==◌, if◌then◌else◌, IfOk, IfSome, None};
ghost use Rattle.std.specs.List.{slice_split};
ghost use Rattle.rr_model.specs.Answers.{Answers};
ghost use Rattle.rr_model.specs.Text.Rules.{is_blank};
ghost use Rattle.rr_model.specs.Text.Steps.{in_turn};
ghost use Rattle.rr_model.specs.Vcal.Rule.{with_piece, whole_parts, end_of_words, stated_parts, stated_vrule};
ghost use Rattle.rr_model.specs.declared.rule.End.TheVariants.{Never, Until, Count, Both};
ghost use Rattle.rr_vcal.specs.Parts.{IsValidParts};

use crate::heads::parts_of_head;
use crate::words::{is_list_whole, with_word};
use rr_ical::StatedRule;
use rr_model::{End, Fault, NoMemory, Refusal, Stamp, VRule, VRuleParts};
use rr_text::line_value;
use std::alloc::Global;

// A piece between blanks: an empty one is passed over, and the first other one is the head.
fn with_piece(
    alloc: Global,
    line: u64,
    parts: Option<VRuleParts>,
    text: &[u8],
) -> Result<Option<VRuleParts>, Fault>
    requires { IfSome parts IsValidParts }
    ensures { Answers (with_piece line parts text.now) result }
{
    if text.is_empty() {
        return Ok(parts);
    }
    match parts {
        None => Ok(Some(parts_of_head(alloc, line, text)?)),
        Some(parts) => Ok(Some(with_word(alloc, line, parts, text)?)),
    }
}

// The pieces of a value between blanks.
fn with_pieces(alloc: Global, line: u64, text: &[u8]) -> Result<Option<VRuleParts>, Fault>
    ensures { Answers (in_turn (with_piece line) None (slice_split is_blank text.now)) result }
{
    let mut parts = None;
    for piece in text.split(|b| *b == b' ' || *b == b'\t') {
        parts = with_piece(alloc, line, parts, piece)?;
    }
    Ok(parts)
}

// After the last word there is a head, and the list is whole.
fn finish(line: u64, parts: Option<VRuleParts>) -> Result<VRuleParts, Refusal>
    ensures { result ≡ whole_parts line parts }
{
    let Some(parts) = parts else {
        return Err(Refusal::BadRule(line));
    };
    if is_list_whole(&parts) {
        Ok(parts)
    } else {
        Err(Refusal::BadRule(line))
    }
}

// The end of a rule that states an end moment and no number of events.
fn end_by_moment(until: Stamp) -> End
    ensures { result ≡ Until until.kind until.at }
{
    End::Until {
        kind: until.kind,
        at: until.at,
    }
}

// The end of a rule that states a number of events and no end moment; 0 is for ever (vCalendar 1.0, duration of a
// rule).
fn end_by_count(count: u64) -> End
    ensures { result ≡ (if count == 0 then Never else Count count) }
{
    if count == 0 {
        End::Never
    } else {
        End::Count(count)
    }
}

// Both, if the number of events is not 0: the earlier end holds.
fn end_by_both(count: u64, until: Stamp) -> End
    ensures { result
        ≡ (if count == 0 then Until until.kind until.at else Both until.kind until.at count) }
{
    if count == 0 {
        return end_by_moment(until);
    }
    End::Both {
        kind: until.kind,
        at: until.at,
        count,
    }
}

// The end of a rule: two events if it states neither end, and none if the number of events is 0.
fn end_of_words(count: Option<u64>, until: Option<Stamp>) -> End
    ensures { result ≡ end_of_words count until }
{
    match (count, until) {
        (None, None) => End::Count(2),
        (Some(count), None) => end_by_count(count),
        (None, Some(until)) => end_by_moment(until),
        (Some(count), Some(until)) => end_by_both(count, until),
    }
}

fn stated_parts(alloc: Global, parts: VRuleParts) -> Result<StatedRule<VRule>, NoMemory>
    ensures { IfOk result (λ stated. stated ≡ stated_parts parts) }
{
    let rule = VRule {
        family: parts.family,
        interval: parts.interval,
        items: parts.items,
        end: end_of_words(parts.count, parts.until),
    };
    StatedRule::new(alloc, rule, parts.until)
}

/// The rule that the value of a line states; a bare one has no items yet.
#[tactic(auto, unfolding(rr_model::specs::Vcal::Rule::stated_vrule))]
pub(crate) fn stated_vrule(
    alloc: Global,
    line: u64,
    text: &[u8],
) -> Result<StatedRule<VRule>, Fault>
    ensures { Answers (stated_vrule line text.now) result }
{
    let value = line_value(alloc, text)?;
    let pieces = with_pieces(alloc, line, &value)?;
    let parts = finish(line, pieces)?;
    Ok(stated_parts(alloc, parts)?)
}
