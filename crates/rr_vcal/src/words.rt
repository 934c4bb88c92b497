// The words of a rule after its head.
ghost use Rattle.std.specs.Prelude.{◌≡◌};
ghost use Rattle.rr_model.specs.Answers.{Answers};
ghost use Rattle.rr_model.specs.Vcal.Rule.{is_list_whole, is_moment_word, with_end_moment, with_count, within_list, with_word};
ghost use Rattle.rr_vcal.specs.Parts.{IsValidParts};

use crate::heads::text_after;
use crate::items::with_list_word;
use rr_model::{FamilyKind, Fault, Refusal, VRuleParts};
use rr_text::{all_digits, is_letter_t, moment_of, whole_number};
use std::alloc::Global;

/// Whether the list can end here: in a rule by places there is a group, whose last place has a weekday after it.
pub(crate) fn is_list_whole(parts: &VRuleParts) -> bool
    ensures { result ≡ is_list_whole parts.now.family parts.now }
{
    match parts.family {
        FamilyKind::MP => !parts.places.is_empty() && parts.has_weekday,
        FamilyKind::D | FamilyKind::W | FamilyKind::MD | FamilyKind::YM | FamilyKind::YD => true,
    }
}

// Whether a word is eight digits, or has T after them.
fn is_moment_word(text: &[u8]) -> bool
    ensures { result ≡ is_moment_word text.now }
{
    text.len() >= 8 && all_digits(&text[..8]) && (text.len() == 8 || is_letter_t(text[8]))
}

// An end moment: first its form, then whether one stood before.
fn with_end_moment(line: u64, parts: VRuleParts, text: &[u8]) -> Result<VRuleParts, Refusal>
    ensures { result ≡ with_end_moment line parts text.now }
{
    let stamp = moment_of(line, text)?;
    if parts.until.is_some() {
        return Err(Refusal::PartTwice(line));
    }
    Ok(VRuleParts {
        until: Some(stamp),
        ..parts
    })
}

// A number of events: first its form, then whether one stood before, then its range.
fn with_count(line: u64, parts: VRuleParts, text: &[u8]) -> Result<VRuleParts, Refusal>
    ensures { result ≡ with_count line parts text.now }
{
    let Some(number) = whole_number(text) else {
        return Err(Refusal::BadRule(line));
    };
    if parts.count.is_some() {
        return Err(Refusal::PartTwice(line));
    }
    if number.over {
        return Err(Refusal::NumberRange(line));
    }
    Ok(VRuleParts {
        count: Some(number.value),
        ..parts
    })
}

// A word of the list, which may not stand after an end.
fn within_list(
    alloc: Global,
    line: u64,
    parts: VRuleParts,
    text: &[u8],
) -> Result<VRuleParts, Fault>
    requires { IsValidParts parts }
    ensures { Answers (within_list line parts text.now) result }
{
    if parts.count.is_some() || parts.until.is_some() {
        return Err(Fault::Refused(Refusal::BadRule(line)));
    }
    with_list_word(alloc, line, parts, text)
}

/// The parts with a further word after the head: an end moment, a number of events or an item of the list. Otherwise
/// the refusal, with this line.
#[tactic(auto, unfolding(rr_model::specs::Vcal::Rule::with_word))]
pub(crate) fn with_word(
    alloc: Global,
    line: u64,
    parts: VRuleParts,
    text: &[u8],
) -> Result<VRuleParts, Fault>
    requires { IsValidParts parts }
    ensures { Answers (with_word line parts text.now) result }
{
    if is_moment_word(text) {
        if !is_list_whole(&parts) {
            return Err(Fault::Refused(Refusal::BadRule(line)));
        }
        return Ok(with_end_moment(line, parts, text)?);
    }
    let Some(number) = text_after(b"#", text) else {
        return within_list(alloc, line, parts, text);
    };
    if !is_list_whole(&parts) {
        return Err(Fault::Refused(Refusal::BadRule(line)));
    }
    Ok(with_count(line, parts, number)?)
}
