// The head of a rule: its kind, and directly after it its interval.
ghost use Rattle.std.specs.Prelude.{◌≡◌, IfOk, option_map};
ghost use Rattle.rr_model.specs.Answers.{Answers};
ghost use Rattle.rr_model.specs.Text.Rules.{text_after};
ghost use Rattle.rr_model.specs.Vcal.Rule.{Head, head_of, first_items, parts_of_head};

use rr_model::{FamilyKind, Fault, Item, Items, NoMemory, Numbers, Refusal, VRuleParts};
use rr_text::interval_of;
use std::alloc::Global;

/// What follows letters at the front of a text.
pub(crate) fn text_after<'a>(letters: &[u8], text: &'a [u8]) -> Option<&'a [u8]>
    ensures { option_map (λ rest. rest.now) result ≡ text_after letters.now text.now }
{
    text.strip_prefix(letters)
}

// The kind by its letters, and what follows them.
#[tactic(auto, unfolding(rr_model::specs::Vcal::Rule::head_of))]
fn head_of(text: &[u8]) -> Option<(FamilyKind, &[u8])>
    ensures { option_map (λ head. record { family = head.0; rest = head.1.now }) result
        ≡ head_of text.now }
{
    if let Some(rest) = text_after(b"MD", text) {
        return Some((FamilyKind::MD, rest));
    }
    if let Some(rest) = text_after(b"MP", text) {
        return Some((FamilyKind::MP, rest));
    }
    if let Some(rest) = text_after(b"YM", text) {
        return Some((FamilyKind::YM, rest));
    }
    if let Some(rest) = text_after(b"YD", text) {
        return Some((FamilyKind::YD, rest));
    }
    if let Some(rest) = text_after(b"D", text) {
        return Some((FamilyKind::D, rest));
    }
    match text_after(b"W", text) {
        Some(rest) => Some((FamilyKind::W, rest)),
        None => None,
    }
}

// A daily rule has its one item.
fn first_items(alloc: Global, family: FamilyKind) -> Result<Items, NoMemory>
    ensures { IfOk result (λ items. items ≡ first_items family) }
{
    let mut items = Items::new(alloc);
    if let FamilyKind::D = family {
        items.put(Item::Every)?;
    }
    Ok(items)
}

/// The parts that the first word of a rule states.
#[tactic(auto, unfolding(rr_model::specs::Vcal::Rule::parts_of_head))]
pub(crate) fn parts_of_head(alloc: Global, line: u64, text: &[u8]) -> Result<VRuleParts, Fault>
    ensures { Answers (parts_of_head line text.now) result }
{
    let Some((family, rest)) = head_of(text) else {
        return Err(Fault::Refused(Refusal::BadRule(line)));
    };
    let interval = interval_of(line, rest)?;
    let items = first_items(alloc, family)?;
    Ok(VRuleParts {
        family,
        interval,
        items,
        places: Numbers::new(alloc),
        has_weekday: false,
        count: None,
        until: None,
    })
}
