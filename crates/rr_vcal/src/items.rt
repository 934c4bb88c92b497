// The words of a rule's list.
ghost use Rattle.std.specs.Prelude.{◌≡◌, All, IfOk};
ghost use Rattle.rr_model.specs.Answers.{Answers};
ghost use Rattle.rr_model.specs.Text.RuleValues.{weekday_named};
ghost use Rattle.rr_model.specs.Vcal.Rule.{put_item, put_places, short_number_up_to, with_group_weekday, with_group_place, with_group_word, with_list_word};
ghost use Rattle.rr_model.specs.declared.item.Item.TheVariants.{Place};
ghost use Rattle.rr_vcal.specs.Parts.{IsPlace, IsValidParts};

use crate::numbers::{marked_place, month_day_of, short_number_up_to};
use rr_model::{FamilyKind, Fault, Item, Items, NoMemory, Numbers, Refusal, VRuleParts};
use rr_text::{weekday_named, weekday_of};
use std::alloc::Global;

// A place of a weekday as an item holds it.
fn place_item(place: i16, weekday: u8) -> Item
    requires { IsPlace place }
    ensures { result ≡ Place place weekday }
{
    Item::Place {
        place: place as i8,
        weekday,
    }
}

// The items, and every place with this weekday.
fn put_places(items: Items, weekday: u8, places: &[i16]) -> Result<Items, NoMemory>
    requires { All IsPlace places.now }
    ensures { IfOk result (λ more. more ≡ put_places items weekday places.now) }
{
    let mut items = items;
    for place in places {
        items.put(place_item(*place, weekday))?;
    }
    Ok(items)
}

// A weekday of a group, which has places before it.
fn with_group_weekday(line: u64, parts: VRuleParts, weekday: u8) -> Result<VRuleParts, Fault>
    requires { IsValidParts parts }
    ensures { Answers (with_group_weekday line parts weekday) result }
{
    if parts.places.is_empty() {
        return Err(Fault::Refused(Refusal::BadRule(line)));
    }
    let mut parts = parts;
    parts.items = put_places(parts.items, weekday, parts.places.as_slice())?;
    parts.has_weekday = true;
    Ok(parts)
}

// A place of a group, which begins a new group after a weekday.
fn with_group_place(alloc: Global, parts: VRuleParts, place: i8) -> Result<VRuleParts, NoMemory>
    ensures { IfOk result (λ more. more ≡ with_group_place parts place) }
{
    let mut parts = parts;
    if parts.has_weekday {
        parts.places = Numbers::new(alloc);
    }
    parts.places.put(i16::from(place))?;
    parts.has_weekday = false;
    Ok(parts)
}

// The parts with a further word in a group of places: a place, or the weekday that ends the group.
fn with_group_word(
    alloc: Global,
    line: u64,
    parts: VRuleParts,
    text: &[u8],
) -> Result<VRuleParts, Fault>
    requires { IsValidParts parts }
    ensures { Answers (with_group_word line parts (weekday_named text.now) text.now) result }
{
    match weekday_named(text) {
        Some(weekday) => with_group_weekday(line, parts, weekday),
        None => {
            let place = marked_place(line, 5, text)?;
            Ok(with_group_place(alloc, parts, place)?)
        }
    }
}

// The parts with an item put after those they have.
fn put_item(parts: VRuleParts, item: Item) -> Result<VRuleParts, NoMemory>
    ensures { IfOk result (λ more. more ≡ put_item parts item) }
{
    let mut parts = parts;
    parts.items.put(item)?;
    Ok(parts)
}

// The month of a word.
fn month_of(line: u64, text: &[u8]) -> Result<u8, Refusal>
    ensures { result ≡ short_number_up_to line 12 text.now }
{
    let month = short_number_up_to(line, 12, text)?;
    Ok(month as u8)
}

/// The parts with a further word of the rule's list, or why it is refused: `BadRule` with this line if the kind has no
/// list.
pub(crate) fn with_list_word(
    alloc: Global,
    line: u64,
    parts: VRuleParts,
    text: &[u8],
) -> Result<VRuleParts, Fault>
    requires { IsValidParts parts }
    ensures { Answers (with_list_word line parts parts.family text.now) result }
{
    match parts.family {
        FamilyKind::D => Err(Fault::Refused(Refusal::BadRule(line))),
        FamilyKind::W => {
            let weekday = weekday_of(line, text)?;
            Ok(put_item(parts, Item::Weekday(weekday))?)
        }
        FamilyKind::MD => {
            let day = month_day_of(line, text)?;
            Ok(put_item(parts, Item::MonthDay(day))?)
        }
        FamilyKind::MP => with_group_word(alloc, line, parts, text),
        FamilyKind::YM => {
            let month = month_of(line, text)?;
            Ok(put_item(parts, Item::Month(month))?)
        }
        FamilyKind::YD => {
            let day = short_number_up_to(line, 366, text)?;
            Ok(put_item(parts, Item::YearDay(day))?)
        }
    }
}
