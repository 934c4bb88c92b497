// A rule beside the start of its series.
ghost use Rattle.std.specs.Prelude.{◌≡◌, ◌≤◌, IfOk, pos};
ghost use Rattle.rr_model.specs.Answers.{Answers};
ghost use Rattle.rr_model.specs.Calendar.{IsDayWithin};
ghost use Rattle.rr_model.specs.Moment.Years.{IsInYears};
ghost use Rattle.rr_model.specs.Vcal.Reading.{own_items, filled_items, vrule_beside};

use rr_cal::{date_of, day_of_year, weekday};
use rr_ical::{Setting, StatedRule, end_beside};
use rr_model::{FamilyKind, Fault, Item, Items, NoMemory, VRule, day_part};
use std::alloc::Global;

// The item of a day, for a rule that lists none.
fn own_items(alloc: Global, family: FamilyKind, day: i64) -> Result<Items, NoMemory>
    requires { IsDayWithin 1000 day }
    ensures { IfOk result (λ items. items ≡ own_items family day) }
{
    let mut items = Items::new(alloc);
    let date = date_of(day);
    match family {
        FamilyKind::D => items.put(Item::Every)?,
        FamilyKind::W => items.put(Item::Weekday(weekday(day)))?,
        FamilyKind::MD => items.put(Item::MonthDay(as_place(date.day)))?,
        FamilyKind::MP => {}
        FamilyKind::YM => items.put(Item::Month(date.month))?,
        FamilyKind::YD => items.put(Item::YearDay(day_of_year(date)))?,
    }
    Ok(items)
}

// A day of the month as an item holds it.
fn as_place(day: u8) -> i8
    requires { day ≤ 31 }
    ensures { result ≡ pos day }
{
    day as i8
}

// The items, or the start's own if none stands.
fn filled_items(
    alloc: Global,
    family: FamilyKind,
    day: i64,
    items: Items,
) -> Result<Items, NoMemory>
    requires { IsDayWithin 1000 day }
    ensures { IfOk result (λ filled. filled ≡ filled_items family day items) }
{
    if items.as_slice().is_empty() {
        own_items(alloc, family, day)
    } else {
        Ok(items)
    }
}

/// The rule beside the start: its end moment, then the start's own item if it lists none.
#[tactic(auto, unfolding(rr_model::specs::Vcal::Reading::vrule_beside))]
pub(crate) fn vrule_beside(
    alloc: Global,
    setting: Setting,
    line: u64,
    stated: StatedRule<VRule>,
) -> Result<VRule, Fault>
    requires { IsInYears setting.start.kind setting.start.at }
    ensures { Answers (vrule_beside setting.offset setting.start line stated) result }
{
    let start = setting.start;
    let until = stated.until();
    let mut rule = stated.into_rule();
    let end = end_beside(setting.offset, start, line, until, rule.end)?;
    rule.items = filled_items(
        alloc,
        rule.family,
        day_part(start.kind, start.at),
        rule.items,
    )?;
    rule.end = end;
    Ok(rule)
}
