// Writes a rule.
ghost use Rattle.std.specs.Prelude.{◌≡◌, ◌++◌, codes, None, OnOk};
ghost use Rattle.std.specs.Fmt.{decimal};
ghost use Rattle.rr_model.specs.Rule.Validity.{EndsInYears};
ghost use Rattle.rr_model.specs.Text.Written.{basic_text, weekday_text};
ghost use Rattle.rr_model.specs.Vcal.Written.{family_text, marked_text, month_day_text, place_text, items_text, vcal_end_text, vrule_text};
ghost use Rattle.rr_model.specs.Moment.Years.{IsInYears};
ghost use Rattle.rr_vcal.specs.Writing.{place_of_item, item_text};
ghost use Rattle.rr_text.specs.Appending.{Appends};

use rr_model::{End, FamilyKind, Item, Kind, NoMemory, VRule};
use rr_text::{push_basic, push_unsigned, weekday_text};

// The letters of a kind.
#[tactic(auto, unfolding(rr_model::specs::Vcal::Written::family_text))]
fn family_letters(family: FamilyKind) -> &'static [u8]
    ensures { result.now ≡ family_text family }
{
    match family {
        FamilyKind::D => b"D",
        FamilyKind::W => b"W",
        FamilyKind::MD => b"MD",
        FamilyKind::MP => b"MP",
        FamilyKind::YM => b"YM",
        FamilyKind::YD => b"YD",
    }
}

// A weekday after a blank.
fn push_weekday(out: &mut Vec<u8>, weekday: u8) -> Result<(), NoMemory>
    ensures { OnOk result (Appends out.old out.new (codes " " ++ weekday_text weekday)) }
{
    out.push(b' ')?;
    out.extend_from_slice(weekday_text(weekday))?;
    Ok(())
}

// A number after a blank.
fn push_number(out: &mut Vec<u8>, number: u16) -> Result<(), NoMemory>
    ensures { OnOk result (Appends out.old out.new (codes " " ++ decimal number)) }
{
    out.push(b' ')?;
    push_unsigned(out, u64::from(number))
}

// A place from the front with `+`, from the back with `-`.
fn push_marked(out: &mut Vec<u8>, place: i8) -> Result<(), NoMemory>
    ensures { OnOk result (Appends out.old out.new (marked_text place)) }
{
    push_unsigned(out, u64::from(place.unsigned_abs()))?;
    out.push(if place < 0 { b'-' } else { b'+' })?;
    Ok(())
}

// A day of the month; the last is LD.
fn push_month_day(out: &mut Vec<u8>, day: i8) -> Result<(), NoMemory>
    ensures { OnOk result (Appends out.old out.new (month_day_text day)) }
{
    if day == -1 {
        out.extend_from_slice(b"LD")?;
        return Ok(());
    }
    if day < 0 {
        return push_marked(out, day);
    }
    push_unsigned(out, u64::from(day.unsigned_abs()))
}

// Appends a place, unless it is the one before it.
fn push_place(out: &mut Vec<u8>, before: Option<i8>, place: i8) -> Result<(), NoMemory>
    ensures { OnOk result (Appends out.old out.new (place_text before place)) }
{
    if before == Some(place) {
        return Ok(());
    }
    out.push(b' ')?;
    push_marked(out, place)
}

// An item after the place of the one before it.
fn push_item(out: &mut Vec<u8>, before: Option<i8>, item: Item) -> Result<(), NoMemory>
    ensures { OnOk result (Appends out.old out.new (item_text before item)) }
{
    match item {
        Item::Every => Ok(()),
        Item::Weekday(weekday) => push_weekday(out, weekday),
        Item::MonthDay(day) => {
            out.push(b' ')?;
            push_month_day(out, day)
        }
        Item::Place { place, weekday } => {
            push_place(out, before, place)?;
            push_weekday(out, weekday)
        }
        Item::Month(month) => push_number(out, u16::from(month)),
        Item::YearDay(day) => push_number(out, day),
    }
}

// The place of an item, which the next one need not repeat.
fn place_of_item(item: Item) -> Option<i8>
    ensures { result ≡ place_of_item item }
{
    match item {
        Item::Place { place, weekday: _ } => Some(place),
        Item::Every | Item::Weekday(_) | Item::MonthDay(_) | Item::Month(_) | Item::YearDay(_) =>
            None,
    }
}

// The items, each after a blank.
fn push_items(out: &mut Vec<u8>, items: &[Item]) -> Result<(), NoMemory>
    ensures { OnOk result (Appends out.old out.new (items_text None items.now)) }
{
    let mut before = None;
    for item in items {
        push_item(out, before, *item)?;
        before = place_of_item(*item);
    }
    Ok(())
}

// A number of events after a blank.
fn push_count(out: &mut Vec<u8>, count: u64) -> Result<(), NoMemory>
    ensures { OnOk result (Appends out.old out.new (codes " #" ++ decimal count)) }
{
    out.extend_from_slice(b" #")?;
    push_unsigned(out, count)
}

// An end moment after a blank.
fn push_until(out: &mut Vec<u8>, kind: Kind, at: i64) -> Result<(), NoMemory>
    requires { IsInYears kind at }
    ensures { OnOk result (Appends out.old out.new (codes " " ++ basic_text kind at)) }
{
    out.push(b' ')?;
    push_basic(out, kind, at)
}

// The end of a rule.
fn push_end(out: &mut Vec<u8>, end: End) -> Result<(), NoMemory>
    requires { EndsInYears end }
    ensures { OnOk result (Appends out.old out.new (vcal_end_text end)) }
{
    match end {
        End::Never => {
            out.extend_from_slice(b" #0")?;
            Ok(())
        }
        End::Count(count) => push_count(out, count),
        End::Until { kind, at } => push_until(out, kind, at),
        End::Both { kind, at, count } => {
            push_count(out, count)?;
            push_until(out, kind, at)
        }
    }
}

/// Appends a rule as it is written: its head, its items, and its end.
#[tactic(auto, unfolding(rr_model::specs::Vcal::Written::vrule_text))]
pub(crate) fn push_rule(out: &mut Vec<u8>, rule: &VRule) -> Result<(), NoMemory>
    requires { EndsInYears rule.now.end }
    ensures { OnOk result (Appends out.old out.new (vrule_text rule.now)) }
{
    out.extend_from_slice(family_letters(rule.family))?;
    push_unsigned(out, u64::from(rule.interval))?;
    push_items(out, rule.items.as_slice())?;
    push_end(out, rule.end)
}
