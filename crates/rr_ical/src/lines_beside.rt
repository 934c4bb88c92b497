// The second pass over the used lines of an event puts rules and dates beside the start (RFC 5545, section 3.8.5).
ghost use Rattle.std.specs.Prelude.{◌≡◌, OnOk};
ghost use Rattle.rr_model.specs.Answers.{Answers};
ghost use Rattle.rr_model.specs.Moment.Years.{IsInYears};
ghost use Rattle.rr_model.specs.Text.Passes.{nothing_beside, put_date, put_rule, date_beside};
ghost use Rattle.rr_ical.specs.Steps.{Becomes};
ghost use Rattle.rr_ical.specs.Kept.{value_in, values_in};

use crate::beside::moment_beside;
use crate::kept::{LineValue, LineValues};
use crate::language::RuleLanguage;
use rr_model::{Dates, Fault, NoMemory, Refusal, Stamp};
use std::alloc::Global;
use std::marker::Model;

/// Rules, excluded rules and dates beside a start.
#[derive(Drop)]
pub struct BesideStart<R> {
    /// The rules of RRULE, in the order of their lines.
    pub rules: Vec<R>,
    /// The rules of EXRULE, in the order of their lines (RFC 2445, section 4.8.5.2).
    pub excluded: Vec<R>,
    /// The values of RDATE: day numbers or second numbers, as the start is a date or a moment.
    pub plus: Dates,
    /// The values of EXDATE: day numbers or second numbers, as the start is a date or a moment.
    pub minus: Dates,
}

impl<R> Model for BesideStart<R> {
    ghost use Rattle.rr_model.specs.Text.Passes.{Beside};

    ghost Value = { Beside R };

    ghost view = { λ n. record {
      rules = n.rules.items;
      excluded = n.excluded.items;
      plus = n.plus;
      minus = n.minus;
    } };
}

/// What the values of an event stand beside.
#[derive(Clone, Copy, Debug, PartialEq, Eq)]
pub struct Setting {
    /// The stated offset, local time less UTC, in seconds.
    pub offset: Option<i32>,
    /// DTSTART as its line states it.
    pub start: Stamp,
}

/// A date value beside the start.
///
/// `MixedKinds` comes for another kind than the start's; then what `end_beside` refuses.
pub fn date_beside(setting: Setting, line: u64, stamp: Stamp) -> Result<i64, Refusal>
    ensures { result ≡ date_beside setting.offset setting.start line stamp }
{
    if setting.start.kind.is_same(stamp.kind) {
        moment_beside(setting.offset, setting.start, line, stamp)
    } else {
        Err(Refusal::MixedKinds(line))
    }
}

// With one date more.
fn put_date<R: Drop>(is_plus: bool, beside: &mut BesideStart<R>, at: i64) -> Result<(), NoMemory>
    ensures { OnOk result (beside.new ≡ put_date is_plus beside.old at) }
{
    if is_plus {
        beside.plus.put(at)?;
    } else {
        beside.minus.put(at)?;
    }
    Ok(())
}

// With one rule more, of RRULE or EXRULE.
fn put_rule<R: Drop>(is_given: bool, beside: &mut BesideStart<R>, rule: R) -> Result<(), NoMemory>
    ensures { OnOk result (beside.new ≡ put_rule is_given beside.old rule) }
{
    if is_given {
        beside.rules.push(rule)?;
    } else {
        beside.excluded.push(rule)?;
    }
    Ok(())
}

// One value beside the start.
fn put_value<R: Drop, L: RuleLanguage<R>>(
    language: &L,
    alloc: Global,
    setting: Setting,
    beside: &mut BesideStart<R>,
    value: LineValue<R>,
) -> Result<(), Fault>
    requires { IsInYears setting.start.kind setting.start.at }
    ensures { Becomes (value_in L.beside setting beside.old value) beside.new result }
{
    match value {
        LineValue::OneDate {
            line,
            is_plus,
            stamp,
        } => {
            let at = date_beside(setting, line, stamp)?;
            put_date(is_plus, beside, at)?;
        }
        LineValue::OneRule {
            line,
            is_given,
            stated,
        } => {
            let rule = language.rule_beside(alloc, setting, line, stated)?;
            put_rule(is_given, beside, rule)?;
        }
    }
    Ok(())
}

fn nothing_beside<R: Drop>(alloc: Global) -> BesideStart<R>
    ensures { result ≡ nothing_beside }
{
    BesideStart {
        rules: Vec::new(alloc),
        excluded: Vec::new(alloc),
        plus: Dates::new(alloc),
        minus: Dates::new(alloc),
    }
}

/// The second pass: the rules and dates of the lines, judged beside the start.
pub(crate) fn second_pass<R: Drop, L: RuleLanguage<R>>(
    language: &L,
    alloc: Global,
    setting: Setting,
    values: LineValues<R>,
) -> Result<BesideStart<R>, Fault>
    requires { IsInYears setting.start.kind setting.start.at }
    ensures { Answers (values_in L.beside setting values) result }
{
    let mut beside = nothing_beside(alloc);
    for value in values.into_items() {
        put_value(language, alloc, setting, &mut beside, value)?;
    }
    Ok(beside)
}
