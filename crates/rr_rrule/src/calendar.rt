// Reads an iCalendar text (RFC 5545, sections 3.4 and 3.8.5).
ghost use Rattle.std.specs.Prelude.{◌≡◌, IfOk};
ghost use Rattle.rr_model.specs.Answers.{Answers};
ghost use Rattle.rr_model.specs.Moment.Years.{IsInYears};
ghost use Rattle.rr_model.specs.Series.Validity.{IsValidSeries};
ghost use Rattle.rr_rule_parts.specs.Calendars.{series_of_event, calendar_scan, calendar_text, reads_calendar};

use crate::stated::{rule_beside, stated_rule};
use rr_ical::{ReadEvent, RuleLanguage, Setting, StatedRule, event_lines, event_of};
use rr_model::{Fault, NoMemory, Refusal, Rule, Rules, Scan, Series};
use rr_text::{is_text, without_mark};
use std::alloc::Global;

// How rules of RFC 5545 are read.
struct RruleLanguage;

impl RuleLanguage<Rule> for RruleLanguage {
    ghost use Rattle.rr_rule_parts.specs.Calendars.{rrule_language, rule_beside};

    ghost language = { rrule_language };

    ghost beside = { rule_beside };

    fn takes_semicolons(&self) -> bool {
        false
    }

    fn stated(&self, alloc: Global, line: u64, text: &[u8]) -> Result<StatedRule<Rule>, Fault> {
        stated_rule(alloc, line, text)
    }

    fn rule_beside(
        &self,
        _alloc: Global,
        setting: Setting,
        line: u64,
        stated: StatedRule<Rule>,
    ) -> Result<Rule, Fault>
        requires { IsInYears setting.start.kind setting.start.at }
        ensures { Answers (rule_beside setting.offset setting.start line stated) result }
    {
        Ok(rule_beside(setting.offset, setting.start, line, stated)?)
    }
}

// The rules as a series holds them.
fn rules_of(alloc: Global, items: Vec<Rule>) -> Result<Rules, NoMemory>
    ensures { IfOk result (λ rules. rules ≡ items.items) }
{
    let mut rules = Rules::new(alloc);
    for rule in items {
        rules.put(rule)?;
    }
    Ok(rules)
}

// The series of an event; its start counts.
fn series_of(alloc: Global, event: ReadEvent<Rule>) -> Result<Series, NoMemory>
    ensures { IfOk result (λ series. series ≡ series_of_event event) }
{
    let start = event.start;
    let beside = event.beside;
    Ok(Series {
        kind: start.kind,
        start: start.at,
        start_counts: true,
        rules: rules_of(alloc, beside.rules)?,
        excluded: rules_of(alloc, beside.excluded)?,
        plus: beside.plus,
        minus: beside.minus,
    })
}

/// The series that the used lines of one event state. The offset is local time less UTC in seconds; see `read`, which
/// refuses in the same order.
pub fn read_scan(alloc: Global, offset: Option<i32>, scan: &Scan) -> Result<Series, Fault>
    ensures { Answers (calendar_scan offset scan.now) result }
{
    let event = event_of(&RruleLanguage, alloc, offset, scan)?;
    Ok(series_of(alloc, event)?)
}

#[tactic(auto, unfolding(rr_rule_parts::specs::Calendars::calendar_text))]
fn read_text(alloc: Global, offset: Option<i32>, text: &[u8]) -> Result<Series, Fault>
    ensures { Answers (calendar_text offset text.now) result }
{
    let scan = event_lines(alloc, without_mark(text), false)?;
    read_scan(alloc, offset, &scan)
}

/// Reads the series of the one event of an iCalendar text, or of a text without components (RFC 5545, section 3.8.5).
///
/// The offset is local time less UTC in seconds. It turns a moment of UTC that stands beside a start of local time;
/// without it such a moment is refused. Used are DTSTART, the start, which counts, RRULE, EXRULE, RDATE and EXDATE; their
/// parameters and all other lines are passed over, and so is one byte order mark. A text of more than `MAX_INPUT` bytes
/// is read like any other.
///
/// The first fault is the refusal. `NotText` comes for bytes that are no UTF-8. Then line by line, from left to right,
/// what `rr_ical::event_lines` refuses; of DTSTART `PartTwice`, `BadMoment`; of each value of RDATE or EXDATE
/// `TooManyParts`, `PeriodValue` in RDATE, `BadMoment`; of RRULE and EXRULE `TooManyParts`, then the faults of its parts,
/// then those of its parts together. At the end of the text `BadLine` for an open component, `NoStart`.
/// Then line by line beside the start, of each date `MixedKinds`, of each date and UNTIL `UtcMoment` without an offset,
/// `BadMoment` if the offset leaves the years 1 to 9999, and of a rule finer than DAILY beside a date `NotAllowed`.
/// A refusal names the first physical line of the line at fault.
#[tactic(auto, unfolding(rr_rule_parts::specs::Calendars::reads_calendar))]
pub fn read(alloc: Global, bytes: &[u8], offset: Option<i32>) -> Result<Series, Fault>
    ensures answers { Answers (reads_calendar offset bytes.now) result }
    ensures valid { IfOk result IsValidSeries }
{
    if !is_text(bytes) {
        return Err(Fault::Refused(Refusal::NotText));
    }
    read_text(alloc, offset, bytes)
}
