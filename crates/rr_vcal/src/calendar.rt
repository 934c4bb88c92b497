// Reads a vCalendar 1.0 text.
ghost use Rattle.std.specs.Prelude.{◌≡◌, IfOk};
ghost use Rattle.rr_model.specs.Answers.{Answers};
ghost use Rattle.rr_model.specs.Vcal.Reading.{vseries_of_event, reads_vcal};
ghost use Rattle.rr_model.specs.Vcal.Validity.{IsValidVSeries};
ghost use Rattle.rr_vcal.specs.Scans.{vcal_scan};

use crate::language::VcalLanguage;
use rr_ical::{ReadEvent, event_lines, event_of};
use rr_model::{Fault, NoMemory, Scan, VRule, VRules, VSeries};
use rr_text::without_mark;
use std::alloc::Global;

// The rules as a series holds them.
fn rules_of(alloc: Global, items: Vec<VRule>) -> Result<VRules, NoMemory>
    ensures { IfOk result (λ rules. rules ≡ items.items) }
{
    let mut rules = VRules::new(alloc);
    for rule in items {
        rules.put(rule)?;
    }
    Ok(rules)
}

// The series of an event; its start counts.
fn vseries_of(alloc: Global, event: ReadEvent<VRule>) -> Result<VSeries, NoMemory>
    ensures { IfOk result (λ series. series ≡ vseries_of_event event) }
{
    let start = event.start;
    let beside = event.beside;
    Ok(VSeries {
        kind: start.kind,
        start: start.at,
        rules: rules_of(alloc, beside.rules)?,
        excluded: rules_of(alloc, beside.excluded)?,
        plus: beside.plus,
        minus: beside.minus,
    })
}

/// The series that the used lines of one event state. The offset is local time less UTC in seconds; see `read`, which
/// refuses in the same order.
pub fn read_scan(alloc: Global, offset: Option<i32>, scan: &Scan) -> Result<VSeries, Fault>
    ensures { Answers (vcal_scan offset scan.now) result }
{
    let event = event_of(&VcalLanguage, alloc, offset, scan)?;
    Ok(vseries_of(alloc, event)?)
}

#[tactic(auto, unfolding(rr_model::specs::Vcal::Reading::reads_vcal))]
fn read_text(alloc: Global, offset: Option<i32>, bytes: &[u8]) -> Result<VSeries, Fault>
    ensures { Answers (reads_vcal offset bytes.now) result }
{
    let scan = event_lines(alloc, without_mark(bytes), true)?;
    read_scan(alloc, offset, &scan)
}

/// Reads the series of the one event of a vCalendar 1.0 text, or of a text without components.
///
/// The bytes need not be UTF-8. The offset is local time less UTC in seconds. It turns a moment of UTC that stands beside
/// a start of local time; without it such a moment is refused. Used are DTSTART, the start, which counts, RRULE, EXRULE,
/// RDATE and EXDATE; their parameters and all other lines are passed over, and so is one byte order mark. A line that is
/// folded keeps the blank at the fold. A rule without an end has two events, and a bare rule takes the item of the start. A text of more
/// than `MAX_INPUT` bytes is read like any other.
///
/// The first fault is the refusal. Line by line, from left to right, come what `rr_ical::event_lines` refuses; of DTSTART
/// `PartTwice`, `BadMoment`; of each value of RDATE or EXDATE `TooManyParts`, `PeriodValue` in RDATE, `BadMoment`; of RRULE
/// and EXRULE `TooManyParts`, then word by word `BadRule`, `BadMoment` of an end moment, `PartTwice` of a second number of events or
/// end moment, `NumberRange`. At the end of the text `BadLine` for an open component, `NoStart`. Then
/// line by line beside the start, of each date `MixedKinds`, of each date and end moment `UtcMoment` without an offset, and
/// `BadMoment` if the offset leaves the years 1 to 9999. A refusal names the first physical line of the line at fault.
pub fn read(alloc: Global, bytes: &[u8], offset: Option<i32>) -> Result<VSeries, Fault>
    ensures answers { Answers (reads_vcal offset bytes.now) result }
    ensures valid { IfOk result IsValidVSeries }
{
    read_text(alloc, offset, bytes)
}
