// Both passes over the used lines of an event (RFC 5545, section 3.8).
ghost use Rattle.rr_model.specs.Answers.{Answers};
ghost use Rattle.rr_model.specs.Text.Passes.{passes};
ghost use Rattle.rr_ical.specs.Kept.{kept_event};

use crate::language::RuleLanguage;
use crate::lines_alone::first_pass;
use crate::lines_beside::{BesideStart, Setting, second_pass};
use rr_model::{Fault, Refusal, Scan, Stamp};
use std::alloc::Global;
use std::marker::Model;

/// The start of an event with the rules and dates beside it.
#[derive(Drop)]
pub struct ReadEvent<R> {
    /// DTSTART as its line states it.
    pub start: Stamp,
    /// The rules and dates beside it, with their moments turned into its local time.
    pub beside: BesideStart<R>,
}

impl<R> Model for ReadEvent<R> {
    ghost use Rattle.rr_model.specs.Text.Passes.{Event};

    ghost Value = { Event R };

    ghost view = { λ e. record { start = e.start; beside = e.beside } };
}

// The event of the used lines, each value read once.
fn kept_event<R: Drop, L: RuleLanguage<R>>(
    language: &L,
    alloc: Global,
    offset: Option<i32>,
    scan: &Scan,
) -> Result<ReadEvent<R>, Fault>
    ensures { Answers (kept_event L.language (L.beside offset) offset scan.now) result }
{
    let read = first_pass(language, alloc, scan.used.as_slice())?;
    if let Some(refusal) = scan.stop {
        return Err(Fault::Refused(refusal));
    }
    let Some(start) = read.pass.start else {
        return Err(Fault::Refused(Refusal::NoStart));
    };
    let beside = second_pass(language, alloc, Setting { offset, start }, read.values)?;
    Ok(ReadEvent { start, beside })
}

/// The event that used lines state in a language of rules: its start, and its rules and dates beside it.
///
/// Line by line, from left to right, come of DTSTART `PartTwice`, `BadMoment`; of each value of RDATE or EXDATE `TooManyParts`,
/// `PeriodValue` in RDATE, `BadMoment`; of RRULE and EXRULE `TooManyParts`, then what the language refuses. Then come the fault of
/// the components, `NoStart`, and line by line beside the start, of each date `MixedKinds`, `UtcMoment` without an offset,
/// `BadMoment` if the offset leaves the years 1 to 9999, and of a rule what the language refuses there.
pub fn event_of<R: Drop, L: RuleLanguage<R>>(
    language: &L,
    alloc: Global,
    offset: Option<i32>,
    scan: &Scan,
) -> Result<ReadEvent<R>, Fault>
    ensures { Answers (passes L.language (L.beside offset) offset scan.now) result }
{
    kept_event(language, alloc, offset, scan)
}
