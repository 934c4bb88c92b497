// Instances whose series lies in another calendar (RFC 5545, section 3.8.4.4).
ghost use Rattle.std.specs.Prelude.{◌≡◌, IfOk, OnOk, Ok, not};
ghost use Rattle.rr_seam.specs.Steps.{AnswersKey, key_in_turn};
ghost use Rattle.rr_icalfile.specs.Edited.{common_start, edited_alone, first_number, has_name, no_names, recurrence_stamp, starts_of, stated_start, with_name, with_new_name, with_stamp, with_stated};

use crate::edit::{stamp_of, with_event_start};
use crate::event::Event;
use rr_ical::{Setting, date_value};
use rr_model::{Fault, Kind, NoMemory, Refusal, Series, Stamp};
use rr_moved::{DateSet, ShiftSets, starts_of as series_of_starts};
use rr_seam::{KeyFault, KeyRefusal, at_event};
use std::alloc::Global;
use std::marker::Model;

// The RECURRENCE-IDs of instances as they stand: dates, local times and moments of UTC.
#[derive(Drop)]
struct NameSets {
    days: DateSet,
    local: DateSet,
    utc: DateSet,
}

impl Model for NameSets {
    ghost use Rattle.rr_icalfile.specs.Edited.{Names};

    ghost Value = { Names };

    ghost view = { λ s. record { days = s.days; local = s.local; utc = s.utc } };
}

impl NameSets {
    // No RECURRENCE-ID is read yet.
    fn new(alloc: Global) -> NameSets
        ensures { result ≡ no_names }
    {
        NameSets {
            days: DateSet::new(alloc),
            local: DateSet::new(alloc),
            utc: DateSet::new(alloc),
        }
    }

    // Puts one, and says whether it was not there before.
    fn put(&mut self, stamp: Stamp) -> Result<bool, NoMemory>
        ensures put { OnOk result (self.new ≡ with_stamp self.old stamp) }
        ensures added { IfOk result (λ added. has_name self.old stamp ≡ not added) }
    {
        match (stamp.kind, stamp.utc) {
            (Kind::Days, _) => self.days.put(stamp.at),
            (Kind::Moments, false) => self.local.put(stamp.at),
            (Kind::Moments, true) => self.utc.put(stamp.at),
        }
    }
}

// The date or moment of the RECURRENCE-ID of an event.
fn recurrence_stamp(event: &Event) -> Result<Stamp, Refusal>
    ensures { result ≡ recurrence_stamp event.now.recurrence }
{
    match &event.recurrence {
        None => Err(Refusal::NoStart),
        Some(recurrence) => date_value(recurrence.line, recurrence.value.as_slice()),
    }
}

// The names with that of a further instance; it is refused if they have it.
fn with_new_name(names: NameSets, event: &Event, stamp: Stamp) -> Result<NameSets, KeyFault>
    ensures { AnswersKey (with_new_name names event.now stamp) result }
{
    let mut names = names;
    if names.put(stamp)? {
        Ok(names)
    } else {
        Err(KeyFault::Refused(KeyRefusal::TwoInstances(event.first)))
    }
}

// The names with the RECURRENCE-ID of a further instance, or why that is refused.
fn with_name(names: NameSets, event: &Event) -> Result<NameSets, KeyFault>
    ensures { AnswersKey (with_name names event.now) result }
{
    match recurrence_stamp(event) {
        Ok(stamp) => with_new_name(names, event, stamp),
        Err(refusal) => Err(at_event(event.first, Fault::Refused(refusal))),
    }
}

// The RECURRENCE-IDs of instances, no two of which are the same.
fn names_of(alloc: Global, instances: &[Event]) -> Result<NameSets, KeyFault>
    ensures { AnswersKey (key_in_turn with_name no_names instances.now) result }
{
    let mut names = NameSets::new(alloc);
    for event in instances {
        names = with_name(names, event)?;
    }
    Ok(names)
}

// The start that an instance states, unless it is cancelled.
fn stated_start(event: &Event) -> Option<Stamp>
    ensures { result ≡ stated_start event.now }
{
    if event.is_cancelled {
        return None;
    }
    match stamp_of(&event.scan) {
        Ok(stamp) => Some(stamp),
        Err(_) => None,
    }
}

// The start for several instances is the first one, in UTC if all are.
fn with_stated(start: Option<Stamp>, stated: Option<Stamp>) -> Option<Stamp>
    ensures { result ≡ with_stated start stated }
{
    match (start, stated) {
        (start, None) => start,
        (None, Some(stamp)) => Some(stamp),
        (Some(start), Some(stamp)) => Some(Stamp {
            kind: start.kind,
            at: start.at,
            utc: start.utc && stamp.utc,
        }),
    }
}

/// The start beside which each of these instances starts.
pub(crate) fn common_start(instances: &[Event]) -> Stamp
    ensures { result ≡ common_start instances.now }
{
    let mut start = None;
    for event in instances {
        start = with_stated(start, stated_start(event));
    }
    start.unwrap_or(Stamp {
        kind: Kind::Days,
        at: 0,
        utc: false,
    })
}

// The moments at which instances start.
fn starts_of(alloc: Global, setting: Setting, instances: &[Event]) -> Result<ShiftSets, KeyFault>
    ensures { AnswersKey (starts_of setting.offset setting.start instances.now) result }
{
    let mut shifts = ShiftSets::new(alloc);
    for event in instances {
        shifts = with_event_start(alloc, setting, shifts, event)?;
    }
    Ok(shifts)
}

/// The number of the line that begins the first of these instances, 0 if there are none.
pub(crate) fn first_number(instances: &[Event]) -> u64
    ensures { result ≡ first_number instances.now }
{
    match instances {
        [event, ..] => event.first,
        [] => 0,
    }
}

/// Instances without a series, whatever their order.
pub(crate) fn edited_alone(
    alloc: Global,
    offset: Option<i32>,
    instances: &[Event],
) -> Result<Series, KeyFault>
    ensures { AnswersKey (edited_alone offset instances.now) result }
{
    names_of(alloc, instances)?;
    let start = common_start(instances);
    let shifts = starts_of(alloc, Setting { offset, start }, instances)?;
    series_of_starts(alloc, first_number(instances), start.kind, &shifts)
}
