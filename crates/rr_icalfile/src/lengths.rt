// How long the occurrences of a key are (RFC 5545, sections 3.6.1, 3.8.2.2, 3.8.2.5 and 3.8.4.4).
ghost use Rattle.std.specs.Prelude.{◌≡◌, option_map, IfOk};
ghost use Rattle.rr_icalfile.specs.Lengths.{dated_in, dated_of, lengths_of, start_for, usual_of};

use crate::alone::common_start;
use crate::edit::{stamp_of, start_on};
use crate::event::Event;
use crate::gather::Gathered;
use rr_ical::Setting;
use rr_length::{Dated, KeyLengths, Length};
use rr_model::{Kind, NoMemory, Stamp};
use std::alloc::Global;

// The length of an instance at its start beside the start of its series, if both are told.
fn dated_of(setting: Setting, event: &Event) -> Option<Dated>
    ensures { result ≡ dated_of setting.offset setting.start event.now }
{
    match (start_on(setting, &event.scan), event.length) {
        (Ok(at), Some(length)) => Some(Dated { at, length }),
        (Ok(_), None) => None,
        (Err(_), _) => None,
    }
}

// The lengths of the instances that are not cancelled, unless one is not told.
fn dated_in(
    alloc: Global,
    setting: Setting,
    instances: &[Event],
) -> Result<Option<Vec<Dated>>, NoMemory>
    ensures { IfOk result (λ dated. option_map (λ lengths. lengths.items) dated
        ≡ dated_in setting.offset setting.start instances.now) }
{
    let mut dated = Vec::new(alloc);
    for event in instances {
        if event.is_cancelled {
            continue;
        }
        let Some(one) = dated_of(setting, event) else {
            return Ok(None);
        };
        dated.push(one)?;
    }
    Ok(Some(dated))
}

// The start beside which the instances of a key start: that of their series, otherwise their common start.
fn start_for(events: &Gathered) -> Option<Stamp>
    ensures { result ≡ start_for events.now.series events.now.instances }
{
    match events.series() {
        None => Some(common_start(events.instances())),
        Some(event) => stamp_of(&event.scan).ok(),
    }
}

// The usual length of a key: that of the event of its series; without one nothing occurs that has it.
fn usual_of(kind: Kind, events: &Gathered) -> Option<Length>
    ensures { result ≡ usual_of events.now.series kind }
{
    match events.series() {
        None => Some(Length::unstated(kind)),
        Some(event) => event.length,
    }
}

/// How long the occurrences of a key are: the usual length is that of the event of its series, and each instance that is not
/// cancelled has the length of its own lines, at its start beside the start of the series. `None` if one of these lengths or starts
/// can't be told.
pub(crate) fn lengths_of(
    alloc: Global,
    offset: Option<i32>,
    events: &Gathered,
) -> Result<Option<KeyLengths>, NoMemory>
    ensures { IfOk result (λ lengths. lengths ≡ lengths_of offset events.now) }
{
    let Some(start) = start_for(events) else {
        return Ok(None);
    };
    let Some(usual) = usual_of(start.kind, events) else {
        return Ok(None);
    };
    let Some(dated) = dated_in(alloc, Setting { offset, start }, events.instances())? else {
        return Ok(None);
    };
    Ok(Some(KeyLengths::of(usual, dated)))
}
