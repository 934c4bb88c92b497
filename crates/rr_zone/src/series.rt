// The starts of the series of a text by their UIDs.
ghost use Rattle.std.specs.Prelude.{◌≡◌, List, map, IfOk, OnOk};
ghost use Rattle.rr_zone.specs.Events.{turning_start};
ghost use Rattle.rr_zone.specs.Parts.{events_in, part_in};
ghost use Rattle.rr_zone.specs.Series.{IsSeriesMap, Notes, NotesPart};
ghost use Rattle.rr_zone.specs.declared.event.EventFacts.{EventFacts};

use crate::event::{EventFacts, Start};
use crate::part::{Content, Part};
use rr_model::NoMemory;
use std::alloc::Global;
use std::collections::BTreeMap;

/// The start of the first series of each UID.
pub(crate) type SeriesStarts<'a> = BTreeMap<&'a [u8], &'a Start>;

// Takes in a further event, if it is the first series of its UID.
fn note<'a>(starts: &mut SeriesStarts<'a>, event: &'a EventFacts) -> Result<(), NoMemory>
    ensures { OnOk result (Notes starts.old event.now starts.new) }
{
    let uid = event.uid.as_slice();
    if event.is_instance || uid.is_empty() || starts.contains_key(uid) {
        return Ok(());
    }
    match starts.insert(uid, &event.start) {
        Ok(_) => Ok(()),
        Err(_) => Err(NoMemory),
    }
}

// Takes in a further part, if it is an event.
fn note_part<'a>(starts: &mut SeriesStarts<'a>, part: &'a Part) -> Result<(), NoMemory>
    ensures { OnOk result (NotesPart starts.old part.now.content starts.new) }
{
    match &part.content {
        Content::Event(event) => note(starts, event),
        Content::Zone => Ok(()),
        Content::Other => Ok(()),
    }
}

/// The starts of the series among the parts.
pub(crate) fn series_starts<'a>(
    alloc: Global,
    parts: &'a [Part],
) -> Result<SeriesStarts<'a>, NoMemory>
    ensures { IfOk result (λ starts. IsSeriesMap starts (events_in (map part_in parts.now))) }
{
    let mut starts = BTreeMap::new(alloc);
    for part in parts {
        note_part(&mut starts, part)?;
    }
    Ok(starts)
}

/// The start in whose zone an event is written: an instance in that of its series, if this is in the text.
pub(crate) fn turning_start<'a>(starts: &SeriesStarts<'a>, event: &'a EventFacts) -> &'a Start
    ensures { (events : List EventFacts) → IsSeriesMap starts.now events
        → result.now ≡ turning_start events event.now }
{
    if !event.is_instance {
        return &event.start;
    }
    match starts.get(event.uid.as_slice()) {
        Some(start) => *start,
        None => &event.start,
    }
}
