// A list of events of Microsoft Graph beside what the names of zones mean and a stated offset.
ghost use Rattle.std.specs.Prelude.{◌≡◌, IfOk, map};
ghost use Rattle.rr_compare.specs.Names.{meaning_of_names};
ghost use Rattle.rr_compare.specs.Turned.{calendar, calendar_in, turned_zone};
ghost use Rattle.rr_seam.specs.Files.{AnswersCalendar};
ghost use Rattle.rr_seam.specs.Stated.{AnswersStated};

use crate::names::Names;
use rr_graphfile::GraphFile;
use rr_model::{Bytes, NoMemory};
use rr_seam::{EventFile, FileFault, KeyFault, KeySeries};
use std::alloc::Global;

/// A list of events of Microsoft Graph. Beside a stated offset its moments in UTC that no zone turns are put into local time of the observer,
/// which has no zone.
#[derive(Drop)]
pub struct GraphCalendar {
    /// The list with its events.
    pub file: GraphFile,
    /// Whether an offset is stated.
    pub is_turned: bool,
}

// A zone: none for UTC if moments in UTC are put into local time.
fn turned_zone(alloc: Global, is_turned: bool, zone: &Bytes) -> Result<Bytes, NoMemory>
    ensures { IfOk result (λ turned. turned ≡ turned_zone is_turned zone.now) }
{
    if is_turned && zone.as_slice() == b"Z".as_slice() {
        Ok(Bytes::new(alloc))
    } else {
        Bytes::of(alloc, zone.as_slice())
    }
}

// Zones, of which UTC is none if moments in UTC are put into local time.
fn turned_zones(alloc: Global, is_turned: bool, zones: &[Bytes]) -> Result<Vec<Bytes>, NoMemory>
    ensures { IfOk result (λ turned. turned.items ≡ map (turned_zone is_turned) zones.now) }
{
    let mut turned = Vec::new(alloc);
    for zone in zones {
        turned.push(turned_zone(alloc, is_turned, zone)?)?;
    }
    Ok(turned)
}

impl GraphCalendar {
    /// The calendar that a text is, or why it is refused.
    pub fn read(alloc: Global, names: &Names, text: &[u8]) -> Result<GraphCalendar, FileFault>
        ensures { AnswersCalendar calendar_in
            (calendar (meaning_of_names names.now) names.now.offset text.now) result }
    {
        match GraphFile::read(alloc, names, names.offset, text) {
            Ok(file) => Ok(GraphCalendar {
                file,
                is_turned: names.offset.is_some(),
            }),
            Err(fault) => Err(fault),
        }
    }

    /// What the events of these indexes state together. Beside a stated offset UTC is no zone of theirs.
    pub fn key_series(&self, alloc: Global, indexes: &[usize]) -> Result<KeySeries, KeyFault>
        ensures { AnswersStated ((calendar_in self.now).stated indexes.now) result }
    {
        match self.file.key_series(alloc, indexes) {
            Ok(key) => Ok(KeySeries {
                series: key.series,
                zones: turned_zones(alloc, self.is_turned, key.zones.as_slice())?,
                place: key.place,
                lengths: key.lengths,
                marks: key.marks,
            }),
            Err(fault) => Err(fault),
        }
    }
}
