// What the events of a key state together (vCalendar 1.0, section 2.2).
ghost use Rattle.std.specs.Prelude.{◌≡◌, [], ◌∷◌, IfOk, Ok, map, option_map};
ghost use Rattle.rr_model.specs.Series.Validity.{IsValidSeries};
ghost use Rattle.rr_model.specs.Vcal.Validity.{IsValidVSeries};
ghost use Rattle.rr_seam.specs.Stated.{AnswersStated};
ghost use Rattle.rr_seam.specs.Steps.{AnswersKey};
ghost use Rattle.rr_vcalfile.specs.Gathered.{first_lines};
ghost use Rattle.rr_vcalfile.specs.Parts.{lines_in};
ghost use Rattle.rr_vcalfile.specs.Stated.{event_stated, gathered_stated, series_of, stated_in, vseries_of};

use crate::event::{first_line, read_besides};
use crate::find::part_lines;
use crate::first::FirstEvent;
use crate::gather::gather;
use crate::part::Part;
use rr_ical::scan_lines;
use rr_model::{Bytes, LineList, NoMemory, Refusal, Series, VSeries};
use rr_seam::{KeyFault, KeyRefusal, KeySeries, Marks, at_event};
use rr_vcal::{read_scan, to_series};
use std::alloc::Global;

// The series that an event with these lines states of itself.
fn vseries_of(alloc: Global, offset: Option<i32>, lines: LineList) -> Result<VSeries, KeyFault>
    ensures value { AnswersKey (vseries_of offset lines) result }
    ensures valid { IfOk result IsValidVSeries }
{
    let first = first_line(lines.as_slice());
    let scan = scan_lines(alloc, false, 0, lines)?;
    match read_scan(alloc, offset, &scan) {
        Ok(series) => Ok(series),
        Err(fault) => Err(at_event(first, fault)),
    }
}

// The series of RFC 5545 with its occurrences.
fn series_of(alloc: Global, offset: Option<i32>, lines: LineList) -> Result<Series, KeyFault>
    ensures value { AnswersKey (series_of offset lines) result }
    ensures valid { IfOk result IsValidSeries }
{
    let series = vseries_of(alloc, offset, lines)?;
    Ok(to_series(alloc, &series)?)
}

// A list with this zone alone.
fn one_zone(alloc: Global, zone: Bytes) -> Result<Vec<Bytes>, NoMemory>
    ensures { IfOk result (λ zones. zones.items ≡ zone ∷ []) }
{
    let mut zones = Vec::new(alloc);
    zones.push(zone)?;
    Ok(zones)
}

// What an event states. No date of it is read as the occurrences of its day.
fn event_stated(alloc: Global, offset: Option<i32>, part: Part) -> Result<KeySeries, KeyFault>
    ensures { AnswersStated (event_stated offset (lines_in part.entry)) result }
{
    let lines = part_lines(alloc, part)?;
    let place = first_line(lines.as_slice());
    let besides = read_besides(alloc, lines.as_slice())?;
    let zones = one_zone(alloc, besides.zone)?;
    let series = series_of(alloc, offset, lines)?;
    Ok(KeySeries {
        series,
        zones,
        place,
        lengths: besides.lengths,
        marks: Marks::none(),
    })
}

// What the event of a key states; a key without an event has no start.
fn gathered_stated(
    alloc: Global,
    offset: Option<i32>,
    gathered: Option<FirstEvent>,
) -> Result<KeySeries, KeyFault>
    ensures { AnswersStated (gathered_stated offset (Ok (option_map first_lines gathered.entry))) result }
{
    match gathered {
        Some(first) => event_stated(alloc, offset, first.part),
        None => Err(KeyFault::Refused(KeyRefusal::Event {
            refusal: Refusal::NoStart,
            place: 0,
        })),
    }
}

/// What the events of these indexes state together.
///
/// The refusal is `TwoSeries` of a second event in other words, then what `rr_vcal::read` refuses of the first.
#[tactic(auto, unfolding(crate::specs::Stated::stated_in))]
pub(crate) fn key_series(
    alloc: Global,
    offset: Option<i32>,
    parts: &[Part],
    indexes: &[usize],
) -> Result<KeySeries, KeyFault>
    ensures { AnswersStated (stated_in offset (map lines_in parts.now) indexes.now) result }
{
    let gathered = gather(alloc, parts, indexes)?;
    gathered_stated(alloc, offset, gathered)
}
