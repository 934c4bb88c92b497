// What the events of a key state together (Microsoft Graph, event).
ghost use Rattle.std.specs.Prelude.{◌≡◌, IfOk, Ok, map};
ghost use Rattle.serde_json.specs.View.{view};
ghost use Rattle.rr_model.specs.Graph.Validity.{IsValidGraphEvent};
ghost use Rattle.rr_model.specs.Series.Validity.{IsValidSeries};
ghost use Rattle.rr_seam.specs.Stated.{AnswersStated};
ghost use Rattle.rr_seam.specs.Steps.{AnswersKey};
ghost use Rattle.rr_graphfile.specs.Known.{known_meaning};
ghost use Rattle.rr_graphfile.specs.Parsed.{gathered_in, placed_in, turning_in};
ghost use Rattle.rr_graphfile.specs.Items.{repeats, type_of};
ghost use Rattle.rr_graphfile.specs.Stated.{gathered_stated, judged_master, master_of, series_of, series_stated, series_turned, stated_in, with_instances};

use crate::gather::{Gathered, Placed, gather};
use crate::instances::{Beside, event_at, event_shifts};
use crate::item::{EventType, is_cancelled, repeats, type_of};
use crate::known::ZoneMap;
use crate::lengths::lengths_of;
use crate::turning::{Turning, turning_of};
use crate::zones::zones_of;
use rr_graph::to_series;
use rr_model::{GraphEvent, Member, Refusal, Series};
use rr_moved::moved;
use rr_seam::{KeyFault, KeyRefusal, KeySeries, Marks};
use serde_json::Value;
use std::alloc::Global;

// A series master has a recurrence: without it the list does not say when it occurs.
fn judge_master(placed: Placed) -> Result<(), KeyRefusal>
    ensures { result ≡ judged_master placed.entry.place (type_of (view placed.entry.event.now))
        (repeats (view placed.entry.event.now)) }
{
    match type_of(placed.event) {
        Some(EventType::Master) if !repeats(placed.event) => Err(KeyRefusal::Event {
            refusal: Refusal::BadMember(Member::Recurrence),
            place: placed.place,
        }),
        _ => Ok(()),
    }
}

// What a series states of itself.
fn master_of(turning: Turning, placed: Placed) -> Result<GraphEvent, KeyRefusal>
    ensures value { result ≡ master_of (turning_in turning.entry) (placed_in placed.entry) }
    ensures valid { IfOk result IsValidGraphEvent }
{
    judge_master(placed)?;
    event_at(turning, placed.place, placed.event)
}

// The series of RFC 5545 that an event is, with the instances that it lists.
fn with_instances(
    alloc: Global,
    turning: Turning,
    placed: Placed,
    read: &GraphEvent,
) -> Result<Series, KeyFault>
    requires { IsValidGraphEvent read.now }
    ensures value { AnswersKey (with_instances (turning_in turning.entry) (placed_in placed.entry)
        read.now) result }
    ensures valid { IfOk result IsValidSeries }
{
    let beside = Beside {
        place: placed.place,
        kind: read.kind,
        start: read.start,
    };
    let shifts = event_shifts(alloc, beside, turning, placed.event)?;
    let series = to_series(alloc, read)?;
    let is_cancelled = is_cancelled(placed.event);
    moved(alloc, is_cancelled, placed.place, series, &shifts)
}

// The series that an event states, with the instances that it lists.
fn series_of(alloc: Global, turning: Turning, placed: Placed) -> Result<Series, KeyFault>
    ensures value { AnswersKey (series_of (turning_in turning.entry) (placed_in placed.entry)) result }
    ensures valid { IfOk result IsValidSeries }
{
    let read = master_of(turning, placed)?;
    with_instances(alloc, turning, placed, &read)
}

// What a series states whose moments of UTC are turned so.
fn series_turned(alloc: Global, turning: Turning, placed: Placed) -> Result<KeySeries, KeyFault>
    ensures { AnswersStated (series_turned (turning_in turning.entry) (placed_in placed.entry)) result }
{
    Ok(KeySeries {
        series: series_of(alloc, turning, placed)?,
        zones: zones_of(alloc, turning, placed.event)?,
        place: placed.place,
        lengths: lengths_of(alloc, turning, placed.event)?,
        marks: Marks::none(),
    })
}

// What a series states, its moments of UTC turned as its zone, or the stated offset, tells.
fn series_stated(
    alloc: Global,
    zones: &ZoneMap,
    offset: Option<i32>,
    placed: Placed,
) -> Result<KeySeries, KeyFault>
    ensures { AnswersStated (series_stated (known_meaning zones.now) offset
        (placed_in placed.entry)) result }
{
    series_turned(alloc, turning_of(zones, offset, placed.event), placed)
}

// What the events of a key state; a key without an event has no start.
fn gathered_stated(
    alloc: Global,
    zones: &ZoneMap,
    offset: Option<i32>,
    gathered: Gathered,
) -> Result<KeySeries, KeyFault>
    ensures { AnswersStated (gathered_stated (known_meaning zones.now) offset
        (Ok (gathered_in gathered.entry))) result }
{
    match (gathered.series, gathered.instance) {
        (Some(placed), _) => series_stated(alloc, zones, offset, placed),
        (None, Some(place)) => Err(KeyFault::Refused(KeyRefusal::NoMaster(place))),
        (None, None) => Err(KeyFault::Refused(KeyRefusal::Event {
            refusal: Refusal::NoStart,
            place: 0,
        })),
    }
}

/// What the events of these indexes of a list state together.
///
/// The refusal is first event by event `NoType` or `TwoSeries`; then `NoMaster` of an instance whose series is not in the
/// list. Of the series `BadMember` of `recurrence` if it is a series master without one, what `rr_graph::read` refuses of an
/// event, and `NotExpanded` without one of its two lists; then instance by instance, first the cancelled ones, `BadInstance`
/// or `UtcMoment` of its day, `TwoInstances`, and, unless it is cancelled, what is refused of its start, `TwoSeries` for a
/// pattern of its own and `MixedKinds`; then `TooManyParts`. Nothing is refused for its length.
#[tactic(auto, unfolding(crate::specs::Stated::stated_in))]
pub(crate) fn key_series(
    alloc: Global,
    zones: &ZoneMap,
    offset: Option<i32>,
    items: &[Value],
    indexes: &[usize],
) -> Result<KeySeries, KeyFault>
    ensures { AnswersStated (stated_in (known_meaning zones.now) offset (map view items.now)
        indexes.now) result }
{
    let gathered = gather(items, indexes)?;
    gathered_stated(alloc, zones, offset, gathered)
}
