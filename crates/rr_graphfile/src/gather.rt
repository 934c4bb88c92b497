// The series among the events of a key (Microsoft Graph, event, type).
ghost use Rattle.std.specs.Prelude.{map};
ghost use Rattle.serde_json.specs.View.{view};
ghost use Rattle.rr_text.specs.Answers.{AnswersAs};
ghost use Rattle.rr_graphfile.specs.Parsed.{gathered_in, placed_in};
ghost use Rattle.rr_graphfile.specs.Stated.{gathered_at, with_index, with_placed, with_series};

use crate::item::{EventType, type_of};
use rr_seam::KeyRefusal;
use serde_json::Value;

/// An event with its number in its list, from 1.
#[derive(Clone, Copy)]
pub(crate) struct Placed<'v> {
    /// Its number in the list, from 1.
    pub(crate) place: u64,
    /// The event itself, an object of the list.
    pub(crate) event: &'v Value,
}

/// The series of a key, if it has one, and the number of its first instance that stands alone.
#[derive(Clone, Copy)]
pub(crate) struct Gathered<'v> {
    /// The event that is the series or stands alone.
    pub(crate) series: Option<Placed<'v>>,
    /// The number of the first instance that stands in the list as an event of its own.
    pub(crate) instance: Option<u64>,
}

// The series of a key; a second one is refused.
fn with_series<'v>(gathered: Gathered<'v>, placed: Placed<'v>) -> Result<Gathered<'v>, KeyRefusal>
    ensures { AnswersAs gathered_in (with_series (gathered_in gathered.entry)
        (placed_in placed.entry)) result }
{
    match gathered.series {
        Some(_) => Err(KeyRefusal::TwoSeries(placed.place)),
        None => Ok(Gathered {
            series: Some(placed),
            ..gathered
        }),
    }
}

// What is gathered of a key with a further event, by its type. An instance that stands alone says nothing that its
// series does not list.
fn with_placed<'v>(gathered: Gathered<'v>, placed: Placed<'v>) -> Result<Gathered<'v>, KeyRefusal>
    ensures { AnswersAs gathered_in (with_placed (gathered_in gathered.entry)
        (placed_in placed.entry)) result }
{
    match type_of(placed.event) {
        None => Err(KeyRefusal::NoType(placed.place)),
        Some(EventType::Single | EventType::Master) => with_series(gathered, placed),
        Some(EventType::Occurrence | EventType::Exception) => Ok(Gathered {
            instance: Some(gathered.instance.unwrap_or(placed.place)),
            ..gathered
        }),
    }
}

// With the event of an index more; an index beyond the last event adds nothing.
fn with_index<'v>(
    items: &'v [Value],
    gathered: Gathered<'v>,
    index: usize,
) -> Result<Gathered<'v>, KeyRefusal>
    ensures { AnswersAs gathered_in (with_index (map view items.now) (gathered_in gathered.entry)
        index) result }
{
    match items.get(index) {
        None => Ok(gathered),
        Some(event) => {
            let place = index as u64 + 1;
            with_placed(gathered, Placed { place, event })
        }
    }
}

/// The series among the events of these indexes, and the first instance that stands alone. `NoType` comes for an event
/// without a type that is known, `TwoSeries` for a second series.
pub(crate) fn gather<'v>(items: &'v [Value], indexes: &[usize]) -> Result<Gathered<'v>, KeyRefusal>
    ensures { AnswersAs gathered_in (gathered_at (map view items.now) indexes.now) result }
{
    let mut gathered = Gathered {
        series: None,
        instance: None,
    };
    for index in indexes {
        gathered = with_index(items, gathered, *index)?;
    }
    Ok(gathered)
}
