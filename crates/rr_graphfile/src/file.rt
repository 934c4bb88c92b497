// A file that is a list of events (Microsoft Graph, list events).
ghost use Rattle.std.specs.Prelude.{◌≡◌, map, option_map};
ghost use Rattle.serde_json.specs.View.{view};
ghost use Rattle.rr_seam.specs.Files.{AnswersCalendar};
ghost use Rattle.rr_graphfile.specs.Files.{AnswersList, AnswersValue, IsJudged, calendar, calendar_in};
ghost use Rattle.rr_graphfile.specs.Items.{file_items, items_in, judged_items, list_in};
ghost use Rattle.rr_graphfile.specs.Stated.{title_at};

use crate::item::{array_in, elements, find_member, is_object, title_of};
use crate::known::{ZoneMap, zones_of_items};
use crate::names::keys_of;
use crate::series::key_series;
use rr_model::{Bytes, NoMemory};
use rr_seam::{
    EventFile, FileFault, FileRefusal, Key, KeyFault, KeySeries, KeyWords, Language, MAX_FILE,
    copy_key,
};
use rr_text::without_mark;
use rr_true::ZoneNames;
use serde_json::Value;
use std::alloc::Global;

/// A list of events of Microsoft Graph, beside what the names of their zones mean, and a stated offset of local time from UTC in seconds.
#[derive(Drop)]
pub struct GraphFile {
    offset: Option<i32>,
    value: Value,
    keys: Vec<Key>,
    zones: ZoneMap,
}

// The elements of the list that a value is.
fn list_in(value: &Value) -> Option<&[Value]>
    ensures { option_map (λ items. map view items.now) result ≡ list_in (view value.now) }
{
    if is_object(value) {
        array_in(value, "value")
    } else {
        elements(value)
    }
}

// Each element of a list has to be an object.
fn judge_items(items: &[Value]) -> Result<(), FileRefusal>
    ensures { result ≡ judged_items 1 (map view items.now) }
{
    let mut number = 1u64;
    for item in items {
        if !is_object(item) {
            return Err(FileRefusal::BadEvent(number));
        }
        number += 1;
    }
    Ok(())
}

// The list in a value is judged.
fn judge_value(value: &Value) -> Result<(), FileRefusal>
    ensures { IsJudged (view value.now) result }
{
    if find_member(value, "@odata.nextLink").is_some() {
        return Err(FileRefusal::MorePages);
    }
    match list_in(value) {
        None => Err(FileRefusal::NoEvents),
        Some(items) => judge_items(items),
    }
}

// The events of a value.
fn items_in(value: &Value) -> &[Value]
    ensures { map view result.now ≡ items_in (view value.now) }
{
    list_in(value).unwrap_or(&[])
}

// The title of the event of an index, empty if there is none.
fn title_at(items: &[Value], index: usize) -> &[u8]
    ensures { result.now ≡ title_at (map view items.now) index }
{
    match items.get(index) {
        None => b"",
        Some(event) => title_of(event),
    }
}

// The value of a text.
fn value_of(alloc: Global, text: &[u8]) -> Result<Value, FileFault>
    ensures { AnswersValue text.now result }
{
    match Value::from_slice(alloc, text) {
        Ok(value) => Ok(value),
        Err(error) if error.is_memory() => Err(FileFault::NoMemory),
        Err(_) => Err(FileFault::Refused(FileRefusal::BadJson)),
    }
}

// The value of a file that is a list of events.
fn list_value(alloc: Global, bytes: &[u8]) -> Result<Value, FileFault>
    ensures { AnswersList (file_items bytes.now) result }
{
    if bytes.len() > MAX_FILE {
        return Err(FileFault::Refused(FileRefusal::TooLong));
    }
    let value = value_of(alloc, without_mark(bytes))?;
    match judge_value(&value) {
        Ok(()) => Ok(value),
        Err(refusal) => Err(FileFault::Refused(refusal)),
    }
}

impl GraphFile {
    /// Reads a list of events: an array, or an object with the array `value`, as a request for events answers it.
    ///
    /// An event whose start is in UTC has its moments of UTC put into local time of its own zone, if the name of that means
    /// something: recurrenceTimeZone of a series, otherwise originalStartTimeZone. These are its start, those of its moved
    /// instances, and the `originalStart` of an instance that has no `occurrenceId`. A moment in the second pass of an hour that
    /// the clock shows twice stays in UTC. What no zone turns the offset does, local time less UTC in seconds, as in
    /// `rr_graph::read`, and without one a start is read as it stands.
    ///
    /// The first fault is the refusal: `TooLong` for more than `MAX_FILE` bytes; `BadJson` for bytes that are no UTF-8, no
    /// JSON, or nested more than 127 levels deep; `MorePages` for an object with `@odata.nextLink`, since other pages are
    /// missing; `NoEvents` for a value that is no array and has no array `value`, as an object `error`; `BadEvent` with the
    /// number of the first element, from 1, that is no object.
    ///
    /// The list is kept as a whole, with the keys of its events. It takes memory of some six times its bytes. Each name of a zone
    /// is looked up once, and its offsets are kept too.
    pub fn read<N: ZoneNames>(
        alloc: Global,
        names: &N,
        offset: Option<i32>,
        bytes: &[u8],
    ) -> Result<GraphFile, FileFault>
        ensures { AnswersCalendar calendar_in (calendar (N.meaning names.now) offset bytes.now) result }
    {
        let value = list_value(alloc, bytes)?;
        let keys = keys_of(alloc, items_in(&value))?;
        let zones = zones_of_items(alloc, names, items_in(&value))?;
        Ok(GraphFile {
            offset,
            value,
            keys,
            zones,
        })
    }
}

impl EventFile for GraphFile {
    ghost use Rattle.serde_json.specs.View.{view};
    ghost use Rattle.rr_graphfile.specs.Items.{items_in};
    ghost use Rattle.rr_graphfile.specs.Known.{known_meaning};
    ghost use Rattle.rr_graphfile.specs.Stated.{stated_in, title_at};

    ghost keys = { λ f. f.keys.items };

    ghost stated = { λ f indexes. stated_in (known_meaning f.zones) f.offset (items_in (view f.value)) indexes };

    ghost titles = { λ f index. title_at (items_in (view f.value)) index };

    fn count(&self) -> usize {
        self.keys.len()
    }

    fn key_at(&self, alloc: Global, index: usize) -> Result<Key, NoMemory> {
        copy_key(alloc, &self.keys[index])
    }

    fn key_series(&self, alloc: Global, indexes: &[usize]) -> Result<KeySeries, KeyFault> {
        let items = items_in(&self.value);
        key_series(alloc, &self.zones, self.offset, items, indexes)
    }

    fn key_words(&self, alloc: Global, _indexes: &[usize]) -> Result<KeyWords, NoMemory> {
        Ok(KeyWords::of(Language::Graph, Vec::new(alloc)))
    }

    fn title(&self, alloc: Global, index: usize) -> Result<Bytes, NoMemory> {
        Bytes::of(alloc, title_at(items_in(&self.value), index))
    }
}
