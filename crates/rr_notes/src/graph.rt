// What `rr` does not read of a text of Microsoft Graph, and `rr-calendars` does.
ghost use Rattle.std.specs.Prelude.{◌≡◌, ◌<◌, ◌^◌, option_map, IfOk, IfSome};
ghost use Rattle.serde_json.specs.Find.{as_array};
ghost use Rattle.serde_json.specs.View.{view};
ghost use Rattle.rr_notes.specs.GraphNotes.{IsGraphNote, has_elements, has_items, is_list, note_on_graph, note_on_value};

use crate::again::bytes_again;
use rr_model::NoMemory;
use serde_json::Value;
use std::alloc::Global;

const LIST: &str =
    "the file is a list of Graph events: 'rr-calendars OLD graph:FILE' compares each of them";

const INSTANCES: &str =
    "the Graph event has cancelled or changed instances, which rr does not read: put the text between [ and ], and 'rr-calendars OLD graph:FILE' reads it";

// Whether a value is an array, and not an empty one.
fn has_items(value: &Value) -> bool
    ensures { result ≡ has_items (as_array (view value.now)) }
{
    match value.as_array() {
        Some(items) => !items.as_slice().is_empty(),
        None => false,
    }
}

// Whether the member of that name is an array, and not an empty one.
fn has_elements(value: &Value, name: &str) -> bool
    ensures { result ≡ has_elements name.now (view value.now) }
{
    match value.get(name) {
        Some(found) => has_items(found),
        None => false,
    }
}

// Whether a value is a list of events, as an answer of the service or by itself.
fn is_list(value: &Value) -> bool
    ensures { result ≡ is_list (view value.now) }
{
    if value.is_array() {
        return true;
    }
    match value.get("value") {
        Some(items) => items.is_array(),
        None => false,
    }
}

// What is not read of a value.
fn note_on_value(value: &Value) -> Option<&'static str>
    ensures { option_map (λ text. text.now) result ≡ note_on_value (view value.now) }
{
    if is_list(value) {
        return Some(LIST);
    }
    if has_elements(value, "cancelledOccurrences") || has_elements(value, "exceptionOccurrences") {
        return Some(INSTANCES);
    }
    None
}

/// What `rr` does not read of a text of Microsoft Graph: that it is a list of events, or one whose cancelled or changed instances stand
/// beside it. Nothing is noted of a text that is no JSON.
pub fn note_on_graph(alloc: Global, text: &[u8]) -> Result<Option<&'static str>, NoMemory>
    ensures { IfOk result (λ note. option_map (λ text. text.now) note ≡ note_on_graph text.now) }
{
    match Value::from_slice(alloc, text) {
        Ok(value) => Ok(note_on_value(&value)),
        Err(error) if error.is_memory() => Err(NoMemory),
        Err(_) => Ok(None),
    }
}

/// What `rr` does not read of a file of Microsoft Graph, as `note_on_graph` says of its text. The file is read again,
/// as by `bytes_again`. Nothing is noted of standard input, a pipe or a device.
pub fn note_on_graph_of_file(rt: &HostRuntime, name: &str, limit: usize) -> Option<&'static str>
    requires { limit < 2 ^ 62 }
    ensures { IfSome result (λ text. IsGraphNote text.now) }
{
    let bytes = bytes_again(rt, name, limit)?;
    match note_on_graph(rt.alloc(), bytes.as_slice()) {
        Ok(note) => note,
        Err(_) => None,
    }
}
