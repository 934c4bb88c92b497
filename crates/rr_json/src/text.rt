// Texts and keys as JSON.
ghost use Rattle.std.specs.Prelude.{◌≡◌, IfOk, IsUtf8};
ghost use Rattle.serde_json.specs.Data.{member, no_members, object, string};
ghost use Rattle.serde_json.specs.View.{view};
ghost use Rattle.rr_json.specs.Event.{key_json, text_json};
ghost use Rattle.rr_trip.specs.Printed.{uid_text};

use rr_model::{Bytes, NoMemory};
use rr_seam::Key;
use rr_trip::push_key;
use serde_json::{Map, Value, put};
use std::alloc::Global;

/// The JSON string of a text in UTF-8.
pub(crate) fn utf8_value(alloc: Global, text: &[u8]) -> Result<Value, NoMemory>
    requires { IsUtf8 text.now }
    ensures { IfOk result (λ value. view value ≡ string text.now) }
{
    let Ok(text) = std::str::from_utf8(text) else {
        unreachable!();
    };
    Ok(Value::try_from_str(alloc, text)?)
}

// A text as a report prints the bytes of a UID.
fn printed_value(alloc: Global, text: &[u8]) -> Result<Value, NoMemory>
    ensures { IfOk result (λ value. view value ≡ string (uid_text text.now)) }
{
    let key = Key::Uid(Bytes::of(alloc, text)?);
    let mut printed = Vec::new(alloc);
    push_key(&mut printed, &key)?;
    utf8_value(alloc, &printed)
}

/// A text of a file: its bytes if they are UTF-8, otherwise as a report prints the bytes of a UID.
pub(crate) fn text_value(alloc: Global, text: &[u8]) -> Result<Value, NoMemory>
    ensures { IfOk result (λ value. view value ≡ text_json text.now) }
{
    match std::str::from_utf8(text) {
        Ok(text) => Ok(Value::try_from_str(alloc, text)?),
        Err(_) => printed_value(alloc, text),
    }
}

// An object of one member.
fn single_value(alloc: Global, name: &str, value: Value) -> Result<Value, NoMemory>
    ensures { IfOk result (λ made. view made ≡ object (member name.now (view value) no_members)) }
{
    let mut map = Map::new(alloc);
    put(&mut map, alloc, name, value)?;
    Ok(Value::Object(map))
}

/// A key: an object with its UID, the number of its line, or its number in a list.
pub(crate) fn key_value(alloc: Global, key: &Key) -> Result<Value, NoMemory>
    ensures { IfOk result (λ value. view value ≡ key_json key.now) }
{
    match key {
        Key::Line(line) => single_value(alloc, "line", Value::from(*line)),
        Key::Number(event) => single_value(alloc, "event", Value::from(*event)),
        Key::Uid(uid) => {
            let text = text_value(alloc, uid.as_slice())?;
            single_value(alloc, "uid", text)
        }
    }
}
