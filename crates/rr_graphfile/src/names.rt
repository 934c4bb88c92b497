// The keys of the events of a list (Microsoft Graph, event, iCalUId and seriesMasterId).
ghost use Rattle.std.specs.Prelude.{◌≡◌, List, map, IfOk, OnOk};
ghost use Rattle.serde_json.specs.Data.{Data};
ghost use Rattle.serde_json.specs.View.{view};
ghost use Rattle.rr_graphfile.specs.Items.{key_by, keys_in, master_name, name_in};
ghost use Rattle.rr_graphfile.specs.Names.{IsNameMap, Notes};

use crate::item::{is_instance, own_name, text_in};
use rr_model::{Bytes, NoMemory};
use rr_seam::Key;
use serde_json::Value;
use std::alloc::Global;
use std::collections::BTreeMap;

/// The name of the first event of each id.
type NameMap<'v> = BTreeMap<&'v [u8], &'v [u8]>;

// Takes in a further event, if it is the first of its id.
fn note<'v>(names: &mut NameMap<'v>, event: &'v Value) -> Result<(), NoMemory>
    ensures { OnOk result (Notes names.old (view event.now) names.new) }
{
    let Some(id) = text_in(event, "id") else {
        return Ok(());
    };
    let id = id.as_bytes();
    if names.contains_key(id) {
        return Ok(());
    }
    match names.insert(id, own_name(event)) {
        Ok(_) => Ok(()),
        Err(_) => Err(NoMemory),
    }
}

// The names of the events by their ids.
fn names_by_id<'v>(alloc: Global, items: &'v [Value]) -> Result<NameMap<'v>, NoMemory>
    ensures { IfOk result (λ names. IsNameMap names (map view items.now)) }
{
    let mut names = BTreeMap::new(alloc);
    for event in items {
        note(&mut names, event)?;
    }
    Ok(names)
}

// The name of the series of an instance, if that is in the list, otherwise its own.
fn master_name<'v>(names: &NameMap<'v>, event: &'v Value) -> &'v [u8]
    ensures { (items : List Data) → IsNameMap names.now items
        → result.now ≡ master_name items (view event.now) }
{
    let Some(id) = text_in(event, "seriesMasterId") else {
        return own_name(event);
    };
    match names.get(id.as_bytes()) {
        Some(name) => *name,
        None => own_name(event),
    }
}

// The name of an event in a list: that of its series, if it is an instance.
fn name_in<'v>(names: &NameMap<'v>, event: &'v Value) -> &'v [u8]
    ensures { (items : List Data) → IsNameMap names.now items
        → result.now ≡ name_in items (view event.now) }
{
    if is_instance(event) {
        master_name(names, event)
    } else {
        own_name(event)
    }
}

// The key of an event by its number and its name.
fn key_by(alloc: Global, number: u64, name: &[u8]) -> Result<Key, NoMemory>
    ensures { IfOk result (λ key. key ≡ key_by number name.now) }
{
    if name.is_empty() {
        Ok(Key::Number(number))
    } else {
        Ok(Key::Uid(Bytes::of(alloc, name)?))
    }
}

/// The keys of the events of a list, in a time that grows as their number times its logarithm.
pub(crate) fn keys_of(alloc: Global, items: &[Value]) -> Result<Vec<Key>, NoMemory>
    ensures { IfOk result (λ keys. keys.items ≡ keys_in (map view items.now)) }
{
    let names = names_by_id(alloc, items)?;
    let mut keys = Vec::new(alloc);
    let mut number = 1u64;
    for event in items {
        keys.push(key_by(alloc, number, name_in(&names, event))?)?;
        number += 1;
    }
    Ok(keys)
}
