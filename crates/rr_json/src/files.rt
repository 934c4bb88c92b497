// Which files were compared, and how.
ghost use Rattle.std.specs.Prelude.{◌≡◌, ℕ, List, IfOk, option_map};
ghost use Rattle.std.specs.Borrow.{Bor};
ghost use Rattle.serde_json.specs.View.{members_view, view};
ghost use Rattle.rr_facts.specs.Facts.{facts_in, file_facts_in};
ghost use Rattle.rr_facts.specs.Sum.{sum_text};
ghost use Rattle.rr_json.specs.Files.{facts_members, file_json, name_json, offset_json, options_json};

use crate::text::utf8_value;
use rr_facts::{Facts, FileFacts, sum_of};
use rr_model::NoMemory;
use rr_trip::push_offset;
use serde_json::{Map, Value, json, put};
use std::alloc::{AllocError, Global};

// A stated offset from UTC as hours and minutes, or nothing.
fn offset_value(alloc: Global, offset: Option<i32>) -> Result<Value, NoMemory>
    ensures { IfOk result (λ value. view value ≡ offset_json offset) }
{
    match offset {
        Some(offset) if -86_400 < offset && offset < 86_400 => {
            let mut text = Vec::new(alloc);
            push_offset(&mut text, offset)?;
            utf8_value(alloc, &text)
        }
        _ => Ok(Value::Null),
    }
}

// A file of which this is the offset, and this the sum.
fn value_of_file(
    alloc: Global,
    file: &FileFacts,
    offset: Value,
    sum: &str,
) -> Result<Value, AllocError>
    requires offset { view offset ≡ offset_json file.now.offset }
    requires sum { sum.now ≡ sum_text file.now.bytes.now }
    ensures { IfOk result (λ value. view value ≡ file_json (file_facts_in file.now)) }
{
    json!(in alloc; {
        "bytes": file.bytes.len(),
        "language": file.language,
        "name": file.name,
        "offset": offset,
        "sha256": sum
    })
}

fn file_value(alloc: Global, file: &FileFacts) -> Result<Value, NoMemory>
    ensures { IfOk result (λ value. view value ≡ file_json (file_facts_in file.now)) }
{
    let offset = offset_value(alloc, file.offset)?;
    let sum = sum_of(alloc, file.bytes)?;
    Ok(value_of_file(alloc, file, offset, sum.as_str())?)
}

// The JSON string of a name, or null if there is none.
fn name_value(alloc: Global, name: Option<&str>) -> Result<Value, NoMemory>
    ensures { IfOk result (λ value. view value
        ≡ name_json (option_map (λ (name : Bor (List ℕ)). name.now) name.entry)) }
{
    match name {
        None => Ok(Value::Null),
        Some(name) => Ok(Value::try_from_str(alloc, name)?),
    }
}

fn value_of_options(alloc: Global, facts: &Facts, zones: Value) -> Result<Value, AllocError>
    requires { view zones ≡ name_json (facts_in facts.now).zones }
    ensures { IfOk result (λ value. view value ≡ options_json (facts_in facts.now)) }
{
    json!(in alloc; {
        "by_uid": facts.by_uid,
        "differences": facts.only_differences,
        "strict": facts.strict,
        "zones": zones
    })
}

fn options_value(alloc: Global, facts: &Facts) -> Result<Value, NoMemory>
    ensures { IfOk result (λ value. view value ≡ options_json (facts_in facts.now)) }
{
    let zones = name_value(alloc, facts.zones)?;
    Ok(value_of_options(alloc, facts, zones)?)
}

/// Which files were compared and how, with the status that the program ends with, and by which release.
pub(crate) fn facts_map(
    alloc: Global,
    facts: &Facts,
    status: u8,
) -> Result<Map<String, Value>, NoMemory>
    ensures { IfOk result
        (λ map. members_view map.entries ≡ facts_members (facts_in facts.now) status) }
{
    let mut map = Map::new(alloc);
    put(
        &mut map,
        alloc,
        "version",
        Value::try_from_str(alloc, facts.version)?,
    )?;
    put(&mut map, alloc, "status", Value::from(status))?;
    put(&mut map, alloc, "options", options_value(alloc, facts)?)?;
    put(&mut map, alloc, "old", file_value(alloc, &facts.old)?)?;
    put(&mut map, alloc, "new", file_value(alloc, &facts.new)?)?;
    Ok(map)
}
