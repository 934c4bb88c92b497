// What is said of a key, as the members of an object.
ghost use Rattle.std.specs.Prelude.{◌≡◌, IfOk, OnOk};
ghost use Rattle.serde_json.specs.Data.{put as with_member, string};
ghost use Rattle.serde_json.specs.View.{members_view, view};
ghost use Rattle.rr_json.specs.Event.{compared_members, equal_members, length_members, moment_members, put_if as with_if, put_zones as with_zones, refused_members, said_members, side_members, verdict_members};
ghost use Rattle.rr_length.specs.Length.{length_text};
ghost use Rattle.rr_model.specs.Text.Moments.{extended_text};
ghost use Rattle.rr_text.specs.Printed.{IsPrintable, IsPrintableAt};
ghost use Rattle.rr_trip.specs.Printed.{ahead_text, key_refusal_text};
ghost use Rattle.rr_trip.specs.Said.{ArePrintableZones, IsPrintableAhead, IsPrintableSaid};

use crate::text::utf8_value;
use rr_facts::advice_of;
use rr_length::{Length, OtherLength, push_length};
use rr_model::{Kind, NoMemory, Side, Verdict};
use rr_seam::KeyRefusal;
use rr_text::{push_extended, side_text};
use rr_trip::{Ahead, Said, Zones, push_ahead, push_key_refusal};
use serde_json::{Map, Value, put};
use std::alloc::Global;

// Puts a member that is a text.
fn put_text(
    map: &mut Map<String, Value>,
    alloc: Global,
    name: &str,
    text: &str,
) -> Result<(), NoMemory>
    ensures { OnOk result (members_view map.new.entries
        ≡ with_member name.now (string text.now) (members_view map.old.entries)) }
{
    let value = Value::try_from_str(alloc, text)?;
    put(map, alloc, name, value)?;
    Ok(())
}

/// Puts a member that is true, if it is so.
pub(crate) fn put_if(
    map: &mut Map<String, Value>,
    alloc: Global,
    name: &str,
    is_so: bool,
) -> Result<(), NoMemory>
    ensures { OnOk result (members_view map.new.entries
        ≡ with_if name.now is_so (members_view map.old.entries)) }
{
    if is_so {
        put(map, alloc, name, Value::Bool(true))?;
    }
    Ok(())
}

fn verdict_map(alloc: Global, verdict: &str) -> Result<Map<String, Value>, NoMemory>
    ensures { IfOk result (λ map. members_view map.entries ≡ verdict_members verdict.now) }
{
    let mut map = Map::new(alloc);
    put_text(&mut map, alloc, "verdict", verdict)?;
    Ok(map)
}

fn side_map(alloc: Global, verdict: &str, side: Side) -> Result<Map<String, Value>, NoMemory>
    ensures { IfOk result (λ map. members_view map.entries ≡ side_members verdict.now side) }
{
    let mut map = verdict_map(alloc, verdict)?;
    put_text(&mut map, alloc, "side", side_text(side))?;
    Ok(map)
}

// The name and the number of a refusal.
fn refusal_value(alloc: Global, refusal: KeyRefusal) -> Result<Value, NoMemory>
    ensures { IfOk result (λ value. view value ≡ string (key_refusal_text refusal)) }
{
    let mut text = Vec::new(alloc);
    push_key_refusal(alloc, &mut text, refusal)?;
    utf8_value(alloc, &text)
}

fn refused_map(
    alloc: Global,
    verdict: &str,
    side: Side,
    refusal: KeyRefusal,
) -> Result<Map<String, Value>, NoMemory>
    ensures { IfOk result
        (λ map. members_view map.entries ≡ refused_members verdict.now side refusal) }
{
    let mut map = side_map(alloc, verdict, side)?;
    put(&mut map, alloc, "refusal", refusal_value(alloc, refusal)?)?;
    put_text(&mut map, alloc, "advice", advice_of(refusal))?;
    Ok(map)
}

fn length_value(alloc: Global, length: Length) -> Result<Value, NoMemory>
    ensures { IfOk result (λ value. view value ≡ string (length_text length)) }
{
    let mut text = Vec::new(alloc);
    push_length(&mut text, length)?;
    utf8_value(alloc, &text)
}

fn length_map(alloc: Global, other: OtherLength) -> Result<Map<String, Value>, NoMemory>
    ensures { IfOk result (λ map. members_view map.entries ≡ length_members other) }
{
    let mut lengths = Vec::new(alloc);
    lengths.push(length_value(alloc, other.a)?)?;
    lengths.push(length_value(alloc, other.b)?)?;
    let mut map = verdict_map(alloc, "length")?;
    put(&mut map, alloc, "lengths", Value::Array(lengths))?;
    Ok(map)
}

fn equal_map(alloc: Global, zones: Zones) -> Result<Map<String, Value>, NoMemory>
    ensures { IfOk result (λ map. members_view map.entries ≡ equal_members zones) }
{
    let mut map = verdict_map(alloc, "equal")?;
    put_if(&mut map, alloc, "unsure", matches!(zones, Zones::Unknown))?;
    Ok(map)
}

// A date YYYY-MM-DD, or a moment YYYY-MM-DDTHH:MM:SS.
fn moment_value(alloc: Global, kind: Kind, at: i64) -> Result<Value, NoMemory>
    requires { IsPrintableAt kind at }
    ensures { IfOk result (λ value. view value ≡ string (extended_text kind at)) }
{
    let mut text = Vec::new(alloc);
    push_extended(&mut text, kind, at)?;
    utf8_value(alloc, &text)
}

fn ahead_value(alloc: Global, ahead: Ahead) -> Result<Value, NoMemory>
    requires { IsPrintableAhead ahead }
    ensures { IfOk result (λ value. view value ≡ string (ahead_text ahead)) }
{
    let mut text = Vec::new(alloc);
    push_ahead(&mut text, ahead)?;
    utf8_value(alloc, &text)
}

// Puts how far local time of a side is ahead of UTC, and whether only the zones differ, if moments are compared.
fn put_zones(map: &mut Map<String, Value>, alloc: Global, zones: Zones) -> Result<(), NoMemory>
    requires { ArePrintableZones zones }
    ensures { OnOk result (members_view map.new.entries
        ≡ with_zones zones (members_view map.old.entries)) }
{
    match zones {
        Zones::Local | Zones::Unknown => Ok(()),
        Zones::Moments { ahead, only_zones } => {
            put_if(map, alloc, "only_zones", only_zones)?;
            put(map, alloc, "ahead", ahead_value(alloc, ahead)?)?;
            Ok(())
        }
    }
}

fn moment_map(
    alloc: Global,
    kind: Kind,
    at: i64,
    side: Side,
    zones: Zones,
) -> Result<Map<String, Value>, NoMemory>
    requires moment { IsPrintableAt kind at }
    requires zones { ArePrintableZones zones }
    ensures { IfOk result (λ map. members_view map.entries ≡ moment_members kind at side zones) }
{
    let mut map = side_map(alloc, "differs", side)?;
    put(&mut map, alloc, "moment", moment_value(alloc, kind, at)?)?;
    put_zones(&mut map, alloc, zones)?;
    Ok(map)
}

fn compared_map(
    alloc: Global,
    verdict: Verdict,
    zones: Zones,
) -> Result<Map<String, Value>, NoMemory>
    requires verdict { IsPrintable verdict }
    requires zones { ArePrintableZones zones }
    ensures { IfOk result (λ map. members_view map.entries ≡ compared_members verdict zones) }
{
    match verdict {
        Verdict::Yes => equal_map(alloc, zones),
        Verdict::No { kind, at, side } => moment_map(alloc, kind, at, side, zones),
    }
}

/// What is said of a key.
pub(crate) fn said_map(alloc: Global, said: Said) -> Result<Map<String, Value>, NoMemory>
    requires { IsPrintableSaid said }
    ensures { IfOk result (λ map. members_view map.entries ≡ said_members said) }
{
    match said {
        Said::Only(side) => side_map(alloc, "only", side),
        Said::Refused { side, refusal } => refused_map(alloc, "refused", side, refusal),
        Said::Alike(refusal) => refused_map(alloc, "alike", Side::A, refusal),
        Said::Floating(side) => side_map(alloc, "floating", side),
        Said::Length(other) => length_map(alloc, other),
        Said::Compared { verdict, zones } => compared_map(alloc, verdict, zones),
    }
}
