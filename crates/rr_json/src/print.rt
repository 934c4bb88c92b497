// A report as one JSON object (RFC 8259).
ghost use Rattle.std.specs.Prelude.{◌≡◌, ◌++◌, All, drop, false, IfOk, OnOk};
ghost use Rattle.serde_json.specs.Data.{string};
ghost use Rattle.serde_json.specs.View.{view};
ghost use Rattle.serde_json.specs.Written.{compact_text, members_text};
ghost use Rattle.rr_facts.specs.Facts.{facts_in};
ghost use Rattle.rr_json.specs.Files.{facts_members};
ghost use Rattle.rr_json.specs.Json.{counts_json, json_refusal_text, json_text, refused_json, status_number};
ghost use Rattle.rr_trip.specs.Printed.{file_refusal_text};
ghost use Rattle.rr_trip.specs.Said.{IsPrintableSaid};

use crate::events::push_events;
use crate::files::facts_map;
use crate::text::utf8_value;
use rr_facts::{Facts, file_advice_of};
use rr_model::{NoMemory, Side};
use rr_seam::FileRefusal;
use rr_text::side_text;
use rr_trip::{Counts, Report, Status, push_file_refusal};
use serde_json::{Value, json, put};
use std::alloc::{AllocError, Global};

fn counts_value(alloc: Global, counts: Counts) -> Result<Value, AllocError>
    ensures { IfOk result (λ value. view value ≡ counts_json counts) }
{
    json!(in alloc; {
        "alike": counts.alike,
        "differs": counts.differs,
        "equal": counts.equal,
        "events": counts.events,
        "matched": counts.matched,
        "only_a": counts.only_a,
        "only_b": counts.only_b,
        "refused": counts.refused,
        "zone": counts.zone
    })
}

// Appends the counts of a report.
fn push_counts(out: &mut Vec<u8>, alloc: Global, counts: Counts) -> Result<(), NoMemory>
    ensures { OnOk result (out.new.items ≡ out.old.items ++ compact_text (counts_json counts)) }
{
    let text = counts_value(alloc, counts)?.to_vec(alloc)?;
    out.extend_from_slice(&text)?;
    Ok(())
}

// The status that the program ends with.
fn status_number(status: Status) -> u8
    ensures { result ≡ status_number status }
{
    match status {
        Status::Equal => 0,
        Status::Differs => 1,
        Status::Refused => 2,
    }
}

// Appends the members of a report behind its events, and the brace that closes it.
fn push_facts(out: &mut Vec<u8>, alloc: Global, facts: &Facts, status: u8) -> Result<(), NoMemory>
    ensures { OnOk result (out.new.items
        ≡ out.old.items ++ members_text false (facts_members (facts_in facts.now) status)) }
{
    let map = facts_map(alloc, facts, status)?;
    let text = Value::Object(map).to_vec(alloc)?;
    out.extend_from_slice(&text[1..])?;
    Ok(())
}

/// A report as one JSON object, and a line feed: the release, the files, the options, the counts, and what is said of each key.
pub fn print_json(alloc: Global, facts: &Facts, report: &Report) -> Result<Vec<u8>, NoMemory>
    requires { All (λ line. IsPrintableSaid line.said) report.now.lines.items }
    ensures { IfOk result (λ text. text.items ≡ json_text (facts_in facts.now) report.now.lines.items) }
{
    let counts = report.counts();
    let mut text = Vec::from_slice(alloc, b"{\"counts\":")?;
    push_counts(&mut text, alloc, counts)?;
    text.extend_from_slice(b",\"events\":[")?;
    push_events(&mut text, alloc, facts.only_differences, &report.lines)?;
    text.extend_from_slice(b"],")?;
    push_facts(&mut text, alloc, facts, status_number(counts.status()))?;
    text.push(b'\n')?;
    Ok(text)
}

// The name and the number of the refusal of a file, without the blank that a report has before them.
fn file_refusal_value(alloc: Global, refusal: FileRefusal) -> Result<Value, NoMemory>
    ensures { IfOk result (λ value. view value ≡ string (drop 1 (file_refusal_text refusal))) }
{
    let mut text = Vec::new(alloc);
    push_file_refusal(&mut text, refusal)?;
    utf8_value(alloc, &text[1..])
}

fn value_of_refused(
    alloc: Global,
    side: Side,
    refusal: FileRefusal,
    text: Value,
) -> Result<Value, AllocError>
    requires { view text ≡ string (drop 1 (file_refusal_text refusal)) }
    ensures { IfOk result (λ value. view value ≡ refused_json side refusal) }
{
    json!(in alloc; {
        "advice": file_advice_of(refusal),
        "refusal": text,
        "side": side_text(side)
    })
}

// The refusal of a file.
fn refused_value(alloc: Global, side: Side, refusal: FileRefusal) -> Result<Value, NoMemory>
    ensures { IfOk result (λ value. view value ≡ refused_json side refusal) }
{
    let text = file_refusal_value(alloc, refusal)?;
    Ok(value_of_refused(alloc, side, refusal, text)?)
}

/// The refusal of a whole file as one JSON object, and a line feed: the release, the files, the options, and what is refused.
pub fn print_json_refusal(
    alloc: Global,
    facts: &Facts,
    side: Side,
    refusal: FileRefusal,
) -> Result<Vec<u8>, NoMemory>
    ensures { IfOk result (λ text. text.items ≡ json_refusal_text (facts_in facts.now) side refusal) }
{
    let mut map = facts_map(alloc, facts, status_number(Status::Refused))?;
    put(
        &mut map,
        alloc,
        "refused",
        refused_value(alloc, side, refusal)?,
    )?;
    let mut text = Value::Object(map).to_vec(alloc)?;
    text.push(b'\n')?;
    Ok(text)
}
