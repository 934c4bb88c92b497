// What an event of a vCalendar text states of itself (vCalendar 1.0, section 2.2).
ghost use Rattle.std.specs.Prelude.{◌≡◌, [], map, IfOk};
ghost use Rattle.rr_events.specs.Own.{own_lines};
ghost use Rattle.rr_vcalfile.specs.Parts.{lines_in};
ghost use Rattle.rr_vcalfile.specs.Stated.{first_line, key_by, key_of, lengths_of, states_utc, zone_of};

use crate::find::part_lines;
use crate::part::Part;
use rr_events::{first_value, own_lines};
use rr_length::{KeyLengths, event_length};
use rr_model::{Bytes, Line, NoMemory};
use rr_seam::Key;
use rr_text::{basic, trim};
use std::alloc::Global;

/// The number of the line that begins an event.
pub(crate) fn first_line(lines: &[Line]) -> u64
    ensures { result ≡ first_line lines.now }
{
    match lines {
        [line, ..] => line.number,
        [] => 0,
    }
}

// The key of an event by its first line and the value of its UID.
fn key_by(alloc: Global, first: u64, uid: &[u8]) -> Result<Key, NoMemory>
    ensures { IfOk result (λ key. key ≡ key_by first uid.now) }
{
    if uid.is_empty() {
        Ok(Key::Line(first))
    } else {
        Ok(Key::Uid(Bytes::of(alloc, uid)?))
    }
}

// The key of an event by its lines.
fn key_of_lines(alloc: Global, lines: &[Line]) -> Result<Key, NoMemory>
    ensures { IfOk result (λ key. key ≡ key_of lines.now) }
{
    let own = own_lines(alloc, lines)?;
    key_by(alloc, first_line(lines), first_value(b"UID", &own))
}

// The key of an event.
fn key_of(alloc: Global, part: Part) -> Result<Key, NoMemory>
    ensures { IfOk result (λ key. key ≡ key_of (lines_in part.entry)) }
{
    let lines = part_lines(alloc, part)?;
    key_of_lines(alloc, lines.as_slice())
}

/// The keys of events, in their order.
pub(crate) fn keys_of(alloc: Global, parts: &[Part]) -> Result<Vec<Key>, NoMemory>
    ensures { IfOk result (λ keys. keys.items ≡ map key_of (map lines_in parts.now)) }
{
    let mut keys = Vec::new(alloc);
    for part in parts {
        keys.push(key_of(alloc, *part)?)?;
    }
    Ok(keys)
}

// Whether a text states a moment of UTC.
fn states_utc(text: &[u8]) -> bool
    ensures { result ≡ states_utc text.now }
{
    match basic(trim(text)) {
        Some(stamp) => stamp.utc,
        None => false,
    }
}

// The zone of an event by its own lines: `Z` if its start is a moment of UTC, and none otherwise.
fn zone_of(alloc: Global, own: &[&Line]) -> Result<Bytes, NoMemory>
    ensures { IfOk result (λ zone. zone ≡ zone_of (map (λ line. line.now) own.now)) }
{
    if states_utc(first_value(b"DTSTART", own)) {
        Ok(Bytes::of(alloc, b"Z")?)
    } else {
        Ok(Bytes::new(alloc))
    }
}

// How long the occurrences of an event are by its own lines, if that can be told: all alike.
fn lengths_of(alloc: Global, own: &[&Line]) -> Option<KeyLengths>
    ensures { result ≡ lengths_of (map (λ line. line.now) own.now) }
{
    let length = event_length(own)?;
    Some(KeyLengths::of(length, Vec::new(alloc)))
}

/// What an event states beside its series.
#[derive(Drop)]
pub(crate) struct Besides {
    /// Its zone: `Z` if its start is a moment of UTC, and none otherwise.
    pub(crate) zone: Bytes,
    /// How long its occurrences are, if that can be told.
    pub(crate) lengths: Option<KeyLengths>,
}

/// Reads what an event with these lines states beside its series.
pub(crate) fn read_besides(alloc: Global, lines: &[Line]) -> Result<Besides, NoMemory>
    ensures zone { IfOk result (λ beside. beside.zone ≡ zone_of (own_lines [] lines.now)) }
    ensures lengths { IfOk result (λ beside. beside.lengths ≡ lengths_of (own_lines [] lines.now)) }
{
    let own = own_lines(alloc, lines)?;
    Ok(Besides {
        zone: zone_of(alloc, &own)?,
        lengths: lengths_of(alloc, &own),
    })
}
