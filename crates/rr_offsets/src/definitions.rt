// What the names of zones mean by the VTIMEZONEs of a calendar text.
ghost use Rattle.std.specs.Prelude.{◌≡◌, ◌++◌, map, option_map, All, IfOk, OnOk};
ghost use Rattle.rr_events.specs.Segments.{section_in};
ghost use Rattle.rr_offsets.specs.Meanings.{if_steady, is_zone, meaning_in, zones_of_text};
ghost use Rattle.rr_true.specs.Changes.{offset_of};
ghost use Rattle.rr_true.specs.Names.{Means};
ghost use Rattle.rr_zone.specs.Parts.{part_of, zones_in};
ghost use Rattle.rr_zone.specs.Zones.{IsNumbered, raw_lines_in};

use crate::steady::is_steady;
use crate::zone_offsets::offsets_of;
use rr_events::{Piece, Segment, segments};
use rr_ical::Sought;
use rr_model::{Fault, NoMemory};
use rr_text::without_mark;
use rr_true::{Offsets, ZoneNames};
use rr_zone::{Zone, begins_event, zone_in};
use std::alloc::Global;
use std::marker::Model;

/// The VTIMEZONEs of a calendar text (RFC 5545, section 3.6.5), which say what the names of zones mean. Contracts see them as
/// their lines.
#[derive(Drop)]
pub struct Definitions<'a> {
    zones: Vec<Piece<'a>>,
}

impl<'a> Model for Definitions<'a> {
    ghost use Rattle.std.specs.Prelude.{List, map, All};
    ghost use Rattle.rr_events.specs.RawLines.{RawLine};
    ghost use Rattle.rr_zone.specs.Zones.{IsNumbered, raw_lines_in};

    ghost Value = { List (List RawLine) };

    ghost view = { λ d. map raw_lines_in d.zones.items };

    ghost invariant = { λ d. All IsNumbered d.zones.items };
}

// Whether a segment is a VTIMEZONE.
fn is_zone(alloc: Global, segment: Segment) -> Result<bool, NoMemory>
    requires { IsNumbered segment.piece }
    ensures { IfOk result (λ is. is ≡ is_zone (section_in segment.entry)) }
{
    if segment.is_component {
        Ok(!begins_event(alloc, segment.piece)?)
    } else {
        Ok(false)
    }
}

// The VTIMEZONEs among the segments.
fn zones_of<'a>(alloc: Global, segments: &[Segment<'a>]) -> Result<Vec<Piece<'a>>, NoMemory>
    requires { All (λ segment. IsNumbered segment.piece) segments.now }
    ensures zones { IfOk result (λ zones. map raw_lines_in zones.items
        ≡ zones_in (map part_of (map section_in segments.now))) }
    ensures numbered { IfOk result (λ zones. All IsNumbered zones.items) }
{
    let mut zones = Vec::new(alloc);
    for segment in segments {
        let segment = *segment;
        if is_zone(alloc, segment)? {
            zones.push(segment.piece)?;
        }
    }
    Ok(zones)
}

/// The VTIMEZONEs of a text. A text whose components are at fault has none.
#[tactic(auto, unfolding(crate::specs::Meanings::zones_of_text))]
pub fn definitions_of<'a>(alloc: Global, bytes: &'a [u8]) -> Result<Definitions<'a>, NoMemory>
    ensures { IfOk result (λ definitions. definitions ≡ zones_of_text bytes.now) }
{
    let text = without_mark(bytes);
    match segments(alloc, Sought::EventsAndZones, Piece { text, first: 1 }) {
        Ok(segments) => Ok(Definitions {
            zones: zones_of(alloc, segments.as_slice())?,
        }),
        Err(Fault::Refused(_)) => Ok(Definitions {
            zones: Vec::new(alloc),
        }),
        Err(Fault::NoMemory) => Err(NoMemory),
    }
}

// The offsets of a zone, if its rules go on each year.
fn if_steady(alloc: Global, zone: Zone) -> Result<Option<Offsets>, NoMemory>
    ensures { IfOk result (λ found. Means (if_steady zone) (option_map offset_of found)) }
{
    let observances = zone.as_slice();
    if is_steady(observances) {
        Ok(Some(offsets_of(alloc, observances)?))
    } else {
        Ok(None)
    }
}

impl<'a> ZoneNames for Definitions<'a> {
    ghost meaning = { meaning_in };

    fn offsets(&self, alloc: Global, name: &[u8]) -> Result<Option<Offsets>, NoMemory> {
        match zone_in(alloc, self.zones.as_slice(), name)? {
            Ok(zone) => if_steady(alloc, zone),
            Err(_) => Ok(None),
        }
    }
}
