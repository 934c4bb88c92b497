// The clocks of the zones that events name.
ghost use Rattle.std.specs.Prelude.{◌≡◌, false, map, not, option_and_then, option_map, All, IfOk, IfSome, OnOk};
ghost use Rattle.std.specs.Option.{is_some};
ghost use Rattle.rr_model.specs.Rule.Validity.{is_absent};
ghost use Rattle.rr_model.specs.Text.UsedLines.{after_colon, after_name};
ghost use Rattle.rr_events.specs.RawLines.{bytes_of};
ghost use Rattle.rr_text.specs.Appending.{Appends};
ghost use Rattle.rr_zone.specs.Known.{IsClockAmong, IsPlace};
ghost use Rattle.rr_zone.specs.Local.{is_turned, local_by_zone, local_event, utc_lines};
ghost use Rattle.rr_zone.specs.Moments.{utc_moment};
ghost use Rattle.rr_zone.specs.OtherZones.{line_of_zone, utc_line};
ghost use Rattle.rr_zone.specs.Unread.{fault_at, fault_by};
ghost use Rattle.rr_zone.specs.Zones.{IsNumbered, if_read, raw_lines_in, zone_at, zone_named};

use crate::clock::Clock;
use crate::event::Start;
use crate::line::utc_line;
use crate::rewritten::push_event;
use crate::zone::{Zone, ZoneFault, zone_in};
use rr_events::Piece;
use rr_model::{Bytes, NoMemory};
use std::alloc::Global;
use std::marker::Model;

/// A zone of a text by its name, with its clock, or why it can't be read.
#[derive(Drop)]
pub(crate) struct NamedClock {
    name: Bytes,
    clock: Result<Clock, ZoneFault>,
}

/// The zones of a text, with the clocks of those that were asked for.
#[derive(Drop)]
pub(crate) struct Clocks<'a> {
    zones: Vec<Piece<'a>>,
    known: Vec<NamedClock>,
}

impl<'a> Model for Clocks<'a> {
    ghost use Rattle.std.specs.Prelude.{List, map, All};
    ghost use Rattle.rr_events.specs.RawLines.{RawLine};
    ghost use Rattle.rr_zone.specs.Known.{IsClockAmong};
    ghost use Rattle.rr_zone.specs.Zones.{IsNumbered, raw_lines_in};

    ghost Value = { List (List RawLine) };

    ghost view = { λ c. map raw_lines_in c.zones.items };

    ghost invariant = { λ c. All IsNumbered c.zones.items
        × All (IsClockAmong (map raw_lines_in c.zones.items)) c.known.items };
}

// The clock of a zone by its name, or why the text has no such zone that can be read.
fn clock_of(
    alloc: Global,
    zones: &[Piece],
    name: &[u8],
) -> Result<Result<Clock, ZoneFault>, NoMemory>
    requires { All IsNumbered zones.now }
    ensures { IfOk result (λ clock. clock ≡ zone_named (map raw_lines_in zones.now) name.now) }
{
    match zone_in(alloc, zones, name)? {
        Ok(zone) => Ok(Ok(Clock::new(alloc, zone)?)),
        Err(fault) => Ok(Err(fault)),
    }
}

// The place of a zone that is known.
fn place_of(known: &[NamedClock], name: &[u8]) -> Option<usize>
    ensures { IfSome result (IsPlace known.now name.now) }
{
    for i in 0..known.len() {
        if known[i].name.as_slice() == name {
            return Some(i);
        }
    }
    None
}

// The place of a zone by its name, which is known from now on.
fn place_among(
    alloc: Global,
    zones: &[Piece],
    known: &mut Vec<NamedClock>,
    name: &[u8],
) -> Result<usize, NoMemory>
    requires zones { All IsNumbered zones.now }
    requires known { All (IsClockAmong (map raw_lines_in zones.now)) known.old.items }
    ensures place { IfOk result (IsPlace known.new.items name.now) }
    ensures known { All (IsClockAmong (map raw_lines_in zones.now)) known.new.items }
{
    if let Some(place) = place_of(known.as_slice(), name) {
        return Ok(place);
    }
    let clock = clock_of(alloc, zones, name)?;
    known.push(NamedClock {
        name: Bytes::of(alloc, name)?,
        clock,
    })?;
    Ok(known.len() - 1)
}

// The bytes of an event by the clock of its zone, if that can be read, and whether it can.
fn push_by_clock(
    alloc: Global,
    out: &mut Vec<u8>,
    entry: &mut NamedClock,
    others: &mut Clocks,
    name: &[u8],
    is_instance: bool,
    piece: Piece,
) -> Result<bool, NoMemory>
    requires { IsNumbered piece }
    ensures value { OnOk result (Appends out.old out.new
        (local_by_zone others.old name.now (if_read entry.old.clock) is_instance (raw_lines_in piece.entry))) }
    ensures turned { IfOk result (λ turned. turned ≡ is_some (if_read entry.old.clock)) }
    ensures entry { entry.new ≡ entry.old }
    ensures others { others.new ≡ others.old }
{
    match &mut entry.clock {
        Ok(clock) => {
            push_event(alloc, out, clock, others, Some(name), is_instance, piece)?;
            Ok(true)
        }
        Err(_) => {
            out.extend_from_slice(piece.text)?;
            Ok(false)
        }
    }
}

// A line with its local times, which are of this zone, in UTC, if it can be read.
fn line_by_clock(
    alloc: Global,
    entry: &mut NamedClock,
    text: &[u8],
) -> Result<Option<Vec<u8>>, NoMemory>
    ensures value { IfOk result (λ new. option_map (λ new. new.items) new
        ≡ option_and_then (λ zone. utc_line (utc_moment zone) text.now (after_colon false (after_name text.now)))
        (if_read entry.old.clock)) }
    ensures entry { entry.new ≡ entry.old }
{
    match &mut entry.clock {
        Ok(clock) => utc_line(alloc, clock, text),
        Err(_) => Ok(None),
    }
}

// Why a zone can't be read, if it can't.
fn fault_of(entry: &NamedClock) -> Option<ZoneFault>
    ensures { result ≡ fault_by entry.now.clock }
{
    match &entry.clock {
        Ok(_) => None,
        Err(fault) => Some(*fault),
    }
}

impl<'a> Clocks<'a> {
    /// No zone was asked for yet.
    pub(crate) fn new(alloc: Global, zones: Vec<Piece<'a>>) -> Self
        requires { All IsNumbered zones.items }
        ensures { result ≡ map raw_lines_in zones.entry.items }
    {
        Clocks {
            zones,
            known: Vec::new(alloc),
        }
    }

    /// Whether the text has zones.
    pub(crate) fn has_zones(&self) -> bool
        ensures { result ≡ not (is_absent self.now) }
    {
        !self.zones.is_empty()
    }

    /// The bytes of an event by the zone of this name, and whether there is one that can be read.
    pub(crate) fn push_event(
        &mut self,
        alloc: Global,
        out: &mut Vec<u8>,
        others: &mut Clocks,
        name: &[u8],
        is_instance: bool,
        piece: Piece,
    ) -> Result<bool, NoMemory>
        requires { IsNumbered piece }
        ensures value { OnOk result (Appends out.old out.new (local_by_zone others.old name.now
            (zone_at self.old name.now) is_instance (raw_lines_in piece.entry))) }
        ensures turned { IfOk result (λ turned. turned ≡ is_some (zone_at self.old name.now)) }
        ensures zones { self.new ≡ self.old }
        ensures others { others.new ≡ others.old }
    {
        let place = place_among(alloc, self.zones.as_slice(), &mut self.known, name)?;
        push_by_clock(
            alloc,
            out,
            &mut self.known[place],
            others,
            name,
            is_instance,
            piece,
        )
    }

    /// A line with its local times, which are of the zone of this name, in UTC, if there is one that can be read.
    pub(crate) fn utc_line(
        &mut self,
        alloc: Global,
        name: &[u8],
        text: &[u8],
    ) -> Result<Option<Vec<u8>>, NoMemory>
        ensures value { IfOk result (λ new. option_map (λ new. new.items) new
            ≡ line_of_zone self.old text.now name.now) }
        ensures zones { self.new ≡ self.old }
    {
        let place = place_among(alloc, self.zones.as_slice(), &mut self.known, name)?;
        line_by_clock(alloc, &mut self.known[place], text)
    }

    /// Why the zone of this name can't be read, if it can't.
    pub(crate) fn fault(
        &mut self,
        alloc: Global,
        name: &[u8],
    ) -> Result<Option<ZoneFault>, NoMemory>
        ensures value { IfOk result (λ fault. fault ≡ fault_at self.old name.now) }
        ensures zones { self.new ≡ self.old }
    {
        let place = place_among(alloc, self.zones.as_slice(), &mut self.known, name)?;
        Ok(fault_of(&self.known[place]))
    }
}

/// The zones of a text, with the clocks of those in which its series are stated, and of those that their lines name beside them.
#[derive(Drop)]
pub(crate) struct TextClocks<'a> {
    series: Clocks<'a>,
    others: Clocks<'a>,
}

impl<'a> Model for TextClocks<'a> {
    ghost use Rattle.std.specs.Prelude.{List, ◌≡◌};
    ghost use Rattle.rr_events.specs.RawLines.{RawLine};

    ghost Value = { List (List RawLine) };

    ghost view = { λ c. c.series };

    ghost invariant = { λ c. c.others ≡ c.series };
}

// The bytes of an event that is in UTC, in which its local times are put.
fn push_utc_event(
    alloc: Global,
    out: &mut Vec<u8>,
    others: &mut Clocks,
    is_instance: bool,
    piece: Piece,
) -> Result<bool, NoMemory>
    requires { IsNumbered piece }
    ensures value { OnOk result (Appends out.old out.new
        (utc_lines others.old is_instance (raw_lines_in piece.entry))) }
    ensures turned { IfOk result (λ turned. turned ≡ not (is_absent others.old)) }
    ensures others { others.new ≡ others.old }
{
    let has_zones = others.has_zones();
    let mut clock = Clock::new(alloc, Zone::new(alloc))?;
    push_event(alloc, out, &mut clock, others, None, is_instance, piece)?;
    Ok(has_zones)
}

/// A piece that stays, and that it is not turned.
pub(crate) fn push_piece(out: &mut Vec<u8>, piece: Piece) -> Result<bool, NoMemory>
    ensures value { OnOk result (Appends out.old out.new (bytes_of (raw_lines_in piece.entry))) }
    ensures turned { IfOk result (λ turned. turned ≡ false) }
{
    out.extend_from_slice(piece.text)?;
    Ok(false)
}

impl<'a> TextClocks<'a> {
    /// No zone was asked for yet.
    pub(crate) fn new(series: Clocks<'a>, others: Clocks<'a>) -> Self
        requires { others ≡ series }
        ensures { result ≡ series.entry }
    {
        TextClocks { series, others }
    }

    /// The bytes of an event by the start in whose zone it is written, and whether it is turned.
    pub(crate) fn push_event(
        &mut self,
        alloc: Global,
        out: &mut Vec<u8>,
        start: &Start,
        is_instance: bool,
        piece: Piece,
    ) -> Result<bool, NoMemory>
        requires { IsNumbered piece }
        ensures value { OnOk result (Appends out.old out.new
            (local_event self.old start.now is_instance (raw_lines_in piece.entry))) }
        ensures turned { IfOk result (λ turned. turned ≡ is_turned self.old start.now) }
        ensures zones { self.new ≡ self.old }
    {
        match start {
            Start::Utc => push_utc_event(alloc, out, &mut self.others, is_instance, piece),
            Start::Zoned(name) => self.series.push_event(
                alloc,
                out,
                &mut self.others,
                name.as_slice(),
                is_instance,
                piece,
            ),
            Start::Unzoned => push_piece(out, piece),
        }
    }
}
