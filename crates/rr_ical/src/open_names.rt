// The stack of the components that are open (RFC 5545, section 3.6).
ghost use Rattle.std.specs.Prelude.{◌≡◌, [], ◌∷◌, drop, cond, OnOk};
ghost use Rattle.rr_model.specs.Rule.Validity.{is_absent};
ghost use Rattle.rr_model.specs.Text.Event.{is_in_event};
ghost use Rattle.rr_ical.specs.Steps.{Becomes};
ghost use Rattle.rr_ical.specs.Components.{closed_by, is_within_event, open_after};
ghost use Rattle.rr_ical.specs.Sought.{is_observance, is_within, is_zone};

use crate::names::{is_event, is_same_name, line_kind};
use crate::value::value_of_line;
use rr_model::{Bytes, Fault, Line, LineKind, NoMemory, Refusal};
use std::alloc::Global;
use std::marker::Model;

/// Which components are looked for.
#[derive(Clone, Copy, Debug, PartialEq, Eq)]
pub enum Sought {
    /// Components named VEVENT alone.
    Events,
    /// Components named VEVENT and VTIMEZONE.
    EventsAndZones,
    /// STANDARD and DAYLIGHT, the observances of a VTIMEZONE.
    Observances,
}

// Names of components compare in either case.
fn is_zone(name: &[u8]) -> bool
    ensures { result ≡ is_zone name.now }
{
    is_same_name(name, b"VTIMEZONE")
}

fn is_observance(name: &[u8]) -> bool
    ensures { result ≡ is_observance name.now }
{
    is_same_name(name, b"STANDARD") || is_same_name(name, b"DAYLIGHT")
}

// 1 if it is so, and otherwise 0.
fn number_if(is_so: bool) -> usize
    ensures { result ≡ cond is_so 1 0 }
{
    if is_so { 1 } else { 0 }
}

/// The names of the components that are open, the innermost at the end, and how many of them are events, zones and
/// observances.
#[derive(Drop)]
pub struct OpenNames {
    names: Vec<Bytes>,
    events: usize,
    zones: usize,
    observances: usize,
}

impl Model for OpenNames {
    ghost use Rattle.std.specs.Prelude.{◌≡◌, ℕ, List, reverse};
    ghost use Rattle.std.specs.List.{count_by};
    ghost use Rattle.rr_model.specs.Text.Event.{is_event};
    ghost use Rattle.rr_ical.specs.Sought.{is_observance, is_zone};

    ghost Value = { List (List ℕ) };

    ghost view = { λ n. reverse n.names.items };

    ghost invariant = { λ n. (n.events ≡ count_by is_event (reverse n.names.items))
        × (n.zones ≡ count_by is_zone (reverse n.names.items))
        × (n.observances ≡ count_by is_observance (reverse n.names.items)) };
}

impl OpenNames {
    /// The stack before the first line: no component is open.
    pub fn new(alloc: Global) -> Self
        ensures { result ≡ [] }
    {
        OpenNames {
            names: Vec::new(alloc),
            events: 0,
            zones: 0,
            observances: 0,
        }
    }

    /// Whether no component is open.
    pub fn is_empty(&self) -> bool
        ensures { result ≡ is_absent self.now }
    {
        self.names.is_empty()
    }

    /// Whether the innermost component is an event.
    pub fn is_in_event(&self) -> bool
        ensures { result ≡ is_in_event self.now }
    {
        match self.names.last() {
            Some(name) => is_event(name.as_slice()),
            None => false,
        }
    }

    /// Whether some component is an event.
    pub fn is_within_event(&self) -> bool
        ensures { result ≡ is_within_event self.now }
    {
        self.events > 0
    }

    /// Whether some component is one that is looked for.
    pub fn is_within(&self, sought: Sought) -> bool
        ensures { result ≡ is_within sought self.now }
    {
        match sought {
            Sought::Events => self.events > 0,
            Sought::EventsAndZones => self.events > 0 || self.zones > 0,
            Sought::Observances => self.observances > 0,
        }
    }

    /// A component of this name is opened.
    pub(crate) fn begin(&mut self, name: Bytes) -> Result<(), NoMemory>
        ensures { OnOk result (self.new ≡ name ∷ self.old) }
    {
        let event = number_if(is_event(name.as_slice()));
        let zone = number_if(is_zone(name.as_slice()));
        let observance = number_if(is_observance(name.as_slice()));
        self.names.push(name)?;
        self.events += event;
        self.zones += zone;
        self.observances += observance;
        Ok(())
    }

    // The innermost component, if there is one, is closed.
    fn pop(&mut self)
        ensures { self.new ≡ drop 1 self.old }
    {
        let Some(innermost) = self.names.pop() else {
            return;
        };
        let name = innermost.as_slice();
        self.events -= number_if(is_event(name));
        self.zones -= number_if(is_zone(name));
        self.observances -= number_if(is_observance(name));
    }

    /// The innermost component is closed, if it has this name; otherwise the line of this number is refused.
    pub(crate) fn end(&mut self, number: u64, name: &[u8]) -> Result<(), Fault>
        ensures { Becomes (closed_by number self.old name.now) self.new result }
    {
        match self.names.last() {
            Some(innermost) if is_same_name(name, innermost.as_slice()) => {
                self.pop();
                Ok(())
            }
            _ => Err(Fault::Refused(Refusal::BadLine(number))),
        }
    }

    /// One line more. `BadLine` comes for a BEGIN or END without a value, and for an END that does not close the innermost
    /// component.
    #[tactic(auto, unfolding(crate::specs::Components::open_after))]
    pub fn step(&mut self, alloc: Global, line: &Line) -> Result<(), Fault>
        ensures { Becomes (open_after self.old line.now) self.new result }
    {
        let text = line.text.as_slice();
        let kind = line_kind(text);
        if !matches!(kind, LineKind::Begin | LineKind::End) {
            return Ok(());
        }
        let Some(name) = value_of_line(text) else {
            return Err(Fault::Refused(Refusal::BadLine(line.number)));
        };
        if matches!(kind, LineKind::Begin) {
            Ok(self.begin(Bytes::of(alloc, name)?)?)
        } else {
            self.end(line.number, name)
        }
    }
}
