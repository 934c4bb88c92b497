// The components that are open, of a text that has one event (RFC 5545, section 3.6).
ghost use Rattle.std.specs.Prelude.{◌≡◌, OnOk};
ghost use Rattle.rr_model.specs.Text.Event.{Components, no_components, is_in_event, after_begin, after_end, stop_at_end};
ghost use Rattle.rr_ical.specs.Steps.{Becomes, with_component};

use crate::names::is_event;
use crate::open_names::OpenNames;
use rr_model::{Bytes, Fault, NoMemory, Refusal};
use std::alloc::Global;
use std::marker::Model;

/// The open components, and whether an event was begun.
#[derive(Drop)]
pub(crate) struct Nesting {
    names: OpenNames,
    had_event: bool,
}

impl Model for Nesting {
    ghost use Rattle.rr_model.specs.Text.Event.{Components};

    ghost Value = { Components };

    ghost view = { λ n. record { open_names = n.names; had_event = n.had_event } };
}

impl Nesting {
    /// No component is open.
    pub(crate) fn new(alloc: Global) -> Self
        ensures { result ≡ no_components }
    {
        Nesting {
            names: OpenNames::new(alloc),
            had_event: false,
        }
    }

    /// Whether the innermost component is the event.
    pub(crate) fn is_in_event(&self) -> bool
        ensures { result ≡ is_in_event self.now.open_names }
    {
        self.names.is_in_event()
    }

    /// Opens a component; a second event is refused.
    pub(crate) fn begin(&mut self, name: Bytes) -> Result<(), Fault>
        ensures { Becomes (after_begin self.old name) self.new result }
    {
        let event = is_event(name.as_slice());
        if event && self.had_event {
            return Err(Fault::Refused(Refusal::SeveralEvents));
        }
        Ok(self.nest(name, event)?)
    }

    // A component more is open.
    fn nest(&mut self, name: Bytes, event: bool) -> Result<(), NoMemory>
        ensures { OnOk result (self.new ≡ with_component self.old name event) }
    {
        self.names.begin(name)?;
        self.had_event |= event;
        Ok(())
    }

    /// Closes the innermost component, if it has this name.
    pub(crate) fn end(&mut self, number: u64, name: &[u8]) -> Result<(), Fault>
        ensures { Becomes (after_end number self.old self.old.open_names name.now) self.new result }
    {
        self.names.end(number, name)
    }

    /// The fault of a text that ends here, with `last` physical lines.
    pub(crate) fn stop_at_end(&self, last: u64) -> Option<Refusal>
        ensures { result ≡ stop_at_end last self.now }
    {
        if self.names.is_empty() {
            None
        } else {
            Some(Refusal::BadLine(last))
        }
    }
}
