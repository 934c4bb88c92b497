// What has been found of a plan, and what it may still take.
use crate::bounds::Looks;
use crate::events::Events;
use std::alloc::Global;

/// The events that have been found, and how many further exceptions and days looked at there may be.
#[derive(Drop)]
pub(crate) struct Plan {
    /// The events that have been found so far.
    pub events: Events,
    /// How many events there may be in all.
    pub most_parts: usize,
    /// How many more exceptions there may be.
    pub exceptions: usize,
    /// How many more days may be looked at.
    pub looks: Looks,
}

impl Plan {
    /// A plan without an event, for `most_parts` events with `most_exceptions` exceptions in all.
    pub(crate) fn new(alloc: Global, most_parts: usize, most_exceptions: usize) -> Plan {
        Plan {
            events: Events::new(alloc),
            most_parts,
            exceptions: most_exceptions,
            looks: Looks::new(),
        }
    }

    /// Whether `exceptions` further exceptions are allowed; then they are counted.
    pub(crate) fn allows(&mut self, exceptions: u32) -> bool {
        let exceptions = exceptions as usize;
        if self.exceptions < exceptions {
            return false;
        }
        self.exceptions -= exceptions;
        true
    }

    /// Whether there may be an event more.
    pub(crate) fn has_room(&self) -> bool {
        self.events.len() < self.most_parts
    }
}
