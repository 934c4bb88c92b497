// The lines of an event that a reader uses (RFC 5545, sections 3.6.1 and 3.8).
ghost use Rattle.std.specs.Prelude.{◌≡◌, [], ◌∷◌, ◌++◌, OnOk, OnErr, take};

use crate::{Bytes, NoMemory, Refusal};
use std::alloc::Global;
use std::marker::Model;

/// The name of a line of an event that its readers use (RFC 5545, section 3.8).
#[derive(Clone, Copy, Debug, PartialEq, Eq)]
pub enum LineName {
    /// DTSTART, the start of the event (section 3.8.2.4).
    Dtstart,
    /// RRULE, a recurrence rule (section 3.8.5.3).
    Rrule,
    /// RDATE, dates that occur besides (section 3.8.5.2).
    Rdate,
    /// EXDATE, dates that do not occur (section 3.8.5.1).
    Exdate,
    /// EXRULE, an excluded rule (RFC 2445, section 4.8.5.2).
    Exrule,
}

/// Which line a line is by its name.
#[derive(Clone, Copy, Debug, PartialEq, Eq)]
pub enum LineKind {
    /// BEGIN, which opens a component.
    Begin,
    /// END, which closes the innermost open component.
    End,
    /// A property that an event's readers use.
    Property(LineName),
    /// Any other line, which is passed over.
    Other,
}

/// A used line of the event.
#[derive(Drop)]
pub struct UsedLine {
    /// The number of its first physical line, from 1.
    pub number: u64,
    /// The name that stands before its parameters.
    pub name: LineName,
    /// Its value, without the blanks and tabs around it.
    pub value: Bytes,
}

/// Used lines, in the order in which they were put.
#[derive(Drop)]
pub struct Used {
    items: Vec<UsedLine>,
}

impl Model for Used {
    ghost use Rattle.std.specs.Prelude.{List};
    ghost use Rattle.rr_model.specs.declared.used.UsedLine.{UsedLine};

    ghost Value = { List UsedLine };

    ghost view = { λ l. l.items.items };
}

impl Used {
    /// The empty list; it takes no memory.
    pub fn new(alloc: Global) -> Self
        ensures { result ≡ [] }
    {
        Used {
            items: Vec::new(alloc),
        }
    }

    /// Puts a value at the end.
    pub fn put(&mut self, value: UsedLine) -> Result<(), NoMemory>
        ensures ok { OnOk result (self.new ≡ self.old ++ value ∷ []) }
        ensures err { OnErr result (self.new ≡ self.old) }
    {
        self.items.push(value)?;
        Ok(())
    }

    /// Takes away all but the first `count` lines, if there are more.
    pub fn truncate(&mut self, count: usize)
        ensures { self.new ≡ take count self.old }
    {
        self.items.truncate(count);
    }

    /// The lines, in the order in which they were put.
    pub fn as_slice(&self) -> &[UsedLine]
        ensures { result.now ≡ self.now }
    {
        self.items.as_slice()
    }
}

/// The used lines of the one event, up to the first fault in the sequence of components.
#[derive(Drop)]
pub struct Scan {
    /// The used lines before the first fault of the components.
    pub used: Used,
    /// That fault, if there is one: `BadLine` or `SeveralEvents`.
    pub stop: Option<Refusal>,
}
