// Unfolded lines (RFC 5545, section 3.1).
ghost use Rattle.std.specs.Prelude.{◌≡◌, [], ◌∷◌, ◌++◌, OnOk, OnErr};

use crate::{Bytes, NoMemory};
use std::alloc::Global;
use std::marker::Model;

/// An unfolded line (RFC 5545, section 3.1).
#[derive(Drop)]
pub struct Line {
    /// The number of its first physical line, from 1.
    pub number: u64,
    /// Its text, without line breaks.
    pub text: Bytes,
}

/// Unfolded lines, in the order in which they were put.
#[derive(Drop)]
pub struct LineList {
    items: Vec<Line>,
}

impl Model for LineList {
    ghost use Rattle.std.specs.Prelude.{List};
    ghost use Rattle.rr_model.specs.declared.line.Line.{Line};

    ghost Value = { List Line };

    ghost view = { λ l. l.items.items };
}

impl LineList {
    /// The empty list; it takes no memory.
    pub fn new(alloc: Global) -> Self
        ensures { result ≡ [] }
    {
        LineList {
            items: Vec::new(alloc),
        }
    }

    /// Puts a value at the end.
    pub fn put(&mut self, value: Line) -> Result<(), NoMemory>
        ensures ok { OnOk result (self.new ≡ self.old ++ value ∷ []) }
        ensures err { OnErr result (self.new ≡ self.old) }
    {
        self.items.push(value)?;
        Ok(())
    }

    /// The lines, in the order in which they were put.
    pub fn as_slice(&self) -> &[Line]
        ensures { result.now ≡ self.now }
    {
        self.items.as_slice()
    }

    /// The lines in order, moved out of the list.
    pub fn into_items(self) -> Vec<Line>
        ensures { result.items ≡ self }
    {
        self.items
    }
}
