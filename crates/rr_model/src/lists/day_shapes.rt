// Occupied days with their seconds, in the order in which they were put.
ghost use Rattle.std.specs.Prelude.{◌≡◌, [], ◌∷◌, ◌++◌, length, OnOk, OnErr};
ghost use Rattle.rr_model.specs.Rule.Validity.{is_absent};

use crate::{DayShape, NoMemory};
use std::alloc::Global;
use std::marker::Model;

/// Occupied days with their seconds, in the order in which they were put.
#[derive(Drop)]
pub struct DayShapes {
    items: Vec<DayShape>,
}

impl Model for DayShapes {
    ghost use Rattle.std.specs.Prelude.{List};
    ghost use Rattle.rr_model.specs.declared.sketch.DayShape.{DayShape};

    ghost Value = { List DayShape };

    ghost view = { λ l. l.items.items };
}

impl DayShapes {
    /// The empty list; it takes no memory.
    pub fn new(alloc: Global) -> Self
        ensures { result ≡ [] }
    {
        DayShapes {
            items: Vec::new(alloc),
        }
    }

    /// Puts a value at the end.
    pub fn put(&mut self, value: DayShape) -> Result<(), NoMemory>
        ensures ok { OnOk result (self.new ≡ self.old ++ value ∷ []) }
        ensures err { OnErr result (self.new ≡ self.old) }
    {
        self.items.push(value)?;
        Ok(())
    }

    /// The days, in the order in which they were put.
    pub fn as_slice(&self) -> &[DayShape]
        ensures { result.now ≡ self.now }
    {
        self.items.as_slice()
    }

    /// Whether there is no value.
    pub fn is_empty(&self) -> bool
        ensures { result ≡ is_absent self.now }
    {
        self.items.is_empty()
    }

    /// How many values there are.
    pub fn len(&self) -> usize
        ensures { result ≡ length self.now }
    {
        self.items.len()
    }
}
