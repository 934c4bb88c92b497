// Numbers, rising without repeats.
ghost use Rattle.std.specs.Prelude.{◌≡◌, [], length, IfOk, OnOk, OnErr, int_lt};
ghost use Rattle.rr_model.specs.Rising.{Rises, with_value};
ghost use Rattle.rr_model.specs.Rule.Validity.{is_absent};

use crate::NoMemory;
use crate::lists::rising::put_rising;
use std::alloc::Global;
use std::marker::Model;

/// The numbers of a BY part, rising without repeats; one from the back is negative (RFC 5545, section 3.3.10).
#[derive(Drop)]
pub struct Numbers {
    items: Vec<i16>,
}

impl Model for Numbers {
    ghost use Rattle.std.specs.Prelude.{List, ℤ, int_lt};
    ghost use Rattle.rr_model.specs.Rising.{Rises};

    ghost Value = { List ℤ };

    ghost view = { λ l. l.items.items };

    ghost invariant = { λ l. Rises int_lt l.items.items };
}

impl Numbers {
    /// The empty list; it takes no memory.
    pub fn new(alloc: Global) -> Self
        ensures { result ≡ [] }
    {
        Numbers {
            items: Vec::new(alloc),
        }
    }

    /// Puts a value at its place; one that is there already changes nothing.
    pub fn put(&mut self, value: i16) -> Result<(), NoMemory>
        ensures ok { OnOk result (self.new ≡ with_value int_lt self.old value) }
        ensures err { OnErr result (self.new ≡ self.old) }
    {
        put_rising(&mut self.items, value)
    }

    /// The numbers from the least to the greatest.
    pub fn as_slice(&self) -> &[i16]
        ensures value { result.now ≡ self.now }
        ensures rises { Rises int_lt result.now }
    {
        self.items.as_slice()
    }

    /// Whether there is no value.
    pub fn is_empty(&self) -> bool
        ensures { result ≡ is_absent self.now }
    {
        self.items.is_empty()
    }

    /// How many values there are.
    pub fn len(&self) -> usize
        ensures { result ≡ length self.now }
    {
        self.items.len()
    }

    /// A copy of the list, in memory of its own; `NoMemory` is the only error.
    pub fn copy(&self, alloc: Global) -> Result<Self, NoMemory>
        ensures { IfOk result (λ made. made ≡ self.now) }
    {
        Ok(Numbers {
            items: Vec::from_slice(alloc, self.items.as_slice())?,
        })
    }
}
