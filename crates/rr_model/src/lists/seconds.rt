// Seconds of a day, rising without repeats.
ghost use Rattle.std.specs.Prelude.{◌≡◌, [], length, OnOk, OnErr, nat_lt};
ghost use Rattle.rr_model.specs.Rising.{Rises, with_value};
ghost use Rattle.rr_model.specs.Rule.Validity.{is_absent};

use crate::NoMemory;
use crate::lists::rising::put_rising;
use std::alloc::Global;
use std::marker::Model;

/// Seconds of a day, rising without repeats.
#[derive(Drop)]
pub struct Seconds {
    items: Vec<u32>,
}

impl Model for Seconds {
    ghost use Rattle.std.specs.Prelude.{List, ℕ, nat_lt};
    ghost use Rattle.rr_model.specs.Rising.{Rises};

    ghost Value = { List ℕ };

    ghost view = { λ l. l.items.items };

    ghost invariant = { λ l. Rises nat_lt l.items.items };
}

impl Seconds {
    /// The empty list; it takes no memory.
    pub fn new(alloc: Global) -> Self
        ensures { result ≡ [] }
    {
        Seconds {
            items: Vec::new(alloc),
        }
    }

    /// Puts a value at its place; one that is there already changes nothing.
    pub fn put(&mut self, value: u32) -> Result<(), NoMemory>
        ensures ok { OnOk result (self.new ≡ with_value nat_lt self.old value) }
        ensures err { OnErr result (self.new ≡ self.old) }
    {
        put_rising(&mut self.items, value)
    }

    /// The seconds from the least to the greatest.
    pub fn as_slice(&self) -> &[u32]
        ensures value { result.now ≡ self.now }
        ensures rises { Rises nat_lt result.now }
    {
        self.items.as_slice()
    }

    /// Whether there is no value.
    pub fn is_empty(&self) -> bool
        ensures { result ≡ is_absent self.now }
    {
        self.items.is_empty()
    }

    /// How many values there are.
    pub fn len(&self) -> usize
        ensures { result ≡ length self.now }
    {
        self.items.len()
    }
}
