// Values of BYDAY, rising without repeats by ordinal, then by weekday.
ghost use Rattle.std.specs.Prelude.{◌≡◌, [], length, IfOk, OnOk, OnErr};
ghost use Rattle.rr_model.specs.Rule.Validity.{is_absent};

use crate::lists::rising::put_rising;
use crate::{DayItem, NoMemory};
use std::alloc::Global;
use std::marker::Model;

/// Values of BYDAY, rising without repeats by ordinal, then by weekday.
#[derive(Drop)]
pub struct DayItems {
    items: Vec<DayItem>,
}

impl Model for DayItems {
    ghost use Rattle.std.specs.Prelude.{List};
    ghost use Rattle.rr_model.specs.declared.rule.DayItem.{DayItem};
    ghost use Rattle.rr_model.specs.Rising.{Rises, day_item_lt};

    ghost Value = { List DayItem };

    ghost view = { λ l. l.items.items };

    ghost invariant = { λ l. Rises day_item_lt l.items.items };
}

impl DayItems {
    ghost use Rattle.rr_model.specs.Rising.{Rises, with_value, day_item_lt};

    /// The empty list; it takes no memory.
    pub fn new(alloc: Global) -> Self
        ensures { result ≡ [] }
    {
        DayItems {
            items: Vec::new(alloc),
        }
    }

    /// Puts a value at its place; one that is there already changes nothing.
    pub fn put(&mut self, value: DayItem) -> Result<(), NoMemory>
        ensures ok { OnOk result (self.new ≡ with_value day_item_lt self.old value) }
        ensures err { OnErr result (self.new ≡ self.old) }
    {
        put_rising(&mut self.items, value)
    }

    /// The values from the least to the greatest.
    pub fn as_slice(&self) -> &[DayItem]
        ensures value { result.now ≡ self.now }
        ensures rises { Rises day_item_lt result.now }
    {
        self.items.as_slice()
    }

    /// Whether there is no value.
    pub fn is_empty(&self) -> bool
        ensures { result ≡ is_absent self.now }
    {
        self.items.is_empty()
    }

    /// How many values there are.
    pub fn len(&self) -> usize
        ensures { result ≡ length self.now }
    {
        self.items.len()
    }

    /// A copy of the list, in memory of its own; `NoMemory` is the only error.
    pub fn copy(&self, alloc: Global) -> Result<Self, NoMemory>
        ensures { IfOk result (λ made. made ≡ self.now) }
    {
        Ok(DayItems {
            items: Vec::from_slice(alloc, self.items.as_slice())?,
        })
    }
}
