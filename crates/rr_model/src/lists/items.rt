// Items of a rule of vCalendar 1.0, rising without repeats.
ghost use Rattle.std.specs.Prelude.{◌≡◌, [], OnOk, OnErr};

use crate::lists::rising::put_rising;
use crate::{Item, NoMemory};
use std::alloc::Global;
use std::marker::Model;

/// Items of a rule of vCalendar 1.0, rising without repeats.
#[derive(Drop)]
pub struct Items {
    items: Vec<Item>,
}

impl Model for Items {
    ghost use Rattle.std.specs.Prelude.{List};
    ghost use Rattle.rr_model.specs.declared.item.Item.{Item};
    ghost use Rattle.rr_model.specs.Rising.{Rises};
    ghost use Rattle.rr_model.specs.Vcal.Items.{item_lt};

    ghost Value = { List Item };

    ghost view = { λ l. l.items.items };

    ghost invariant = { λ l. Rises item_lt l.items.items };
}

impl Items {
    ghost use Rattle.rr_model.specs.Rising.{with_value};
    ghost use Rattle.rr_model.specs.Vcal.Items.{item_lt};

    /// The empty list; it takes no memory.
    pub fn new(alloc: Global) -> Self
        ensures { result ≡ [] }
    {
        Items {
            items: Vec::new(alloc),
        }
    }

    /// Puts a value at its place; one that is there already changes nothing.
    pub fn put(&mut self, value: Item) -> Result<(), NoMemory>
        ensures ok { OnOk result (self.new ≡ with_value item_lt self.old value) }
        ensures err { OnErr result (self.new ≡ self.old) }
    {
        put_rising(&mut self.items, value)
    }

    /// The items from the least to the greatest.
    pub fn as_slice(&self) -> &[Item]
        ensures { result.now ≡ self.now }
    {
        self.items.as_slice()
    }
}
