// Rules, in the order in which they were put.
ghost use Rattle.std.specs.Prelude.{◌≡◌, [], ◌∷◌, ◌++◌, length, IfOk, OnOk, OnErr};
ghost use Rattle.rr_model.specs.Rule.Validity.{is_absent};

use crate::{NoMemory, Rule};
use std::alloc::Global;
use std::marker::Model;

/// Rules, in the order in which they were put.
#[derive(Drop)]
pub struct Rules {
    items: Vec<Rule>,
}

impl Model for Rules {
    ghost use Rattle.std.specs.Prelude.{List};
    ghost use Rattle.rr_model.specs.declared.rule.Rule.{Rule};

    ghost Value = { List Rule };

    ghost view = { λ l. l.items.items };
}

impl Rules {
    /// The empty list; it takes no memory.
    pub fn new(alloc: Global) -> Self
        ensures { result ≡ [] }
    {
        Rules {
            items: Vec::new(alloc),
        }
    }

    /// Puts a value at the end.
    pub fn put(&mut self, value: Rule) -> Result<(), NoMemory>
        ensures ok { OnOk result (self.new ≡ self.old ++ value ∷ []) }
        ensures err { OnErr result (self.new ≡ self.old) }
    {
        self.items.push(value)?;
        Ok(())
    }

    /// The rules, in the order in which they were put.
    pub fn as_slice(&self) -> &[Rule]
        ensures { result.now ≡ self.now }
    {
        self.items.as_slice()
    }

    /// Whether there is no value.
    pub fn is_empty(&self) -> bool
        ensures { result ≡ is_absent self.now }
    {
        self.items.is_empty()
    }

    /// How many values there are.
    pub fn len(&self) -> usize
        ensures { result ≡ length self.now }
    {
        self.items.len()
    }

    /// A copy of the list and of each rule, in memory of its own; `NoMemory` is the only error.
    pub fn copy(&self, alloc: Global) -> Result<Self, NoMemory>
        ensures { IfOk result (λ made. made ≡ self.now) }
    {
        let mut made = Rules::new(alloc);
        for rule in self.as_slice() {
            made.put(rule.copy(alloc)?)?;
        }
        Ok(made)
    }
}
