// Rules of vCalendar 1.0, in the order in which they were put.
ghost use Rattle.std.specs.Prelude.{◌≡◌, [], ◌∷◌, ◌++◌, OnOk, OnErr};

use crate::{NoMemory, VRule};
use std::alloc::Global;
use std::marker::Model;

/// Rules of vCalendar 1.0, in the order in which they were put.
#[derive(Drop)]
pub struct VRules {
    items: Vec<VRule>,
}

impl Model for VRules {
    ghost use Rattle.std.specs.Prelude.{List};
    ghost use Rattle.rr_model.specs.declared.vcal.VRule.{VRule};

    ghost Value = { List VRule };

    ghost view = { λ l. l.items.items };
}

impl VRules {
    /// The empty list; it takes no memory.
    pub fn new(alloc: Global) -> Self
        ensures { result ≡ [] }
    {
        VRules {
            items: Vec::new(alloc),
        }
    }

    /// Puts a value at the end.
    pub fn put(&mut self, value: VRule) -> Result<(), NoMemory>
        ensures ok { OnOk result (self.new ≡ self.old ++ value ∷ []) }
        ensures err { OnErr result (self.new ≡ self.old) }
    {
        self.items.push(value)?;
        Ok(())
    }

    /// The rules, in the order in which they were put.
    pub fn as_slice(&self) -> &[VRule]
        ensures { result.now ≡ self.now }
    {
        self.items.as_slice()
    }
}
