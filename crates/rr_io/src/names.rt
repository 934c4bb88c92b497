// Names with bytes, which the sources in memory hold.
ghost use Rattle.std.specs.Prelude.{◌≡◌, ◌<◌, ◌^◌, [], option_map, OnOk, OnErr};
ghost use Rattle.rr_io.specs.Names.{bytes_at, Sets};
ghost use Rattle.rr_io.specs.Outside.{IsFrontOf};

use rr_model::NoMemory;
use std::alloc::{AllocError, Global};
use std::collections::BTreeMap;
use std::marker::Model;

/// Names with bytes, each name once.
#[derive(Drop)]
pub struct Names {
    alloc: Global,
    map: BTreeMap<String, Vec<u8>>,
}

impl Model for Names {
    ghost use Rattle.std.specs.Prelude.{ℕ, List};

    ghost Value = { List (List ℕ × List ℕ) };

    ghost use Rattle.rr_io.specs.Names.{entries_of};

    ghost view = { λ n. entries_of n.map };
}

impl Names {
    /// Names to which nothing was added yet. It takes no memory.
    pub fn new(alloc: Global) -> Self
        ensures { result ≡ [] }
    {
        Names {
            alloc,
            map: BTreeMap::new(alloc),
        }
    }

    /// Puts these bytes under the name, in place of those that it had. Every other name keeps its own.
    pub fn hold(&mut self, name: &str, bytes: &[u8]) -> Result<(), NoMemory>
        ensures ok { OnOk result (Sets self.old self.new name.now bytes.now) }
        ensures err { OnErr result (self.new ≡ self.old) }
    {
        let key = String::from_str(self.alloc, name)?;
        let value = bytes.to_vec(self.alloc)?;
        self.map.insert(key, value)?;
        Ok(())
    }

    /// The bytes under the name; `None` if it is not there.
    pub fn get(&self, name: &str) -> Option<&[u8]>
        ensures { option_map (λ b. b.now) result ≡ bytes_at self.now name.now }
    {
        match self.map.get(name) {
            None => None,
            Some(bytes) => Some(bytes.as_slice()),
        }
    }
}

/// A copy of the bytes, cut after `limit + 1`.
pub fn front(alloc: Global, bytes: &[u8], limit: usize) -> Result<Vec<u8>, AllocError>
    requires { limit < 2 ^ 62 }
    ensures { IsFrontOf limit bytes.now result }
{
    bytes[..(limit + 1).min(bytes.len())].to_vec(alloc)
}
