// Numbers of time sets by residues.
ghost use Rattle.std.specs.Prelude.{◌≡◌, ℕ, [], OnOk, OnErr, if◌then◌else◌, Some, nat_eq};
ghost use Rattle.std.specs.Map.{lookup};

use indexmap::IndexMap;
use rr_model::NoMemory;
use std::alloc::Global;
use std::marker::Model;

/// The number of a time set by the residue of a day's first unit modulo the interval of a rule finer than daily.
///
/// Contracts see it as the list of the residues with their numbers.
#[derive(Drop)]
pub struct Residues {
    known: IndexMap<u64, u32>,
}

impl Model for Residues {
    ghost use Rattle.std.specs.Prelude.{ℕ, List};

    ghost Value = { List (ℕ × ℕ) };

    ghost view = { λ r. r.known.entries };
}

impl Residues {
    /// No numbers yet; it takes no memory.
    pub fn new(alloc: Global) -> Residues
        ensures { result ≡ [] }
    {
        Residues {
            known: IndexMap::new(alloc),
        }
    }

    /// The number of a residue; None exactly if none was put. It takes no memory.
    pub fn get(&self, residue: u64) -> Option<u32>
        ensures { result ≡ lookup (nat_eq residue) self.now }
    {
        self.known.get(&residue).copied()
    }

    /// Sets the number of a residue, in place of the one that it has, if any; all others stay. Out of memory, all is as it was.
    pub fn put(&mut self, residue: u64, number: u32) -> Result<(), NoMemory>
        ensures ok { OnOk result ((r : ℕ) → lookup (nat_eq r) self.new
            ≡ (if nat_eq r residue then Some number else lookup (nat_eq r) self.old)) }
        ensures err { OnErr result (self.new ≡ self.old) }
    {
        match self.known.insert(residue, number) {
            Ok(_) => Ok(()),
            Err(_) => Err(NoMemory),
        }
    }
}
