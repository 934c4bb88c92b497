// What the names of zones mean.
ghost use Rattle.std.specs.Prelude.{ℕ, List, Option, IfOk, ℤ, option_map};
ghost use Rattle.rr_true.specs.Changes.{offset_of};
ghost use Rattle.rr_true.specs.Names.{Means};

use crate::offsets::Offsets;
use rr_model::NoMemory;
use std::alloc::Global;

/// What the names of zones mean in one calendar (RFC 5545, section 3.2.19).
pub trait ZoneNames {
    /// The offsets that a name means, if it means any.
    ghost meaning: { Self → List ℕ → Option (ℤ → ℤ) };

    /// The offsets that a name means; None exactly if it means nothing.
    fn offsets(&self, alloc: Global, name: &[u8]) -> Result<Option<Offsets>, NoMemory>
        ensures { IfOk result (λ found. Means (meaning self.now name.now) (option_map offset_of found)) };
}
