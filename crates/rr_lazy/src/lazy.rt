// Occupied days one after another.
ghost use Rattle.std.specs.Prelude.{◌≡◌, List, ℕ, ℤ, ◌≤ℤ◌};
ghost use Rattle.rr_model.specs.Bounds.{earliest_day, latest_day};
ghost use Rattle.rr_lazy.specs.Next.{IsNextIn, IsSoundLazy};
ghost use Rattle.rr_model.specs.Sets.Tree.{Tree};
ghost use Rattle.rr_shapes.specs.Tables.{Extends};

use crate::OccupiedDay;
use rr_model::NoMemory;
use rr_shapes::SetTable;
use std::alloc::Global;

/// The occupied days of a set of occurrences, one after another.
///
/// It stands for a tree of rules and dates, and has a position, the day from which on it looks. The seconds of a day are
/// told by a number in a table of sets, which is the same in every call and can serve several iterators.
pub trait Lazy {
    /// The tree of rules and dates that it stands for.
    ghost tree: { Self → Tree };

    /// The day from which on the next call looks.
    ghost position: { Self → ℤ };

    /// The numbers that it keeps are those of this table; one that was not asked keeps none.
    ghost knows: { Self → List (List ℕ) → Type 0 };

    /// The first occupied day from the position up to `to`, with all its seconds; the position is then the day after it.
    ///
    /// None exactly if no day from the position up to `to` is occupied; the position is then the day after `to`, or
    /// stays if it was past it. After out of memory the position is as it was.
    fn next(
        &mut self,
        alloc: Global,
        sets: &mut SetTable,
        to: i64,
    ) -> Result<Option<OccupiedDay>, NoMemory>
        requires low { earliest_day ≤ℤ to }
        requires high { to ≤ℤ latest_day }
        requires knows { knows self.old sets.old }
        ensures tree { tree self.new ≡ tree self.old }
        ensures knows { knows self.new sets.new }
        ensures kept { Extends sets.old sets.new }
        ensures next { IsNextIn sets.new (tree self.old) (position self.old)
            to result (position self.new) };

    /// What it knows of a table it knows of one that goes on.
    ghost knows_more: { (s : Self) (old new : List (List ℕ)) → Extends old new
        → knows s old → knows s new };

    /// The tree is of one kind, and the position is not before 0001-01-01.
    ghost sound: { (s : Self) → IsSoundLazy (tree s) (position s) };
}
