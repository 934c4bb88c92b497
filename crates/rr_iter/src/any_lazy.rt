// The occurrences of a series.
ghost use Rattle.std.specs.Prelude.{◌≡◌, IfOk, List, ℕ};
ghost use Rattle.rr_model.specs.Series.Soundness.{IsSound};
ghost use Rattle.rr_model.specs.Series.Tree.{tree_of};
ghost use Rattle.rr_lazy.specs.Next.{IsUnasked};

use crate::alone_lazy::is_alone;
use crate::{AloneLazy, KeptLazy};
use rr_check::Checked;
use rr_lazy::{Lazy, OccupiedDay, Without};
use rr_model::{NoMemory, Series};
use rr_shapes::SetTable;
use std::alloc::Global;

/// The iterator over the days of a series, a tree of shells: each takes days from those inside it. A series that has nothing but
/// one rule and its start has the rule alone. Any other has, from the outside in, `Without` for EXDATE, `KeptLazy` for the excluded
/// rules, and in that `DatesAndRules`, which unites the start and RDATE with the rules.
#[derive(Drop)]
pub enum AnyLazy {
    /// Of a series that has nothing but one rule, and its start.
    Alone(AloneLazy),
    /// Of any other: without a rule, with several, with dates beside them, with excluded rules, or with a start that
    /// does not count.
    Whole(Without<KeptLazy>),
}

/// The occurrences of a series (RFC 5545, section 3.8.5): its start if it counts, the members of its rules and the
/// dates added, without the members of its excluded rules and the dates taken out.
pub fn occurrences(alloc: Global, series: &Checked) -> Result<AnyLazy, NoMemory>
    ensures tree { IfOk result (λ l. ⟦<AnyLazy as Lazy>⟧.tree l ≡ tree_of series.now) }
    ensures unasked { IfOk result (λ l. IsUnasked (⟦<AnyLazy as Lazy>⟧.position l)) }
    ensures knows { IfOk result (λ l. (sets : List (List ℕ)) → ⟦<AnyLazy as Lazy>⟧.knows l sets) }
{
    let given = series.series();
    if is_alone(given) {
        let alone = AloneLazy::new(alloc, given)?;
        return Ok(AnyLazy::Alone(alone));
    }
    let whole = whole_lazy(alloc, given)?;
    Ok(AnyLazy::Whole(whole))
}

// The occurrences of a series, whatever it has.
fn whole_lazy(alloc: Global, series: &Series) -> Result<Without<KeptLazy>, NoMemory>
    requires sound { IsSound series.now }
    ensures tree { IfOk result (λ l. ⟦<Without<KeptLazy> as Lazy>⟧.tree l ≡ tree_of series.now) }
    ensures unasked { IfOk result (λ l. IsUnasked (⟦<Without<KeptLazy> as Lazy>⟧.position l)) }
    ensures knows { IfOk result (λ l. (sets : List (List ℕ))
        → ⟦<Without<KeptLazy> as Lazy>⟧.knows l sets) }
{
    let kept = KeptLazy::new(alloc, series)?;
    let minus = series.minus.copy(alloc)?;
    Ok(Without::new(kept, series.kind, minus))
}

impl Lazy for AnyLazy {
    ghost use Rattle.rr_iter.specs.KnowsAny.{knows_any, knows_any_more, position_of_any, sound_any, tree_of_any};

    ghost tree = { tree_of_any };

    ghost position = { position_of_any };

    ghost knows = { knows_any };

    ghost knows_more = { knows_any_more };

    ghost sound = { sound_any };

    fn next(
        &mut self,
        alloc: Global,
        sets: &mut SetTable,
        to: i64,
    ) -> Result<Option<OccupiedDay>, NoMemory> {
        match self {
            AnyLazy::Alone(lazy) => lazy.next(alloc, sets, to),
            AnyLazy::Whole(lazy) => lazy.next(alloc, sets, to),
        }
    }
}
