// The occurrences of a series that has nothing but one rule, and its start.
ghost use Rattle.std.specs.Prelude.{◌≡◌, true, IfOk, IsTrue, List, ℕ};
ghost use Rattle.rr_model.specs.Series.Soundness.{IsSound};
ghost use Rattle.rr_model.specs.Series.Tree.{tree_of};
ghost use Rattle.rr_model.specs.Sets.Tree.{IsOfOneKind, stands_in};
ghost use Rattle.rr_model.proofs.TreeLemmas.{IsOfOneKind-prop};
ghost use Rattle.rr_lazy.specs.Next.{IsUnasked};
ghost use Rattle.rr_iter.specs.Alone.{IsAlone, tree_alone};
ghost use Rattle.rr_iter.specs.Ended.{tree_of_ended};

use crate::EndedLazy;
use rr_lazy::{Lazy, OccupiedDay};
use rr_model::{Kind, NoMemory, Series};
use rr_shapes::SetTable;
use std::alloc::Global;

/// The occurrences of a series that has one rule, no excluded rule, and no date added or taken out. Its start is the rule's
/// first member, so they are the members of the rule.
#[derive(Drop)]
pub struct AloneLazy {
    pub(crate) members: EndedLazy,
    pub(crate) kind: Kind,
    pub(crate) start: i64,
    ghost one_kind: { IsOfOneKind
        (tree_alone kind start (tree_of_ended members)) } by { IsOfOneKind-prop
            (tree_alone kind start (tree_of_ended members)) },
    ghost has_start: { stands_in (tree_of_ended members) kind start ≡ true },
}

impl AloneLazy {
    /// The occurrences of such a series.
    pub(crate) fn new(alloc: Global, series: &Series) -> Result<AloneLazy, NoMemory>
        requires sound { IsSound series.now }
        requires alone { IsAlone series.now }
        ensures tree { IfOk result (λ l. ⟦<AloneLazy as Lazy>⟧.tree l ≡ tree_of series.now) }
        ensures unasked { IfOk result (λ l. IsUnasked (⟦<AloneLazy as Lazy>⟧.position l)) }
        ensures knows { IfOk result (λ l. (sets : List (List ℕ))
            → ⟦<AloneLazy as Lazy>⟧.knows l sets) }
    {
        let rule = &series.rules.as_slice()[0];
        let members = EndedLazy::new(alloc, rule, series.kind, series.start)?;
        Ok(AloneLazy {
            members,
            kind: series.kind,
            start: series.start,
        })
    }
}

// Whether a series has one rule and a start that counts, and nothing else.
pub(crate) fn is_alone(series: &Series) -> bool
    ensures { IsTrue result → IsAlone series.now }
{
    series.rules.len() == 1
        && series.start_counts
        && series.excluded.is_empty()
        && series.plus.is_empty()
        && series.minus.is_empty()
}

impl Lazy for AloneLazy {
    ghost use Rattle.rr_iter.specs.KnowsAlone.{sound_alone};
    ghost use Rattle.rr_iter.specs.Ended.{knows_ended, knows_ended_more, position_of_ended};

    ghost tree = { λ s. tree_alone s.kind s.start (tree_of_ended s.members) };

    ghost position = { λ s. position_of_ended s.members };

    ghost knows = { λ s sets. knows_ended s.members sets };

    ghost knows_more = { λ s old new more k. knows_ended_more s.members old new more k };

    ghost sound = { sound_alone };

    fn next(
        &mut self,
        alloc: Global,
        sets: &mut SetTable,
        to: i64,
    ) -> Result<Option<OccupiedDay>, NoMemory> {
        self.members.next(alloc, sets, to)
    }
}
