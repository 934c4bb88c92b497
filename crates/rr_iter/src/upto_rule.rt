// The chosen moments of a rule up to its UNTIL.
ghost use Rattle.std.specs.Prelude.{◌≡◌, List, ℕ};
ghost use Rattle.rr_model.specs.Sets.Tree.{IsOfOneKind, upto};
ghost use Rattle.rr_lazy.specs.Next.{IsUnasked};

use rr_lazy::{Lazy, OccupiedDay, Upto};
use rr_model::{Kind, NoMemory};
use rr_shapes::SetTable;
use rr_walk::RuleLazy;
use std::alloc::Global;

/// The chosen moments of a rule from its start on that are not after a moment.
#[derive(Drop)]
pub struct UptoRule {
    pub(crate) lazy: Upto<RuleLazy>,
}

impl UptoRule {
    /// Up to a moment of the rule's kind, which may still occur. The part has not been asked.
    pub(crate) fn new(lazy: RuleLazy, kind: Kind, at: i64) -> UptoRule
        requires one_kind { IsOfOneKind (upto (⟦<RuleLazy as Lazy>⟧.tree lazy) kind at) }
        requires unasked { IsUnasked (⟦<RuleLazy as Lazy>⟧.position lazy) }
        ensures tree { ⟦<UptoRule as Lazy>⟧.tree result
            ≡ upto (⟦<RuleLazy as Lazy>⟧.tree lazy) kind at }
        ensures unasked { IsUnasked (⟦<UptoRule as Lazy>⟧.position result) }
        ensures knows { (sets : List (List ℕ)) → ⟦<RuleLazy as Lazy>⟧.knows lazy sets
            → ⟦<UptoRule as Lazy>⟧.knows result sets }
    {
        UptoRule {
            lazy: Upto::new(lazy, kind, at),
        }
    }
}

impl Lazy for UptoRule {
    ghost use Rattle.rr_walk.specs.Lazies.{knows_rule_more};
    ghost use Rattle.rr_lazy.specs.Upto.{sound_upto};

    ghost tree = { λ s. ⟦<Upto<RuleLazy> as Lazy>⟧.tree s.lazy };

    ghost position = { λ s. ⟦<Upto<RuleLazy> as Lazy>⟧.position s.lazy };

    ghost knows = { λ s sets. ⟦<Upto<RuleLazy> as Lazy>⟧.knows s.lazy sets };

    ghost knows_more = { λ s old new more k. knows_rule_more s.lazy.lazy old new more k };

    ghost sound = { λ s. sound_upto (⟦<RuleLazy as Lazy>⟧.tree s.lazy.lazy)
        s.lazy.kind s.lazy.at s.lazy.position s.lazy.one_kind s.lazy.begun };

    fn next(
        &mut self,
        alloc: Global,
        sets: &mut SetTable,
        to: i64,
    ) -> Result<Option<OccupiedDay>, NoMemory> {
        self.lazy.next(alloc, sets, to)
    }
}
