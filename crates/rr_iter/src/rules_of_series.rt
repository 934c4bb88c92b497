// The members of some rules of a series.
ghost use Rattle.std.specs.Prelude.{◌≡◌, All, IfOk, List, ℕ};
ghost use Rattle.rr_iter.specs.Ends.{IsSoundRule};
ghost use Rattle.rr_model.specs.Series.Tree.{members_of_all};
ghost use Rattle.rr_lazy.specs.Next.{IsUnasked};

use crate::EndedLazy;
use rr_lazy::{Lazy, Many, OccupiedDay};
use rr_model::{Kind, NoMemory, Rule};
use rr_shapes::SetTable;
use std::alloc::Global;

/// The members of rules, or of excluded rules, of a series.
#[derive(Drop)]
pub struct RulesOfSeries {
    pub(crate) lazy: Many<EndedLazy>,
}

impl RulesOfSeries {
    ghost use Rattle.rr_model.specs.Sets.Tree.{many};

    /// The members of rules from one start on.
    pub(crate) fn new(
        alloc: Global,
        kind: Kind,
        start: i64,
        rules: &[Rule],
    ) -> Result<RulesOfSeries, NoMemory>
        requires sound { All (IsSoundRule kind start) rules.now }
        ensures tree { IfOk result (λ l.
            ⟦<RulesOfSeries as Lazy>⟧.tree l ≡ many (members_of_all kind start rules.now)) }
        ensures unasked { IfOk result (λ l. IsUnasked (⟦<RulesOfSeries as Lazy>⟧.position l)) }
        ensures knows { IfOk result (λ l. (sets : List (List ℕ))
            → ⟦<RulesOfSeries as Lazy>⟧.knows l sets) }
    {
        let mut lazy = Many::new(alloc);
        for rule in rules {
            let members = EndedLazy::new(alloc, rule, kind, start)?;
            lazy.put(members)?;
        }
        Ok(RulesOfSeries { lazy })
    }
}

impl Lazy for RulesOfSeries {
    ghost use Rattle.rr_iter.specs.KnowsRules.{knows_rules, knows_rules_more};
    ghost use Rattle.rr_lazy.specs.Many.{forest_of, sound_many};

    ghost tree = { λ s. ⟦<Many<EndedLazy> as Lazy>⟧.tree s.lazy };

    ghost position = { λ s. ⟦<Many<EndedLazy> as Lazy>⟧.position s.lazy };

    ghost knows = { knows_rules };

    ghost knows_more = { knows_rules_more };

    ghost sound = { λ s. sound_many
        (forest_of (λ p. ⟦<EndedLazy as Lazy>⟧.tree p.lazy) s.lazy.parts.items)
        s.lazy.position s.lazy.one_kind s.lazy.begun };

    fn next(
        &mut self,
        alloc: Global,
        sets: &mut SetTable,
        to: i64,
    ) -> Result<Option<OccupiedDay>, NoMemory> {
        self.lazy.next(alloc, sets, to)
    }
}
