// What is left of a series once the members of its excluded rules are taken out.
ghost use Rattle.std.specs.Prelude.{◌≡◌, IfOk, List, ℕ};
ghost use Rattle.rr_model.specs.Series.Soundness.{IsSound};
ghost use Rattle.rr_lazy.specs.Next.{IsUnasked};
ghost use Rattle.rr_iter.specs.Left.{tree_of_left};

use crate::dates_and_rules::DatesAndRules;
use crate::rules_of_series::RulesOfSeries;
use rr_lazy::{Except, Lazy, OccupiedDay};
use rr_model::{NoMemory, Series};
use rr_shapes::SetTable;
use std::alloc::Global;

/// The dates that are added to a series, its start if it counts, and the members of its rules, except the members of
/// its excluded rules.
#[derive(Drop)]
pub struct KeptLazy {
    pub(crate) lazy: Except<DatesAndRules, RulesOfSeries>,
}

impl KeptLazy {
    /// The dates of a series, its start among them if it counts, and the members of its rules that no excluded rule has.
    pub(crate) fn new(alloc: Global, series: &Series) -> Result<KeptLazy, NoMemory>
        requires sound { IsSound series.now }
        ensures tree { IfOk result (λ l. ⟦<KeptLazy as Lazy>⟧.tree l ≡ tree_of_left series.now) }
        ensures unasked { IfOk result (λ l. IsUnasked (⟦<KeptLazy as Lazy>⟧.position l)) }
        ensures knows { IfOk result (λ l. (sets : List (List ℕ))
            → ⟦<KeptLazy as Lazy>⟧.knows l sets) }
    {
        let all = DatesAndRules::new(alloc, series)?;
        let excluded = RulesOfSeries::new(
            alloc,
            series.kind,
            series.start,
            series.excluded.as_slice(),
        )?;
        Ok(KeptLazy {
            lazy: Except::new(all, excluded),
        })
    }
}

impl Lazy for KeptLazy {
    ghost use Rattle.rr_iter.specs.KnowsKept.{knows_kept, knows_kept_more};
    ghost use Rattle.rr_lazy.specs.Except.{sound_except};

    ghost tree = { λ s. ⟦<Except<DatesAndRules, RulesOfSeries> as Lazy>⟧.tree s.lazy };

    ghost position = { λ s. ⟦<Except<DatesAndRules, RulesOfSeries> as Lazy>⟧.position s.lazy };

    ghost knows = { knows_kept };

    ghost knows_more = { knows_kept_more };

    ghost sound = { λ s. sound_except (⟦<DatesAndRules as Lazy>⟧.tree s.lazy.a.lazy)
        (⟦<RulesOfSeries as Lazy>⟧.tree s.lazy.b.lazy)
        s.lazy.position s.lazy.one_kind s.lazy.begun };

    fn next(
        &mut self,
        alloc: Global,
        sets: &mut SetTable,
        to: i64,
    ) -> Result<Option<OccupiedDay>, NoMemory> {
        self.lazy.next(alloc, sets, to)
    }
}
