// The dates that are added to a series, its start if it counts, and the members of its rules.
ghost use Rattle.std.specs.Prelude.{◌≡◌, IfOk, List, ℕ};
ghost use Rattle.rr_model.specs.Series.Soundness.{IsSound};
ghost use Rattle.rr_model.specs.Series.Tree.{dates_with_start, tree_of_given};
ghost use Rattle.rr_lazy.specs.Next.{IsUnasked};

use crate::rules_of_series::RulesOfSeries;
use rr_lazy::{DatesLazy, Lazy, OccupiedDay, Union};
use rr_model::{Dates, NoMemory, Series};
use rr_shapes::SetTable;
use std::alloc::Global;

/// The dates that are added to a series, its start if it counts, and the members of its rules.
#[derive(Drop)]
pub struct DatesAndRules {
    pub(crate) lazy: Union<DatesLazy, RulesOfSeries>,
}

impl DatesAndRules {
    /// The dates of a series, its start among them if it counts, and the members of its rules.
    pub(crate) fn new(alloc: Global, series: &Series) -> Result<DatesAndRules, NoMemory>
        requires sound { IsSound series.now }
        ensures tree { IfOk result (λ l. ⟦<DatesAndRules as Lazy>⟧.tree l
            ≡ tree_of_given series.now) }
        ensures unasked { IfOk result (λ l. IsUnasked (⟦<DatesAndRules as Lazy>⟧.position l)) }
        ensures knows { IfOk result (λ l. (sets : List (List ℕ))
            → ⟦<DatesAndRules as Lazy>⟧.knows l sets) }
    {
        let dates = DatesLazy::new(series.kind, dates_with_start(alloc, series)?);
        let rules = RulesOfSeries::new(alloc, series.kind, series.start, series.rules.as_slice())?;
        Ok(DatesAndRules {
            lazy: Union::new(dates, rules),
        })
    }
}

// The dates that are added to a series, and its start if it counts.
fn dates_with_start(alloc: Global, series: &Series) -> Result<Dates, NoMemory>
    ensures { IfOk result (λ dates. dates ≡ dates_with_start series.now) }
{
    let mut dates = series.plus.copy(alloc)?;
    if series.start_counts {
        dates.put(series.start)?;
    }
    Ok(dates)
}

impl Lazy for DatesAndRules {
    ghost use Rattle.rr_iter.specs.KnowsAll.{knows_all, knows_all_more};
    ghost use Rattle.rr_lazy.specs.Ahead.{sound_union};

    ghost tree = { λ s. ⟦<Union<DatesLazy, RulesOfSeries> as Lazy>⟧.tree s.lazy };

    ghost position = { λ s. ⟦<Union<DatesLazy, RulesOfSeries> as Lazy>⟧.position s.lazy };

    ghost knows = { knows_all };

    ghost knows_more = { knows_all_more };

    ghost sound = { λ s. sound_union (⟦<DatesLazy as Lazy>⟧.tree s.lazy.a.lazy)
        (⟦<RulesOfSeries as Lazy>⟧.tree s.lazy.b.lazy)
        s.lazy.position s.lazy.one_kind s.lazy.begun };

    fn next(
        &mut self,
        alloc: Global,
        sets: &mut SetTable,
        to: i64,
    ) -> Result<Option<OccupiedDay>, NoMemory> {
        self.lazy.next(alloc, sets, to)
    }
}
