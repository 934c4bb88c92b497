// The members of a rule.
ghost use Rattle.std.specs.Prelude.{◌≡◌, IfOk, List, ℕ};
ghost use Rattle.rr_model.specs.Moment.Years.{IsInYears};
ghost use Rattle.rr_model.specs.Rule.Validity.{EndsInYears, IsValidRule};
ghost use Rattle.rr_model.specs.Series.Soundness.{EndsNotBefore};
ghost use Rattle.rr_model.specs.Series.Tree.{members_of};
ghost use Rattle.rr_lazy.specs.Next.{IsUnasked};

use crate::UptoRule;
use rr_lazy::{FirstN, Lazy, OccupiedDay};
use rr_model::{End, Kind, NoMemory, Rule};
use rr_shapes::SetTable;
use rr_walk::RuleLazy;
use std::alloc::Global;

/// The members of a rule: its chosen moments from its start on, up to its end.
#[derive(Drop)]
pub enum EndedLazy {
    /// The members of a rule without end.
    Never(RuleLazy),
    /// The members of a rule with UNTIL alone.
    Until(UptoRule),
    /// The members of a rule with COUNT alone.
    Count(FirstN<RuleLazy>),
    /// The members of a rule with both, up to the earlier end.
    Both(FirstN<UptoRule>),
}

impl EndedLazy {
    /// The members of a rule from its start on, in years 1 to 9999. The start is in days or seconds since 1970-01-01.
    /// If the rule has an UNTIL, it lies in these years, is of the start's kind and not before it.
    pub fn new(alloc: Global, rule: &Rule, kind: Kind, start: i64) -> Result<EndedLazy, NoMemory>
        requires valid { IsValidRule kind rule.now }
        requires in_years { IsInYears kind start }
        requires ends_in_years { EndsInYears rule.now.end }
        requires ends_not_before { EndsNotBefore kind start rule.now.end }
        ensures tree { IfOk result (λ l.
            ⟦<EndedLazy as Lazy>⟧.tree l ≡ members_of kind start rule.now) }
        ensures unasked { IfOk result (λ l. IsUnasked (⟦<EndedLazy as Lazy>⟧.position l)) }
        ensures knows { IfOk result (λ l. (sets : List (List ℕ))
            → ⟦<EndedLazy as Lazy>⟧.knows l sets) }
    {
        let chosen = RuleLazy::new(alloc, rule, kind, start)?;
        Ok(match rule.end {
            End::Never => EndedLazy::Never(chosen),
            End::Until { at, .. } => EndedLazy::Until(UptoRule::new(chosen, kind, at)),
            End::Count(count) => EndedLazy::Count(FirstN::new(chosen, count)),
            End::Both { at, count, .. } => {
                EndedLazy::Both(FirstN::new(UptoRule::new(chosen, kind, at), count))
            }
        })
    }
}

impl Lazy for EndedLazy {
    ghost use Rattle.rr_iter.specs.Ended.{knows_ended, knows_ended_more, position_of_ended, sound_ended, tree_of_ended};

    ghost tree = { tree_of_ended };

    ghost position = { position_of_ended };

    ghost knows = { knows_ended };

    ghost knows_more = { knows_ended_more };

    ghost sound = { sound_ended };

    #[inline(always)]
    fn next(
        &mut self,
        alloc: Global,
        sets: &mut SetTable,
        to: i64,
    ) -> Result<Option<OccupiedDay>, NoMemory> {
        match self {
            EndedLazy::Never(lazy) => lazy.next(alloc, sets, to),
            EndedLazy::Until(lazy) => lazy.next(alloc, sets, to),
            EndedLazy::Count(lazy) => lazy.next(alloc, sets, to),
            EndedLazy::Both(lazy) => lazy.next(alloc, sets, to),
        }
    }
}
