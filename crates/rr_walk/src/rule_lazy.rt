// The chosen moments of a rule.
ghost use Rattle.std.specs.Prelude.{◌≡◌, ◌≤ℤ◌, IfOk};
ghost use Rattle.rr_model.specs.Moment.Years.{IsInYears};
ghost use Rattle.rr_model.specs.Rule.Validity.{IsValidRule};
ghost use Rattle.rr_lazy.specs.Next.{IsUnasked, KnowsEach, KnowsIf};
ghost use Rattle.rr_model.specs.Sets.Tree.{chosen_of};

use crate::chosen::Chosen;
use crate::day_rule::DayRule;
use crate::fine_rule::FineRule;
use rr_lazy::{Lazy, OccupiedDay};
use rr_model::{Kind, NoMemory, Rule};
use rr_shapes::SetTable;
use std::alloc::Global;

/// The chosen moments of a rule from its start on.
#[derive(Drop)]
pub enum RuleLazy {
    /// Those of a rule in days, weeks, months or years.
    WholeDays(Chosen<DayRule>),
    /// Those of a rule in hours, minutes or seconds.
    FineUnits(Chosen<FineRule>),
}

impl RuleLazy {
    /// The chosen moments of a rule from its start on, in years 1 to 9999. The start is in days or seconds since
    /// 1970-01-01. The rule's end is not asked.
    pub fn new(alloc: Global, rule: &Rule, kind: Kind, start: i64) -> Result<RuleLazy, NoMemory>
        requires valid { IsValidRule kind rule.now }
        requires in_years { IsInYears kind start }
        ensures tree { IfOk result
            (λ l. ⟦<RuleLazy as Lazy>⟧.tree l ≡ chosen_of rule.now kind start) }
        ensures unasked { IfOk result (λ l. IsUnasked (⟦<RuleLazy as Lazy>⟧.position l)) }
        ensures knows { IfOk result (λ l. KnowsEach (⟦<RuleLazy as Lazy>⟧.knows l)) }
    {
        if rule.freq.is_whole_days() {
            Ok(RuleLazy::WholeDays(Chosen::new(alloc, rule, kind, start)?))
        } else {
            Ok(RuleLazy::FineUnits(Chosen::new(alloc, rule, kind, start)?))
        }
    }

    /// Goes on from a day, in days since 1970-01-01: the days before it are passed over.
    pub fn skip_to(&mut self, day: i64)
        requires { ⟦<RuleLazy as Lazy>⟧.position self.old ≤ℤ day }
        ensures tree { ⟦<RuleLazy as Lazy>⟧.tree self.new
            ≡ ⟦<RuleLazy as Lazy>⟧.tree self.old }
        ensures position { ⟦<RuleLazy as Lazy>⟧.position self.new ≡ day }
        ensures knows { KnowsIf (⟦<RuleLazy as Lazy>⟧.knows self.old)
            (⟦<RuleLazy as Lazy>⟧.knows self.new) }
    {
        match self {
            RuleLazy::WholeDays(lazy) => lazy.skip_to(day),
            RuleLazy::FineUnits(lazy) => lazy.skip_to(day),
        }
    }
}

impl Lazy for RuleLazy {
    ghost use Rattle.rr_walk.specs.Lazies.{knows_rule, knows_rule_more, position_of_rule, sound_rule, tree_of_rule};

    ghost tree = { tree_of_rule };

    ghost position = { position_of_rule };

    ghost knows = { knows_rule };

    ghost knows_more = { knows_rule_more };

    ghost sound = { sound_rule };

    fn next(
        &mut self,
        alloc: Global,
        sets: &mut SetTable,
        to: i64,
    ) -> Result<Option<OccupiedDay>, NoMemory> {
        match self {
            RuleLazy::WholeDays(lazy) => lazy.next(alloc, sets, to),
            RuleLazy::FineUnits(lazy) => lazy.next(alloc, sets, to),
        }
    }
}
