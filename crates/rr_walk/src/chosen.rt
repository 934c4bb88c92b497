// The chosen moments of a rule from its start on, day after day.
ghost use Rattle.std.specs.Prelude.{◌≡◌, ◌≤ℤ◌, IfOk};
ghost use Rattle.rr_model.specs.Bounds.{earliest_day, latest_day};
ghost use Rattle.rr_model.specs.Moment.Units.{is_whole_days};
ghost use Rattle.rr_model.specs.Moment.Years.{IsInYears};
ghost use Rattle.rr_model.specs.Rule.Validity.{IsValidRule};
ghost use Rattle.rr_model.specs.Sets.Tree.{chosen_of};
ghost use Rattle.rr_shapes.specs.Tables.{Extends};
ghost use Rattle.rr_lazy.specs.Next.{IsNextIn, IsUnasked, KnowsEach, KnowsIf};
ghost use Rattle.rr_walk.specs.Ruling.{IsSameRuling, IsValidRuling, IsValidRuling-prop};
ghost use Rattle.rr_walk.specs.Steps.{HasBegun, tree_of_ruling};

use crate::day_rule::DayRule;
use crate::fine_rule::FineRule;
use crate::rule_walk::RuleWalk;
use rr_lazy::{Lazy, OccupiedDay};
use rr_model::{FIRST_DAY, Kind, NoMemory, Rule};
use rr_shapes::SetTable;
use std::alloc::Global;

/// The chosen moments of a rule from its start on, as its walk comes to them.
#[derive(Drop)]
pub struct Chosen<W: RuleWalk + Drop> {
    walk: W,
    position: i64,
    ghost valid: { IsValidRuling (W.ruling walk) } by { IsValidRuling-prop (W.ruling walk) },
    ghost begun: { HasBegun position },
}

/// The chosen moments of a rule with FREQ=SECONDLY.
pub type SecondLazy = Chosen<FineRule>;

/// The chosen moments of a rule with FREQ=MINUTELY.
pub type MinuteLazy = Chosen<FineRule>;

/// The chosen moments of a rule with FREQ=HOURLY.
pub type HourLazy = Chosen<FineRule>;

/// The chosen moments of a rule with FREQ=DAILY.
pub type DayLazy = Chosen<DayRule>;

/// The chosen moments of a rule with FREQ=WEEKLY.
pub type WeekLazy = Chosen<DayRule>;

/// The chosen moments of a rule with FREQ=MONTHLY.
pub type MonthLazy = Chosen<DayRule>;

/// The chosen moments of a rule with FREQ=YEARLY.
pub type YearLazy = Chosen<DayRule>;

impl<W: RuleWalk + Drop> Chosen<W> {
    /// The chosen moments of a rule from its start on, in years 1 to 9999. The start is in days or seconds since
    /// 1970-01-01. The rule's end is not asked.
    pub fn new(alloc: Global, rule: &Rule, kind: Kind, start: i64) -> Result<Chosen<W>, NoMemory>
        requires valid { IsValidRule kind rule.now }
        requires freq { is_whole_days rule.now.freq ≡ W.of_whole_days }
        requires in_years { IsInYears kind start }
        ensures tree { IfOk result
            (λ l. ⟦<Chosen<W> as Lazy>⟧.tree l ≡ chosen_of rule.now kind start) }
        ensures unasked { IfOk result (λ l. IsUnasked (⟦<Chosen<W> as Lazy>⟧.position l)) }
        ensures knows { IfOk result (λ l. KnowsEach (⟦<Chosen<W> as Lazy>⟧.knows l)) }
    {
        let walk = W::new(alloc, rule, kind, start)?;
        Ok(Chosen {
            walk,
            position: FIRST_DAY,
        })
    }

    // Goes on from a day: the days before it are passed over.
    pub(crate) fn skip_to(&mut self, day: i64)
        requires { ⟦<Chosen<W> as Lazy>⟧.position self.old ≤ℤ day }
        ensures tree { ⟦<Chosen<W> as Lazy>⟧.tree self.new
            ≡ ⟦<Chosen<W> as Lazy>⟧.tree self.old }
        ensures position { ⟦<Chosen<W> as Lazy>⟧.position self.new ≡ day }
        ensures knows { KnowsIf (⟦<Chosen<W> as Lazy>⟧.knows self.old)
            (⟦<Chosen<W> as Lazy>⟧.knows self.new) }
    {
        self.position = day;
    }
}

impl<W: RuleWalk + Drop> Lazy for Chosen<W> {
    ghost use Rattle.rr_walk.specs.Steps.{sound_ruling, tree_of_ruling};

    ghost tree = { λ s. tree_of_ruling (W.ruling s.walk) };

    ghost position = { λ s. s.position };

    ghost knows = { λ s sets. W.keeps s.walk sets };

    ghost knows_more = { λ s old new more k. W.more s.walk old new more k };

    ghost sound = { λ s. sound_ruling (W.ruling s.walk) s.position s.valid s.begun };

    fn next(
        &mut self,
        alloc: Global,
        sets: &mut SetTable,
        to: i64,
    ) -> Result<Option<OccupiedDay>, NoMemory> {
        step(&mut self.walk, alloc, sets, &mut self.position, to)
    }
}

// The first occupied day of a walk from a position up to a day, and where the next call begins.
fn step<W: RuleWalk>(
    walk: &mut W,
    alloc: Global,
    sets: &mut SetTable,
    position: &mut i64,
    to: i64,
) -> Result<Option<OccupiedDay>, NoMemory>
    requires valid { IsValidRuling (W.ruling walk.old) }
    requires begun { HasBegun position.old }
    requires low { earliest_day ≤ℤ to }
    requires high { to ≤ℤ latest_day }
    requires knows { W.keeps walk.old sets.old }
    ensures same { IsSameRuling (W.ruling walk.new) (W.ruling walk.old) }
    ensures knows { W.keeps walk.new sets.new }
    ensures kept { Extends sets.old sets.new }
    ensures next { IsNextIn sets.new (tree_of_ruling (W.ruling walk.old)) position.old
        to result position.new }
    ensures later { position.old ≤ℤ position.new }
{
    if *position > to {
        return Ok(None);
    }
    let from = (*position).max(walk.start_day());
    match walk.first_up_to(alloc, sets, from, to)? {
        None => {
            *position = to + 1;
            Ok(None)
        }
        Some(found) => {
            *position = found.day + 1;
            Ok(Some(found))
        }
    }
}
