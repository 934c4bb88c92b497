// What the walks over whole days and over units shorter than a day have in common.
ghost use Rattle.std.specs.Prelude.{◌≡◌, ◌+ℤ◌, Bool, IfOk, List, [], pos, ℕ};
ghost use Rattle.rr_model.specs.Calendar.{IsDayWithin};
ghost use Rattle.rr_model.specs.Moment.{day_part};
ghost use Rattle.rr_model.specs.Moment.Units.{is_whole_days};
ghost use Rattle.rr_model.specs.Moment.Years.{IsInYears};
ghost use Rattle.rr_model.specs.Rule.Validity.{IsValidRule};
ghost use Rattle.rr_shapes.specs.Tables.{Extends};
ghost use Rattle.rr_lazy.specs.Next.{KnowsEach};
ghost use Rattle.rr_walk.specs.Ruling.{IsSameRuling, Ruling, ruling_of};
ghost use Rattle.rr_walk.specs.Steps.{tree_of_ruling};
ghost use Rattle.rr_walk.specs.Walk.{IsFirstUpToIn};

use rr_lazy::OccupiedDay;
use rr_model::{Kind, NoMemory, Rule};
use rr_shapes::SetTable;
use std::alloc::Global;

/// The walk over the occupied days of a rule beside its start: of whole days, or of units shorter than a day.
pub trait RuleWalk: Sized {
    /// The rule beside its start, and the numbers of sets that are kept for its days.
    ghost ruling: { Self → Ruling };

    /// The numbers that it keeps are those of this table.
    ghost keeps: { Self → List (List ℕ) → Type 0 };

    /// What it keeps of a table it keeps of one that goes on.
    ghost more: { (s : Self) (old new : List (List ℕ)) → Extends old new
        → keeps s old → keeps s new };

    /// Whether its rules are of whole days.
    ghost of_whole_days: { Bool };

    /// The rule beside its start, in years 1 to 9999. No number is kept yet.
    fn new(alloc: Global, rule: &Rule, kind: Kind, start: i64) -> Result<Self, NoMemory>
        requires valid { IsValidRule kind rule.now }
        requires freq { is_whole_days rule.now.freq ≡ of_whole_days }
        requires in_years { IsInYears kind start }
        ensures same { IfOk result
            (λ w. IsSameRuling (ruling w) (ruling_of rule.now kind start [])) }
        ensures keeps { IfOk result (λ w. KnowsEach (keeps w)) };

    /// The day of the start, in days since 1970-01-01.
    fn start_day(&self) -> i64
        ensures { result ≡ day_part (ruling self.now).kind (ruling self.now).start };

    /// The first occupied day from a day on and not after another, in days since 1970-01-01.
    fn first_up_to(
        &mut self,
        alloc: Global,
        sets: &mut SetTable,
        from: i64,
        to: i64,
    ) -> Result<Option<OccupiedDay>, NoMemory>
        requires from { IsDayWithin 0 from }
        requires to { IsDayWithin 0 to }
        requires next { IsDayWithin 0 (to +ℤ pos 1) }
        requires knows { keeps self.old sets.old }
        ensures same { IsSameRuling (ruling self.new) (ruling self.old) }
        ensures knows { keeps self.new sets.new }
        ensures kept { Extends sets.old sets.new }
        ensures found { IfOk result
            (IsFirstUpToIn sets.new (tree_of_ruling (ruling self.old)) from to) };
}
