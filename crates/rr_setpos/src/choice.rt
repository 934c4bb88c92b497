// Chosen moments.
ghost use Rattle.std.specs.Prelude.{◌≡◌, ◌≤◌};
ghost use Rattle.rr_model.specs.Calendar.{IsDayWithin};
ghost use Rattle.rr_model.specs.Rule.Candidate.{date_parts_hold, is_candidate};
ghost use Rattle.rr_model.specs.Rule.Chosen.{is_chosen};
ghost use Rattle.rr_model.specs.Rule.Filled.{filled_rule};
ghost use Rattle.rr_model.specs.Moment.{day_part};
ghost use Rattle.rr_model.specs.Moment.Years.{IsInYears};
ghost use Rattle.rr_model.specs.Rule.Validity.{IsValidRule};

use crate::set_positions::set_positions_hold;
use rr_cal::Day;
use rr_model::{Kind, Rule};
use rr_parts::{Moment, date_parts_hold, interval_holds, time_parts_hold};

/// Whether the rule with this start chooses a moment (RFC 5545, section 3.3.10), which may lie before the start.
///
/// Both are day numbers in kind `Days`, and second numbers in kind `Moments`. UNTIL and COUNT do not enter.
/// It takes no memory, and visits the numbers of the lists and, for BYSETPOS, the days of the moment's unit, but no
/// seconds.
pub fn chosen(rule: &Rule, kind: Kind, start: i64, at: i64) -> bool
    requires rule { IsValidRule kind rule.now }
    requires start { IsInYears kind start }
    requires near { IsDayWithin 0 (day_part kind at) }
    ensures { result ≡ is_chosen rule.now kind start at }
{
    let start = Moment::new(kind, start);
    let moment = Moment::new(kind, at);
    is_candidate(rule, &start, &moment) && set_positions_hold(rule, &start, &moment)
}

// Whether the moment is a candidate of the rule with this start.
#[tactic(auto, unfolding(rr_model::specs::Rule::Candidate::is_candidate))]
pub(crate) fn is_candidate(rule: &Rule, start: &Moment, moment: &Moment) -> bool
    requires kind { start.now.kind ≡ moment.now.kind }
    requires interval { 1 ≤ rule.now.interval }
    ensures { result ≡ is_candidate rule.now start.now.kind start.now.at moment.now.at }
{
    interval_holds(rule, start, moment)
        && dates_hold(rule, start, &moment.day)
        && time_parts_hold(rule, start, moment)
}

// Whether each date part of the rule, filled from its start, holds of the day.
fn dates_hold(rule: &Rule, start: &Moment, day: &Day) -> bool
    ensures { result
        ≡ date_parts_hold (filled_rule rule.now start.now.kind start.now.at) day.now.number }
{
    date_parts_hold(rule, &start.day, day)
}
