// The rank of a candidate among those of its unit, and what BYSETPOS lists (RFC 5545, section 3.3.10, BYSETPOS).
ghost use Rattle.std.specs.Prelude.{◌≡◌, IsTrue, false};
ghost use Rattle.rr_model.specs.Calendar.{IsDayWithin};
ghost use Rattle.rr_model.specs.Moment.Units.{is_whole_days, unit_seconds};
ghost use Rattle.rr_model.specs.Rule.Validity.{takes_start};
ghost use Rattle.rr_model.specs.declared.kind.Kind.TheVariants.{Moments};
ghost use Rattle.rr_setpos.specs.Ranks.{rank_by_parts, rank_over_days, rank_within_day, set_positions_hold, size_by_parts, size_over_days, size_within_day};

use crate::day_counts::{days_before, days_of_unit};
use crate::time_counts::{seconds_of, times_before};
use rr_model::{Freq, Rule, second_part};
use rr_parts::{Moment, lists_number};

// How many candidates of its unit come before one, and how many the unit has.
#[derive(Clone, Copy)]
pub(crate) struct Standing {
    pub(crate) rank: u32,
    pub(crate) size: u32,
}

// Whether BYSETPOS is absent, or lists a candidate's position in its unit, from the front or from the back.
pub(crate) fn set_positions_hold(rule: &Rule, start: &Moment, moment: &Moment) -> bool
    requires kind { start.now.kind ≡ moment.now.kind }
    requires start { IsTrue (takes_start rule.now.freq moment.now.kind) }
    requires near { IsDayWithin 0 moment.now.day.number }
    ensures { result ≡ set_positions_hold rule.now start.now.kind start.now.at moment.now.at }
{
    if rule.by_set_pos.is_empty() {
        return true;
    }
    let standing = rank_in_unit(rule, start, moment);
    lists_number(&rule.by_set_pos, i64::from(standing.rank) + 1)
        || lists_number(
            &rule.by_set_pos,
            -i64::from(standing.size.saturating_sub(standing.rank)),
        )
}

// The standing of a moment whose unit fits the interval.
fn rank_in_unit(rule: &Rule, start: &Moment, moment: &Moment) -> Standing
    requires kind { start.now.kind ≡ moment.now.kind }
    requires start { IsTrue (takes_start rule.now.freq moment.now.kind) }
    requires near { IsDayWithin 0 moment.now.day.number }
    ensures rank { result.rank
        ≡ rank_by_parts rule.now start.now.kind start.now.at moment.now.at }
    ensures size { result.size
        ≡ size_by_parts rule.now start.now.kind start.now.at moment.now.at }
{
    match rule.freq {
        Freq::Secondly => rank_in_day(rule, start, moment, 1),
        Freq::Minutely => rank_in_day(rule, start, moment, 60),
        Freq::Hourly => rank_in_day(rule, start, moment, 3_600),
        Freq::Daily | Freq::Weekly | Freq::Monthly | Freq::Yearly => {
            rank_by_days(rule, start, moment)
        }
    }
}

// The standing in a unit of whole days: the days before, each with all times, and the times before on its own day.
fn rank_by_days(rule: &Rule, start: &Moment, moment: &Moment) -> Standing
    requires kind { start.now.kind ≡ moment.now.kind }
    requires freq { IsTrue (is_whole_days rule.now.freq) }
    requires near { IsDayWithin 0 moment.now.day.number }
    ensures rank { result.rank ≡ rank_over_days rule.now start.now moment.now }
    ensures size { result.size ≡ size_over_days rule.now start.now moment.now }
{
    let before = days_before(rule, &start.day, &moment.day);
    let days = days_of_unit(rule, &start.day, &moment.day);
    let times = times_before(rule, start, seconds_of(start.kind));
    let second = second_part(moment.kind, moment.at);
    Standing {
        rank: before * times + times_before(rule, start, second),
        size: days * times,
    }
}

// The standing in a unit of seconds, which lies in one day.
fn rank_in_day(rule: &Rule, start: &Moment, moment: &Moment, seconds: u32) -> Standing
    requires kind { start.now.kind ≡ moment.now.kind }
    requires moments { moment.now.kind ≡ Moments }
    requires freq { is_whole_days rule.now.freq ≡ false }
    requires seconds { seconds ≡ unit_seconds rule.now.freq }
    ensures rank { result.rank ≡ rank_within_day rule.now start.now moment.now }
    ensures size { result.size ≡ size_within_day rule.now start.now moment.now }
{
    let second = second_part(moment.kind, moment.at);
    let begin = second / seconds * seconds;
    let before = times_before(rule, start, begin);
    Standing {
        rank: times_before(rule, start, second).saturating_sub(before),
        size: times_before(rule, start, begin + seconds).saturating_sub(before),
    }
}
