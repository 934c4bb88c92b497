// Whether the start of a series is off its rule.
ghost use Rattle.std.specs.Prelude.{◌↔◌, IfOk, IsTrue};
ghost use Rattle.rr_model.specs.Rule.Validity.{EndsInYears};
ghost use Rattle.rr_model.specs.Series.Validity.{IsValidSeries};
ghost use Rattle.rr_start.specs.Search.{IsFirstOfOff, IsLastOfEnd, IsOpen};

use crate::first_chosen::first_chosen;
use rr_model::{End, Kind, MAX_DATES, NoMemory, Series, moment_at};
use rr_setpos::chosen;
use std::alloc::Global;

// 9999-12-31, in days since 1970-01-01: the last day that a text can state.
const LAST_DAY: i64 = 2_932_896;

// The last second of a day.
const LAST_SECOND: u32 = 86_399;

// The first moment after its start that the rule of a series chooses, if the start is off the rule. A rule that chooses its
// start is asked for nothing else.
pub(crate) fn first_of_off(alloc: Global, series: &Series) -> Result<Option<i64>, NoMemory>
    requires { IsValidSeries series.now }
    ensures { IfOk result (IsFirstOfOff series.now) }
{
    if !is_open(series) {
        return Ok(None);
    }
    let rule = &series.rules.as_slice()[0];
    if chosen(rule, series.kind, series.start, series.start) {
        return Ok(None);
    }
    match last_of_end(series.kind, rule.end) {
        None => Ok(None),
        Some(last) => first_chosen(alloc, rule, series.kind, series.start, last),
    }
}

// Whether a series has one rule, no excluded one, a start that counts, and room for a further date.
fn is_open(series: &Series) -> bool
    requires { IsValidSeries series.now }
    ensures { IsTrue result ↔ IsOpen series.now }
{
    series.start_counts
        && series.rules.len() == 1
        && series.excluded.is_empty()
        && series.plus.len() + series.minus.len() < MAX_DATES
}

// The last moment up to which a rule with this end is looked at: its UNTIL, or the end of the year 9999. None if it has a
// COUNT, or an UNTIL of another kind.
fn last_of_end(kind: Kind, end: End) -> Option<i64>
    requires { EndsInYears end }
    ensures { IsLastOfEnd kind end result }
{
    match end {
        End::Never => Some(moment_at(kind, LAST_DAY, LAST_SECOND)),
        End::Until { kind: other, at } if kind.is_same(other) => Some(at),
        _ => None,
    }
}
