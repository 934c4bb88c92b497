// The series of RFC 5545 that has the occurrences of a series of vCalendar 1.0.
ghost use Rattle.std.specs.Prelude.{◌≡◌, All, IfOk};
ghost use Rattle.rr_model.specs.Calendar.{IsDayWithin};
ghost use Rattle.rr_model.specs.Moment.{day_part};
ghost use Rattle.rr_model.specs.Series.Validity.{IsValidSeries};
ghost use Rattle.rr_model.specs.Vcal.Counterpart.{rules_of_vrules, series_of_vseries};
ghost use Rattle.rr_model.specs.Vcal.Validity.{IsValidVRule, IsValidVSeries};

use crate::to_rule;
use rr_model::{Kind, NoMemory, Rules, Series, VRule, VSeries};
use std::alloc::Global;

// The counterparts of the rules.
fn rules_of(alloc: Global, kind: Kind, start: i64, rules: &[VRule]) -> Result<Rules, NoMemory>
    requires rules { All IsValidVRule rules.now }
    requires start { IsDayWithin 1000 (day_part kind start) }
    ensures { IfOk result (λ made. made ≡ rules_of_vrules kind start rules.now) }
{
    let mut made = Rules::new(alloc);
    for rule in rules {
        made.put(to_rule(alloc, rule, kind, start)?)?;
    }
    Ok(made)
}

/// The series of RFC 5545, section 3.8.5, that has the occurrences of a series of vCalendar 1.0.
///
/// Its start counts, its rules and excluded rules are those of `to_rule`, and its dates are the same.
#[tactic(auto, unfolding(rr_model::specs::Vcal::Counterpart::series_of_vseries))]
pub fn to_series(alloc: Global, series: &VSeries) -> Result<Series, NoMemory>
    requires { IsValidVSeries series.now }
    ensures value { IfOk result (λ made. made ≡ series_of_vseries series.now) }
    ensures valid { IfOk result IsValidSeries }
{
    let plus = series.plus.copy(alloc)?;
    let minus = series.minus.copy(alloc)?;
    let rules = rules_of(alloc, series.kind, series.start, series.rules.as_slice())?;
    let excluded = rules_of(alloc, series.kind, series.start, series.excluded.as_slice())?;
    Ok(Series {
        kind: series.kind,
        start: series.start,
        start_counts: true,
        rules,
        excluded,
        plus,
        minus,
    })
}
