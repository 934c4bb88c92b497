// Series to go on with.
ghost use Rattle.std.specs.Prelude.{◌≡◌, IfOk};
ghost use Rattle.rr_model.specs.Series.Validity.{IsValidSeries};
ghost use Rattle.rr_start.specs.Start.{IsReread, restated};

use crate::off::first_of_off;
use rr_model::{NoMemory, Series};
use std::alloc::Global;

/// A series to go on with.
#[derive(Drop)]
pub struct Reading {
    /// The series as it was given, or restated if its start was off its rule.
    pub series: Series,
    /// Whether its start was off its rule.
    pub off: bool,
}

/// Restates a series whose start is off its rule: what it has occurs, and `check` takes it.
///
/// RFC 5545, section 3.8.5.3, calls a series undefined if its rule does not choose its start; the start is an
/// occurrence all the same, and then what the rule chooses. So the series that is given starts at the first moment
/// after the start that the rule chooses, and the start is one of its dates added (RDATE).
///
/// Only a series is restated that has one rule, without COUNT, and no excluded rule, whose rule chooses a moment after
/// the start, up to its UNTIL and in the years 1 to 9999, and that has room for a further date. Every other series is
/// given as it is.
pub fn reread(alloc: Global, series: Series) -> Result<Reading, NoMemory>
    requires { IsValidSeries series }
    ensures valid { IfOk result (λ read. IsValidSeries read.series) }
    ensures read { IfOk result (λ read. IsReread series read.series read.off) }
{
    match first_of_off(alloc, &series)? {
        None => Ok(Reading { series, off: false }),
        Some(first) => Ok(Reading {
            series: restated(series, first)?,
            off: true,
        }),
    }
}

// The series from another start on; the old start is a date added.
fn restated(mut series: Series, first: i64) -> Result<Series, NoMemory>
    ensures { IfOk result (λ made. made ≡ restated series first) }
{
    series.plus.put(series.start)?;
    series.start = first;
    Ok(series)
}
