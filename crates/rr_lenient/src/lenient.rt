// Series as calendars show them.
ghost use Rattle.std.specs.Prelude.{IfOk};
ghost use Rattle.rr_model.specs.Series.Validity.{IsValidSeries};
ghost use Rattle.rr_lenient.specs.Lenient.{IsLenient};

use crate::ends::settle_ends;
use rr_model::{NoMemory, Series};
use rr_start::reread;
use std::alloc::Global;

/// A series as calendars show it, and how it is at odds with RFC 5545.
#[derive(Drop)]
pub struct Lenient {
    /// The series as calendars show it.
    pub series: Series,
    /// Whether an UNTIL had another kind than the start (section 3.3.10).
    pub until: bool,
    /// Whether its rule did not choose its start (section 3.8.5.3).
    pub start: bool,
}

/// Reads a series as calendars show it: first each UNTIL of another kind than the start as one of its kind, as `settle_ends` does,
/// then the start as an occurrence if its rule does not choose it, as `reread` does.
///
/// A series that `check` takes is given as it is, with no mark.
pub fn read_leniently(alloc: Global, series: Series) -> Result<Lenient, NoMemory>
    requires { IsValidSeries series }
    ensures valid { IfOk result (λ read. IsValidSeries read.series) }
    ensures read { IfOk result (λ read. IsLenient series read.series read.until read.start) }
{
    let settled = settle_ends(alloc, series)?;
    let read = reread(alloc, settled.series)?;
    Ok(Lenient {
        series: read.series,
        until: settled.until,
        start: read.off,
    })
}
