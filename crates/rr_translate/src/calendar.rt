// Into RFC 5545.
ghost use Rattle.std.specs.Prelude.{◌≤◌, IfOk};
ghost use Rattle.rr_model.specs.Series.Cycle.{series_cycle};
ghost use Rattle.rr_model.specs.declared.limits.TheConstants.{MAX_CYCLE_DAYS};
ghost use Rattle.rr_translate.specs.Translated.{IsCalendarText};

use crate::one_end::with_one_ends;
use rr_check::Checked;
use rr_model::NoMemory;
use rr_rrule::write;
use std::alloc::Global;

/// The text of a series, with one end for each rule.
pub(crate) fn calendar_text(alloc: Global, series: &Checked) -> Result<Vec<u8>, NoMemory>
    requires few { series_cycle series.now ≤ MAX_CYCLE_DAYS }
    ensures { IfOk result (λ text. IsCalendarText series.now text.items) }
{
    let series = with_one_ends(alloc, series.series())?;
    write(alloc, &series)
}
