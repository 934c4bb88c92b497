// A series judged by the limits, and folded.
ghost use Rattle.rr_days.specs.Sequence.{sketch};
ghost use Rattle.rr_skip.specs.Judged.{IsFoldedSeries};
ghost use Rattle.rr_skip.specs.Validity.{IsSoundSkipping};

use crate::SkipSeries;
use crate::fold::fold_skip;
use rr_days::Folded;
use rr_model::Fault;
use std::alloc::Global;

/// Folds a series if no limit refuses it.
///
/// First `CycleTooLong` comes if `admit` gives it, and then `CountedTooFar` if `fold_skip` does.
pub fn fold_admitted(alloc: Global, series: &SkipSeries) -> Result<Folded, Fault>
    requires sound { IsSoundSkipping series.now }
    ensures { IsFoldedSeries sketch series.now result }
{
    match series.admit() {
        Err(refusal) => Err(Fault::Refused(refusal)),
        Ok(_) => fold_skip(alloc, series),
    }
}
