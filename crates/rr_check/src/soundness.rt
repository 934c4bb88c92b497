// Checked series.
ghost use Rattle.std.specs.Prelude.{◌≡◌, IfErr, IfOk, None, Some};
ghost use Rattle.rr_model.specs.Series.Validity.{IsValidSeries};
ghost use Rattle.rr_model.specs.Series.Soundness.{IsSound, first_refusal};

use crate::refusals::first_refusal;
use rr_model::{Refusal, Series};
use std::marker::Model;

/// A series whose rules choose its start, and whose rules and excluded rules end neither before it nor at a moment of the other
/// kind.
#[derive(Drop)]
pub struct Checked {
    series: Series,
}

impl Model for Checked {
    ghost use Rattle.rr_model.specs.declared.rule.Series.{Series};
    ghost use Rattle.rr_model.specs.Series.Soundness.{IsSound};

    ghost Value = { Series };

    ghost view = { λ checked. checked.series };

    ghost invariant = { λ checked. IsSound checked.series };
}

impl Checked {
    /// The series, as it was given to `check`.
    pub fn series(&self) -> &Series
        ensures value { result.now ≡ self.now }
        ensures sound { IsSound result.now }
    {
        &self.series
    }
}

/// Judges the rules of a series beside its start, and drops a series that it refuses.
///
/// For each rule in order: `UntilKind` if its UNTIL has another kind than the start, then `UntilBeforeStart`,
/// then `NotSynchronised` with the rule's number, from 1, if the rule does not choose the start
/// (RFC 5545, section 3.8.5.3). Then for each excluded rule the first two; it need not choose the start.
pub fn check(series: Series) -> Result<Checked, Refusal>
    requires valid { IsValidSeries series }
    ensures accepted { IfOk result (λ checked. (checked ≡ series) × (first_refusal series ≡ None)) }
    ensures refused { IfErr result (λ refusal. first_refusal series ≡ Some refusal) }
{
    match first_refusal(&series) {
        Some(refusal) => Err(refusal),
        None => Ok(Checked { series }),
    }
}
