// The series that the events of a key state together (RFC 5545, sections 3.8.4.4 and 3.8.5).
ghost use Rattle.rr_seam.specs.Steps.{AnswersKey};
ghost use Rattle.rr_icalfile.specs.Edited.{edited_by};

use crate::alone::edited_alone;
use crate::edit::edited_with_series;
use crate::gather::Gathered;
use rr_model::Series;
use rr_seam::KeyFault;
use std::alloc::Global;

/// The series of a key with its instances as dates.
///
/// The refusal is that of the series' own event by the reader, then instance by instance, of its RECURRENCE-ID `BadMoment`,
/// `MixedKinds` or `UtcMoment` (UTC beside local time, or local time beside UTC), `TwoInstances`, and, unless it is
/// cancelled, what the reader refuses and the same of its DTSTART; then `ExcludedRule`, and `TooManyParts` for more than
/// `MAX_DATES` dates. A series that is cancelled has the starts of its instances alone.
///
/// Instances without a series are their starts. The refusal is first that of a RECURRENCE-ID, `BadMoment` or, if it
/// stands twice, `TwoInstances`; then instance by instance, unless it is cancelled, what the reader refuses, and of its
/// DTSTART `MixedKinds` beside the first one and `UtcMoment` if another is local time; then `TooManyParts`.
pub fn series_with_instances(
    alloc: Global,
    offset: Option<i32>,
    events: &Gathered,
) -> Result<Series, KeyFault>
    ensures { AnswersKey (edited_by offset events.now.series events.now.instances) result }
{
    match events.series() {
        None => edited_alone(alloc, offset, events.instances()),
        Some(event) => edited_with_series(alloc, offset, event, events.instances()),
    }
}
