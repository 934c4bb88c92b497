// Texts that are read with their moments of UTC in local time of the zones that they define.
ghost use Rattle.std.specs.Prelude.{IfOk};
ghost use Rattle.rr_answer.specs.OperandReading.{reads_zoned_rrule, reads_zoned_rscale};
ghost use Rattle.rr_model.specs.Answers.{Answers};
ghost use Rattle.rr_model.specs.Series.Validity.{IsValidSeries};
ghost use Rattle.rr_skip.specs.Validity.{IsSoundSkipping};

use rr_model::{Fault, Series};
use rr_skip::SkipSeries;
use rr_zone::local_text;
use std::alloc::Global;

/// The series of such a text of RFC 5545.
pub fn read_zoned_rrule(alloc: Global, bytes: &[u8]) -> Result<Series, Fault>
    ensures answers { Answers (reads_zoned_rrule bytes.now) result }
    ensures valid { IfOk result IsValidSeries }
{
    match local_text(alloc, bytes)? {
        Some(text) => rr_rrule::read(alloc, text.as_slice(), None),
        None => rr_rrule::read(alloc, bytes, None),
    }
}

/// The series of such a text whose rule has SKIP.
pub fn read_zoned_rscale(alloc: Global, bytes: &[u8]) -> Result<SkipSeries, Fault>
    ensures answers { Answers (reads_zoned_rscale bytes.now) result }
    ensures sound { IfOk result IsSoundSkipping }
{
    match local_text(alloc, bytes)? {
        Some(text) => rr_skip::read(alloc, text.as_slice(), None),
        None => rr_skip::read(alloc, bytes, None),
    }
}
