// What the events of a key state, as calendars show it.
ghost use Rattle.std.specs.Prelude.{IfOk};
ghost use Rattle.rr_model.specs.Series.Validity.{IsValidSeries};
ghost use Rattle.rr_lenient.specs.Stated.{IsReadKey};

use crate::lenient::read_leniently;
use crate::lenient_laws::lenient_is_one;
use rr_model::NoMemory;
use rr_seam::{KeySeries, Marks};
use std::alloc::Global;

/// Reads what the events of a key state as calendars show it, as `read_leniently` reads their series, and marks how.
pub fn read_key(alloc: Global, key: KeySeries) -> Result<KeySeries, NoMemory>
    requires { IsValidSeries key.series }
    ensures { IfOk result (IsReadKey key) }
{
    lenient_is_one();
    let read = read_leniently(alloc, key.series)?;
    let marks = Marks {
        until: read.until,
        start: read.start,
        day: false,
    };
    Ok(KeySeries {
        series: read.series,
        zones: key.zones,
        place: key.place,
        lengths: key.lengths,
        marks: key.marks.or(marks),
    })
}
