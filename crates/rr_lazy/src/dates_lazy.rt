// Dates that are listed.
ghost use Rattle.std.specs.Prelude.{◌≡◌, ◌≤ℤ◌, All, pos};
ghost use Rattle.rr_model.specs.Calendar.{first_day_of_year};
ghost use Rattle.rr_model.specs.Moment.Years.{IsInYears};
ghost use Rattle.rr_lazy.specs.Next.{IsUnasked, KnowsEach};

use crate::position::position_past;
use crate::stretch::{first_date, seconds_on};
use crate::{Lazy, OccupiedDay};
use rr_model::{Dates, FIRST_DAY, Kind, NoMemory};
use rr_shapes::SetTable;
use std::alloc::Global;

/// The days of listed dates.
#[derive(Drop)]
pub struct DatesLazy {
    kind: Kind,
    dates: Dates,
    position: i64,
    ghost begun: { first_day_of_year (pos 1) ≤ℤ position },
    ghost in_years: { All (IsInYears kind) dates },
}

impl DatesLazy {
    ghost use Rattle.rr_model.specs.Sets.Tree.{dates_of};

    /// An iterator over the days of rising dates of the years 1 to 9999, which has not been asked.
    pub fn new(kind: Kind, dates: Dates) -> DatesLazy
        requires in_years { All (IsInYears kind) dates }
        ensures tree { ⟦<DatesLazy as Lazy>⟧.tree result ≡ dates_of kind dates }
        ensures unasked { IsUnasked (⟦<DatesLazy as Lazy>⟧.position result) }
        ensures knows { KnowsEach (⟦<DatesLazy as Lazy>⟧.knows result) }
    {
        DatesLazy {
            kind,
            dates,
            position: FIRST_DAY,
        }
    }
}

impl Lazy for DatesLazy {
    ghost use Rattle.std.specs.Prelude.{⊤};
    ghost use Rattle.rr_model.specs.Sets.Tree.{dates_of};
    ghost use Rattle.rr_lazy.specs.Stretch.{sound_dates};

    ghost tree = { λ s. dates_of s.kind s.dates };

    ghost position = { λ s. s.position };

    ghost sound = { λ s. sound_dates s.kind s.dates s.position s.in_years s.begun };

    ghost knows = { λ s sets. ⊤ };

    ghost knows_more = { λ s old new more k. tt };

    #[inline(always)]
    fn next(
        &mut self,
        alloc: Global,
        sets: &mut SetTable,
        to: i64,
    ) -> Result<Option<OccupiedDay>, NoMemory> {
        match first_date(self.kind, self.dates.as_slice(), self.position, to) {
            None => {
                self.position = position_past(self.position, to);
                Ok(None)
            }
            Some(day) => {
                let times = seconds_on(alloc, self.kind, self.dates.as_slice(), day)?;
                let count = times.as_slice().len();
                let number = sets.place(times)?;
                self.position = day + 1;
                Ok(Some(OccupiedDay { day, number, count }))
            }
        }
    }
}
