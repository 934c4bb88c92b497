// Moments, taken apart as the BY parts ask.
ghost use Rattle.std.specs.Prelude.{◌≡◌};
ghost use Rattle.rr_model.specs.Calendar.{IsDayWithin};
ghost use Rattle.rr_model.specs.Moment.{day_part};
ghost use Rattle.rr_model.specs.declared.kind.Kind.{Kind};

use rr_cal::Day;
use rr_model::{Kind, day_part};

/// A date or a moment beside its day.
#[derive(Clone, Copy)]
pub struct Moment {
    /// Whether it is a date or a moment.
    pub kind: Kind,
    /// The day number in kind `Days`, and in kind `Moments` 86,400 times that plus the second of the day.
    pub at: i64,
    /// The day on which it lies.
    pub day: Day,
    ghost of_day: { day.number ≡ day_part kind at },
}

impl Moment {
    /// The date or the moment with its day in the calendar. The number is one of days since 1970-01-01, or of seconds
    /// since its midnight.
    pub fn new(kind: Kind, at: i64) -> Self
        requires near { IsDayWithin 1000 (day_part kind at) }
        ensures kind { result.kind ≡ kind }
        ensures at { result.at ≡ at }
    {
        Moment {
            kind,
            at,
            day: Day::new(day_part(kind, at)),
        }
    }
}
