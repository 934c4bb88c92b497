// Moments beside the numbers of occurrences.
ghost use Rattle.std.specs.Prelude.{◌≡◌, pos, neg_ℤ, ◌≤ℤ◌};
ghost use Rattle.rr_model.specs.Moment.Years.{IsInYears};
ghost use Rattle.rr_next.specs.Window.{number_from};

use rr_model::{Kind, SECONDS_OF_DAY, day_part};

/// A date or a moment.
#[derive(Clone, Copy)]
pub struct Moment {
    /// Whether it is a date or a moment.
    pub kind: Kind,
    /// Days since 1970-01-01, or seconds since its midnight.
    pub at: i64,
}

/// The least number of an occurrence, in a set of this kind, that does not come before a moment of the years 1 to 9999, or a
/// date of them.
///
/// A date comes before the moments of its day, the one at midnight included.
pub fn number_from(own: Kind, moment: Moment) -> i64
    requires { IsInYears moment.kind moment.at }
    ensures { result ≡ number_from own moment.kind moment.at }
{
    match (own, moment.kind) {
        (Kind::Days, Kind::Moments) => day_part(Kind::Moments, moment.at) + 1,
        (Kind::Moments, Kind::Days) => moment.at * SECONDS_OF_DAY,
        _ => moment.at,
    }
}
