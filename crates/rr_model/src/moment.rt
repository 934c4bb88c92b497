// Moments as a day and a second of the day.
ghost use Rattle.std.specs.Prelude.{◌≡◌, ◌<◌};
ghost use Rattle.rr_model.specs.Calendar.{IsDayWithin};
ghost use Rattle.rr_model.specs.Moment.{day_part, second_part, moment_at};

use crate::Kind;

/// The seconds of a day: no day has a leap second.
pub const SECONDS_OF_DAY: i64 = 86_400;

/// The day of an occurrence, in days since 1970-01-01, whatever its number.
///
/// `at` is a day number in kind `Days`, and 86,400 times the day number plus the second of the day in kind `Moments`.
pub fn day_part(kind: Kind, at: i64) -> i64
    ensures { result ≡ day_part kind at }
{
    match kind {
        Kind::Days => at,
        Kind::Moments => at.div_euclid(SECONDS_OF_DAY),
    }
}

/// The second of an occurrence on its day, from 0 to 86,399; 0 in kind `Days`.
///
/// `at` is a number as `day_part` takes it.
pub fn second_part(kind: Kind, at: i64) -> u32
    ensures value { result ≡ second_part kind at }
    ensures below { result < 86_400 }
{
    match kind {
        Kind::Days => 0,
        Kind::Moments => at.rem_euclid(SECONDS_OF_DAY) as u32,
    }
}

/// The number of the occurrence at a second of a day: 86,400 times the day plus the second, and in kind `Days` the day.
///
/// The day is in days since 1970-01-01, and lies within `MAX_DAY` and 1,000 more of it.
pub fn moment_at(kind: Kind, day: i64, second: u32) -> i64
    requires { IsDayWithin 1000 day }
    ensures value { result ≡ moment_at kind day second }
    ensures day { second < 86_400 → day_part kind result ≡ day }
{
    match kind {
        Kind::Days => day,
        Kind::Moments => day * SECONDS_OF_DAY + i64::from(second),
    }
}
