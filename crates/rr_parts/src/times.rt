// The time parts of a rule, as tests of one moment (RFC 5545, section 3.3.10).
ghost use Rattle.std.specs.Prelude.{◌≡◌};
ghost use Rattle.rr_model.specs.Rule.Candidate.{time_parts_hold};
ghost use Rattle.rr_model.specs.Rule.Filled.{filled_rule, hour_of, minute_of, second_of};
ghost use Rattle.rr_model.specs.declared.kind.Kind.TheVariants.{Moments};
ghost use Rattle.rr_parts.specs.Times.{time_allowed};

use crate::filled::{wants_hour, wants_minute, wants_second};
use crate::moment::Moment;
use crate::numbers::allows_filled;
use rr_model::{Kind, Rule, second_part};

/// A time of day, as `time_of` gives it: hours below 24, minutes and seconds below 60.
#[derive(Clone, Copy)]
pub struct Time {
    /// The hour of the day, from 0.
    pub hour: u8,
    /// The minute of the hour, from 0.
    pub minute: u8,
    /// The second of the minute, from 0.
    pub second: u8,
}

/// Whether each time part of the rule, filled from its start, holds of the moment (RFC 5545, section 3.3.10). A date has no
/// time, and they hold of it.
pub fn time_parts_hold(rule: &Rule, start: &Moment, moment: &Moment) -> bool
    requires kind { start.now.kind ≡ moment.now.kind }
    ensures { result ≡ time_parts_hold (filled_rule rule.now start.now.kind start.now.at)
        moment.now.kind moment.now.at }
{
    match moment.kind {
        Kind::Days => true,
        Kind::Moments => allows_time(rule, time_of(start.at), time_of(moment.at)),
    }
}

// Whether each time part, filled from the start's time if it is absent and wanted, lists the time's number.
fn allows_time(rule: &Rule, own: Time, time: Time) -> bool
    ensures { result ≡ time_allowed rule.now own time }
{
    allows_filled(&rule.by_hour, wants_hour(rule.freq), own.hour, time.hour)
        && allows_filled(
            &rule.by_minute,
            wants_minute(rule.freq),
            own.minute,
            time.minute,
        )
        && allows_filled(
            &rule.by_second,
            wants_second(rule.freq),
            own.second,
            time.second,
        )
}

/// The time of a moment, which is 86,400 times the day number plus the second of the day.
pub fn time_of(at: i64) -> Time
    ensures hour { result.hour ≡ hour_of Moments at }
    ensures minute { result.minute ≡ minute_of Moments at }
    ensures second { result.second ≡ second_of Moments at }
{
    let second = second_part(Kind::Moments, at);
    Time {
        hour: (second / 3_600) as u8,
        minute: (second / 60 % 60) as u8,
        second: (second % 60) as u8,
    }
}
