// Counts over the seconds of a day that the time parts allow: products of hours, minutes and seconds, so that no second
// is visited.
ghost use Rattle.std.specs.Prelude.{◌≡◌, ◌≤◌, if◌then◌else◌};
ghost use Rattle.rr_model.specs.Rule.DaysAndTimes.{seconds_of};
ghost use Rattle.rr_model.specs.Sets.Counting.{count_seconds};
ghost use Rattle.rr_parts.specs.Numbers.{number_allowed};
ghost use Rattle.rr_setpos.specs.Ranks.{before_in_day, before_in_hour, before_in_minute, times_before};

use rr_model::{Kind, Numbers, Rule};
use rr_parts::{Moment, Time, allows_filled, time_of, wants_hour, wants_minute, wants_second};

// How many seconds a day of the kind has: a date has midnight alone.
pub(crate) fn seconds_of(kind: Kind) -> u32
    ensures { result ≡ seconds_of kind }
{
    match kind {
        Kind::Days => 1,
        Kind::Moments => 86_400,
    }
}

// How many seconds of a day before this one the time parts allow, filled from the start.
pub(crate) fn times_before(rule: &Rule, start: &Moment, second: u32) -> u32
    requires { second ≤ seconds_of start.now.kind }
    ensures value { result ≡ times_before rule.now start.now.kind start.now.at second }
    ensures few { result ≤ second }
{
    match start.kind {
        Kind::Days => second,
        Kind::Moments => before_in_day(rule, time_of(start.at), second),
    }
}

// How many seconds of a day before this one the time parts allow; parts that are absent and wanted are filled with
// `own`, the start's time.
fn before_in_day(rule: &Rule, own: Time, second: u32) -> u32
    requires { second ≤ 86_400 }
    ensures value { result ≡ before_in_day rule.now own second }
    ensures few { result ≤ second }
{
    let hour = (second / 3_600) as u8;
    let hours = count_allowed(&rule.by_hour, wants_hour(rule.freq), own.hour, hour);
    hours * before_in_hour(rule, own, 3_600)
        + if_allowed(
            allows_filled(&rule.by_hour, wants_hour(rule.freq), own.hour, hour),
            before_in_hour(rule, own, second % 3_600),
        )
}

// How many seconds of an hour before this one have a minute and a second that are allowed.
pub(crate) fn before_in_hour(rule: &Rule, own: Time, second: u32) -> u32
    requires { second ≤ 3_600 }
    ensures value { result ≡ before_in_hour rule.now own second }
    ensures few { result ≤ second }
{
    let minute = (second / 60) as u8;
    let minutes = count_allowed(&rule.by_minute, wants_minute(rule.freq), own.minute, minute);
    minutes * before_in_minute(rule, own, 60)
        + if_allowed(
            allows_filled(&rule.by_minute, wants_minute(rule.freq), own.minute, minute),
            before_in_minute(rule, own, (second % 60) as u8),
        )
}

// How many seconds of a minute before this one are allowed.
pub(crate) fn before_in_minute(rule: &Rule, own: Time, second: u8) -> u32
    ensures value { result ≡ before_in_minute rule.now own second }
    ensures few { result ≤ second }
{
    count_allowed(&rule.by_second, wants_second(rule.freq), own.second, second)
}

// How many numbers below `end` the part allows; if it is absent and wanted, it has the start's own number alone.
fn count_allowed(part: &Numbers, is_wanted: bool, own: u8, end: u8) -> u32
    ensures value { result ≡ count_seconds (λ n. number_allowed is_wanted part.now own n) end }
    ensures few { result ≤ end }
{
    let mut count = 0;
    for n in 0..end {
        if allows_filled(part, is_wanted, own, n) {
            count += 1;
        }
    }
    count
}

// The number `n` if `is_allowed`, and 0 otherwise.
fn if_allowed(is_allowed: bool, n: u32) -> u32
    ensures value { result ≡ if is_allowed then n else 0 }
    ensures few { result ≤ n }
{
    if is_allowed { n } else { 0 }
}
