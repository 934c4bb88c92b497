// The number, the second or the day of a rank, by division.
ghost use Rattle.std.specs.Prelude.{◌≡◌, ◌<◌, ◌+ℤ◌, pos, true};
ghost use Rattle.rr_model.specs.Calendar.{IsDayWithin};
ghost use Rattle.rr_model.specs.Rule.Candidate.{date_parts_hold};
ghost use Rattle.rr_model.specs.Rule.DaysAndTimes.{seconds_of, time_holds};
ghost use Rattle.rr_model.specs.Rule.Filled.{filled_rule};
ghost use Rattle.rr_model.specs.Sets.Counting.{count_seconds};
ghost use Rattle.rr_model.specs.declared.kind.Kind.TheVariants.{Days};
ghost use Rattle.rr_parts.specs.Numbers.{number_allowed};
ghost use Rattle.rr_setpos.specs.Ranks.{before_in_day, before_in_hour, day_second_allowed, days_among, hour_second_allowed, times_before, times_per_day};

use crate::time_counts::{before_in_hour, before_in_minute};
use rr_cal::Day;
use rr_model::{Kind, Numbers, Rule};
use rr_parts::{
    Moment, Time, allows_filled, date_parts_hold, time_of, wants_hour, wants_minute, wants_second,
};

// The second of a day of this rank among those that the time parts allow.
pub(crate) fn nth_time(rule: &Rule, start: &Moment, rank: u32) -> u32
    requires { rank < times_per_day rule.now start.now.kind start.now.at }
    ensures within { result < seconds_of start.now.kind }
    ensures holds { time_holds rule.now start.now.kind start.now.at result ≡ true }
    ensures rank { times_before rule.now start.now.kind start.now.at result ≡ rank }
{
    match start.kind {
        Kind::Days => 0,
        Kind::Moments => nth_in_day(rule, time_of(start.at), rank),
    }
}

// The second of rank `rank`, from 0, among those of a day that the time parts allow; parts that are absent and wanted
// are filled with `own`, the start's time.
fn nth_in_day(rule: &Rule, own: Time, rank: u32) -> u32
    requires { rank < before_in_day rule.now own 86_400 }
    ensures within { result < 86_400 }
    ensures holds { day_second_allowed rule.now own.hour own.minute own.second result ≡ true }
    ensures rank { before_in_day rule.now own result ≡ rank }
{
    let each = before_in_hour(rule, own, 3_600);
    let hour = nth_allowed(
        &rule.by_hour,
        wants_hour(rule.freq),
        own.hour,
        24,
        rank / each,
    );
    3_600 * u32::from(hour) + nth_in_hour(rule, own, rank % each)
}

// The second of an hour of this rank among those whose minute and second are allowed.
fn nth_in_hour(rule: &Rule, own: Time, rank: u32) -> u32
    requires { rank < before_in_hour rule.now own 3_600 }
    ensures within { result < 3_600 }
    ensures holds { hour_second_allowed rule.now own.minute own.second result ≡ true }
    ensures rank { before_in_hour rule.now own result ≡ rank }
{
    let each = before_in_minute(rule, own, 60);
    let minute = nth_allowed(
        &rule.by_minute,
        wants_minute(rule.freq),
        own.minute,
        60,
        rank / each,
    );
    let second = nth_allowed(
        &rule.by_second,
        wants_second(rule.freq),
        own.second,
        60,
        rank % each,
    );
    60 * u32::from(minute) + u32::from(second)
}

// The number below `end` of this rank among those that the part allows.
fn nth_allowed(part: &Numbers, is_wanted: bool, own: u8, end: u8, rank: u32) -> u8
    requires { rank < count_seconds (λ n. number_allowed is_wanted part.now own n) end }
    ensures within { result < end }
    ensures allowed { number_allowed is_wanted part.now own result ≡ true }
    ensures rank { count_seconds (λ n. number_allowed is_wanted part.now own n) result ≡ rank }
{
    let mut left = rank;
    for n in 0..end {
        if allows_filled(part, is_wanted, own, n) {
            if left == 0 {
                return n;
            }
            left -= 1;
        }
    }
    end
}

// How many days after the first one the day of this rank comes among those that the date parts allow.
pub(crate) fn nth_day(rule: &Rule, start: &Day, first: i64, count: u16, rank: u32) -> u16
    requires first { IsDayWithin 1000 first }
    requires last { IsDayWithin 1000 (first +ℤ pos count) }
    requires rank { rank < days_among rule.now start.now.number first count }
    ensures within { result < count }
    ensures holds { date_parts_hold (filled_rule rule.now Days start.now.number)
        (first +ℤ pos result)
        ≡ true }
    ensures rank { days_among rule.now start.now.number first result ≡ rank }
{
    let mut left = rank;
    for k in 0..count {
        if date_parts_hold(rule, start, &Day::new(first + i64::from(k))) {
            if left == 0 {
                return k;
            }
            left -= 1;
        }
    }
    count
}
