// Days and seconds of rules from known starts on.
use crate::rows::{only_rule, printed, rows_hold, rule_said, series_of};
use rr_expand::{days, seconds_on, times, year_mask};
use rr_model::{Freq, Kind, Rule};
use std::alloc::Global;

// 2024-01-01, in days since 1970-01-01.
const FIRST: i64 = 19_723;

// 1997-09-02T09:00:00, in seconds since 1970-01-01T00:00:00.
const START: i64 = 873_190_800;

// Rules, and the day 2024-02-29 if they have it.
const DAYS: &str = "\
FREQ=DAILY;BYMONTHDAY=-1|[19782]
";

fn days_of(alloc: Global, rule: &Rule) -> Option<String> {
    if rule.freq != Freq::Daily || rule.interval == 0 {
        return None;
    }
    printed(alloc, &days(alloc, rule, FIRST, 19_782).ok()?.as_slice())
}

fn days_said(alloc: Global, given: &str) -> Option<String> {
    rule_said(alloc, "20240101", given, days_of)
}

// Rules, and the seconds of each of their days, or of 1997-09-02 if these differ.
const TIMES: &str = "\
FREQ=DAILY|[32400]
FREQ=DAILY;BYHOUR=23;BYMINUTE=59;BYSECOND=5|[86345]
FREQ=HOURLY;INTERVAL=7|[7200, 32400, 57600, 82800]
";

fn times_of(alloc: Global, rule: &Rule) -> Option<String> {
    if rule.interval == 0 {
        return None;
    }
    let seconds = if rule.freq.is_whole_days() {
        times(alloc, rule, Kind::Moments, START).ok()?
    } else {
        seconds_on(alloc, rule, START, 10_106).ok()?
    };
    printed(alloc, &seconds.as_slice())
}

fn times_said(alloc: Global, given: &str) -> Option<String> {
    rule_said(alloc, "19970902T090000", given, times_of)
}

// Days of 2024 from 0, and the first last days of months from there on.
const LAST_DAYS: &str = "\
0|Some(30)
31|Some(59)
60|Some(90)
91|Some(120)
121|Some(151)
152|Some(181)
182|Some(212)
213|Some(243)
244|Some(273)
274|Some(304)
305|Some(334)
335|Some(365)
366|None
";

#[tactic(auto, unfolding(rr_model::specs::Calendar::first_day_of_year))]
fn last_day_said(alloc: Global, given: &str) -> Option<String> {
    let series = series_of(alloc, "20240101", "FREQ=DAILY;BYMONTHDAY=-1")?;
    let mask = year_mask(only_rule(&series)?, FIRST, 2024);
    let from = given.parse::<u16>().ok()?;
    printed(alloc, &mask.first_from(from, 384))
}

#[test]
fn days_and_times(rt: HostRuntime) {
    rows_hold(&rt, rt.alloc(), days_said, DAYS);
    rows_hold(&rt, rt.alloc(), times_said, TIMES);
    rows_hold(&rt, rt.alloc(), last_day_said, LAST_DAYS);
}
