// Cycles of rules, and multiples of numbers.
use crate::rows::{printed, rows_hold, rule_said, three_words};
use rr_model::{Freq, Rule};
use rr_num::{day_cycle, gcd, lcm_within};
use std::alloc::Global;

// Rules, and their cycles in days.
const CYCLES: &str = "\
FREQ=YEARLY;INTERVAL=4;BYMONTH=2;BYMONTHDAY=29|146097
FREQ=HOURLY;INTERVAL=7;BYDAY=MO|7
FREQ=SECONDLY;INTERVAL=4294967295|286331153
FREQ=MONTHLY;INTERVAL=113|16508961
FREQ=MONTHLY;INTERVAL=113;BYMONTH=2;BYMONTHDAY=29;BYDAY=MO|16508961
FREQ=MINUTELY;INTERVAL=90|1
FREQ=DAILY;INTERVAL=3;BYDAY=MO|21
";

fn cycle_of(alloc: Global, rule: &Rule) -> Option<String> {
    if rule.interval == 0 {
        return None;
    }
    printed(alloc, &day_cycle(rule))
}

fn cycle_said(alloc: Global, given: &str) -> Option<String> {
    rule_said(alloc, "20240101T000000", given, cycle_of)
}

// The cycle of every second week on 29 February, which no text states.
fn cycle_of_weeks(alloc: Global) -> Option<u128> {
    let mut rule = Rule::new(alloc, Freq::Weekly, 2);
    rule.by_month.put(2).ok()?;
    rule.by_month_day.put(29).ok()?;
    Some(day_cycle(&rule))
}

#[test]
fn worked_cycles(rt: HostRuntime) {
    rows_hold(&rt, rt.alloc(), cycle_said, CYCLES);
}

#[test]
fn worked_cycle_of_weeks(rt: HostRuntime) {
    assert!(rt; cycle_of_weeks(rt.alloc()) == Some(292_194));
}

// Two numbers, a third one, and their least common multiple if it is not above that.
const MULTIPLES: &str = "\
4 6 12|Some(12)
4 6 11|None
7 146097 146097|Some(146097)
4294967296 4294967296 4294967296|Some(4294967296)
18446744073709551615 18446744073709551614 18446744073709551615|None
";

fn multiple_said(alloc: Global, given: &str) -> Option<String> {
    let (a, b, most) = three_words(given)?;
    let a = a.parse::<u64>().ok()?;
    let b = b.parse::<u64>().ok()?;
    if a == 0 || b == 0 {
        return None;
    }
    printed(alloc, &lcm_within(a, b, most.parse::<u64>().ok()?))
}

#[test]
fn multiples_and_divisors(rt: HostRuntime) {
    rows_hold(&rt, rt.alloc(), multiple_said, MULTIPLES);
    assert!(rt; gcd(0, 5) == 5 && gcd(86_400, 4_294_967_295) == 15);
}
