use crate::rows::{printed, rows_hold, series_of, three_words};
use rr_check::check;
use rr_kinds::{equal_by_kinds, no_limit_refuses};
use std::alloc::Global;

// The starts and rules of two series, and whether they are equal.
const PAIRS: &str = "\
20240229 FREQ=YEARLY;BYMONTH=2;BYMONTHDAY=29 20240229 FREQ=YEARLY|Some(Yes)
20240109 FREQ=MONTHLY;BYDAY=2TU 20240109 FREQ=MONTHLY;BYDAY=TU;BYMONTHDAY=8,9,10,11,12,13,14|Some(Yes)
20240109T090000 FREQ=MONTHLY;BYDAY=2TU 20240109T090000 FREQ=MONTHLY;WKST=SU;BYDAY=2TU|Some(Yes)
20240229 FREQ=YEARLY;BYMONTH=2;BYMONTHDAY=29 20240229 FREQ=YEARLY;BYMONTH=2;BYMONTHDAY=-1|Some(No { kind: Days, at: 20147, side: B })
20240229T090000 FREQ=YEARLY;BYMONTH=2;BYMONTHDAY=-1 20240229T090000 FREQ=YEARLY|Some(No { kind: Moments, at: 1740733200, side: A })
20231231 FREQ=YEARLY 20231231 FREQ=YEARLY;BYYEARDAY=365|Some(No { kind: Days, at: 20087, side: B })
20240229 FREQ=YEARLY 20240229 FREQ=YEARLY;BYMONTH=2;BYMONTHDAY=29;BYDAY=MO,TU,WE,TH,FR,SU|Some(No { kind: Days, at: 28548, side: A })
20231225 FREQ=MONTHLY 20231225 FREQ=YEARLY|Some(No { kind: Days, at: 19747, side: A })
20240709 FREQ=MONTHLY;BYDAY=2TU 20240709 FREQ=MONTHLY;BYDAY=2TU;BYMONTH=1,2,3,4,5,7,8,9,10,11,12|Some(No { kind: Days, at: 20249, side: A })
20240109 FREQ=MONTHLY;BYDAY=2TU 20240229 FREQ=YEARLY|Some(No { kind: Days, at: 19731, side: A })
20240229 FREQ=YEARLY 20240229T000000 FREQ=YEARLY|Some(No { kind: Days, at: 19782, side: A })
20240229T090000 FREQ=YEARLY 20240229 FREQ=YEARLY|Some(No { kind: Days, at: 19782, side: B })
20240109 FREQ=MONTHLY;BYDAY=2TU 20240109 FREQ=MONTHLY;BYDAY=TU;BYSETPOS=2|None
20240109 FREQ=MONTHLY;INTERVAL=2;BYDAY=2TU 20240109 FREQ=MONTHLY;BYDAY=2TU|None
20240109 FREQ=MONTHLY;BYDAY=2TU 20240109 FREQ=MONTHLY;COUNT=3;BYDAY=2TU|None
20240101T090000 FREQ=MONTHLY;BYHOUR=9 20240101T090000 FREQ=MONTHLY|None
20240101 FREQ=WEEKLY 20240101 FREQ=WEEKLY|None
";

fn verdict_said(alloc: Global, given: &str) -> Option<String> {
    let (start, rule, other) = three_words(given)?;
    let (other_start, other_rule) = other.split_once(' ')?;
    let a = check(series_of(alloc, start, rule)?).ok()?;
    let b = check(series_of(alloc, other_start, other_rule)?).ok()?;
    printed(alloc, &equal_by_kinds(&a, &b))
}

#[test]
fn pairs_by_kinds_of_years(rt: HostRuntime) {
    rows_hold(&rt, rt.alloc(), verdict_said, PAIRS);
    no_limit_refuses();
}
