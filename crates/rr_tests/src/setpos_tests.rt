// Moments that rules choose, and candidates at positions.
use crate::rows::{only_rule, printed, rows_hold, series_of};
use rr_model::{Freq, Kind, day_part};
use rr_setpos::{chosen, nth_of_unit, positions_are_by_parts, set_positions_are_by_parts};
use std::alloc::Global;

// From 2024-01-30 on this day, 2024-02-20, and 2023-12-26 before the start, and whether each is the last Tuesday of its month.
const LAST_TUESDAYS: &str = "\
19752|true
19773|false
19717|true
";

fn chosen_said(alloc: Global, given: &str) -> Option<String> {
    let series = series_of(alloc, "20240130", "FREQ=MONTHLY;BYDAY=TU;BYSETPOS=-1")?;
    let at = given.parse::<i64>().ok()?;
    let day = day_part(series.kind, at);
    if day < 0 || day > 100_000 {
        return None;
    }
    let is_chosen = chosen(only_rule(&series)?, series.kind, series.start, at);
    printed(alloc, &is_chosen)
}

// Places, and the candidates there of 1997-09-02 at nine o'clock of each day, of which 1997-09-02T09:00:00 is the only one.
const CANDIDATES: &str = "\
1|Some(873190800)
-1|Some(873190800)
2|None
-2|None
";

fn candidate_said(alloc: Global, given: &str) -> Option<String> {
    let series = series_of(alloc, "19970902T090000", "FREQ=DAILY;BYHOUR=9")?;
    let rule = only_rule(&series)?;
    let place = given.parse::<i64>().ok()?;
    if series.kind != Kind::Moments || rule.freq != Freq::Daily || place == 0 {
        return None;
    }
    printed(
        alloc,
        &nth_of_unit(rule, series.kind, series.start, 10_106, place),
    )
}

#[test]
fn chosen_days_and_candidates(rt: HostRuntime) {
    rows_hold(&rt, rt.alloc(), chosen_said, LAST_TUESDAYS);
    rows_hold(&rt, rt.alloc(), candidate_said, CANDIDATES);
    positions_are_by_parts();
    set_positions_are_by_parts();
}
