use crate::rows::{printed, rows_hold, three_words};
use rr_check::{chosen_repeats, end_refusal};
use rr_model::End;
use rr_text::basic;
use std::alloc::Global;

// The start, the most members and the last date or moment, if they are stated, and the refusal of that end.
const ENDS: &str = "\
20240101 - -|None
20240101 1 -|None
20240101 - 20240101|None
20240101 - 20231231|Some(UntilBeforeStart)
20240101 - 19700101T000000|Some(UntilKind)
20240101T090000 - 20240105|Some(UntilKind)
20240101T090000 2 20240101T090000|None
20240101T090000 2 20240101T085959|Some(UntilBeforeStart)
20240101T090000 2 20240101|Some(UntilKind)
";

// The end of this number of members and at a date or moment, if they are stated.
fn end_of(count: &str, until: &str) -> End {
    match (count.parse::<u64>().ok(), basic(until.as_bytes())) {
        (None, None) => End::Never,
        (Some(count), None) => End::Count(count),
        (None, Some(until)) => End::Until {
            kind: until.kind,
            at: until.at,
        },
        (Some(count), Some(until)) => End::Both {
            kind: until.kind,
            at: until.at,
            count,
        },
    }
}

fn refusal_said(alloc: Global, given: &str) -> Option<String> {
    let (start, count, until) = three_words(given)?;
    let start = basic(start.as_bytes())?;
    printed(
        alloc,
        &end_refusal(start.kind, start.at, end_of(count, until)),
    )
}

#[test]
fn ends_beside_a_start(rt: HostRuntime) {
    rows_hold(&rt, rt.alloc(), refusal_said, ENDS);
    chosen_repeats();
}
