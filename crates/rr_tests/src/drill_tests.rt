use crate::rows::{printed, rows_hold};
use rr_drill::{drill, summary_is_one};
use std::alloc::Global;

// How many series are drawn from the seed 1, and how many series, pairs of them, and equal, contained and disjoint pairs there are.
const SUMMARIES: &str = "\
1|Summary { series: 1, pairs: 0, equal: 0, within: 0, disjoint: 0 }
2|Summary { series: 2, pairs: 1, equal: 0, within: 0, disjoint: 1 }
3|Summary { series: 3, pairs: 3, equal: 0, within: 0, disjoint: 3 }
";

fn summary_said(alloc: Global, given: &str) -> Option<String> {
    let series = given.parse::<u32>().ok()?;
    if series < 1 || series > 100 {
        return None;
    }
    printed(alloc, &drill(alloc, 1, series).ok()?)
}

#[test]
fn summaries_of_seed_one(rt: HostRuntime) {
    rows_hold(&rt, rt.alloc(), summary_said, SUMMARIES);
    summary_is_one();
}
