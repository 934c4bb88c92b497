use crate::rows::{is_said, printed};
use rr_times::TimeSet;
use std::alloc::Global;

fn first_set(alloc: Global) -> Option<TimeSet> {
    TimeSet::of(alloc, &[0, 3600, 7200, 86_399]).ok()
}

fn second_set(alloc: Global) -> Option<TimeSet> {
    TimeSet::of(alloc, &[3600, 5400, 86_399]).ok()
}

// The union of both sets, and what the first has and the second lacks.
fn union_and_rest(alloc: Global) -> Option<String> {
    let a = first_set(alloc)?;
    let b = second_set(alloc)?;
    let union = TimeSet::union(alloc, &a, &b).ok()?;
    let rest = TimeSet::without(alloc, &a, &b).ok()?;
    printed(alloc, &(union.as_slice(), rest.as_slice()))
}

// Whether the union with the empty set is the same set.
fn union_with_none(alloc: Global) -> Option<String> {
    let b = second_set(alloc)?;
    let none = TimeSet::of(alloc, &[]).ok()?;
    let union = TimeSet::union(alloc, &none, &b).ok()?;
    printed(alloc, &(union == b))
}

// A part of the first set, ranks of seconds in it, and the seconds at places.
fn part_and_places(alloc: Global) -> Option<String> {
    let a = first_set(alloc)?;
    let part = TimeSet::cut(alloc, &a, 3600, 86_399).ok()?;
    let ranks = [
        a.rank(0),
        a.rank(1),
        a.rank(3600),
        a.rank(86_399),
        a.rank(86_400),
    ];
    let seconds = [a.select(0), a.select(3), a.select(4)];
    printed(alloc, &(part.as_slice(), ranks, seconds))
}

#[test]
fn sets(rt: HostRuntime) {
    let wanted = "([0, 3600, 5400, 7200, 86399], [0, 7200])";
    is_said(
        &rt,
        union_and_rest(rt.alloc()),
        wanted,
        "the union and the rest",
    );
    is_said(
        &rt,
        union_with_none(rt.alloc()),
        "true",
        "the union with none",
    );
    let wanted = "([3600, 7200], [0, 1, 1, 3, 4], [Some(0), Some(86399), None])";
    is_said(
        &rt,
        part_and_places(rt.alloc()),
        wanted,
        "a part, ranks and places",
    );
}
