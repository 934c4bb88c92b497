use crate::rows::{is_said, printed};
use rr_expand::seconds_on;
use rr_model::{Freq, Rule};
use rr_shapes::Shapes;
use rr_times::TimeSet;
use std::alloc::Global;

// Each second of a day.
fn whole_day(alloc: Global) -> Option<TimeSet> {
    let rule = Rule::new(alloc, Freq::Secondly, 1);
    seconds_on(alloc, &rule, 0, 0).ok()
}

// Each second of the day but this one.
fn all_but(alloc: Global, day: &TimeSet, second: u8) -> Option<TimeSet> {
    let one = TimeSet::of(alloc, &[u32::from(second)]).ok()?;
    TimeSet::without(alloc, day, &one).ok()
}

// The numbers of days that each lack one of the first seconds; none if the number is not the second.
fn numbered(alloc: Global, day: &TimeSet) -> Option<Shapes> {
    let mut shapes = Shapes::new(alloc);
    for second in 0..194 {
        let set = shapes.place(all_but(alloc, day, second)?).ok()?;
        if set.number != u32::from(second) {
            return None;
        }
    }
    Some(shapes)
}

// What is said once these are there: of another such day, of a part of the day that fits, and of one of these put
// again, with its number of seconds.
fn last_numbers(alloc: Global) -> Option<String> {
    let day = whole_day(alloc)?;
    let mut shapes = numbered(alloc, &day)?;
    let refused = shapes.place(all_but(alloc, &day, 194)?);
    let Ok(fits) = shapes.place(TimeSet::cut(alloc, &day, 0, 15_810).ok()?) else {
        return None;
    };
    let Ok(known) = shapes.place(all_but(alloc, &day, 7)?) else {
        return None;
    };
    printed(
        alloc,
        &(
            refused.err(),
            fits.number,
            known.number,
            shapes.times(known).len(),
        ),
    )
}

#[test]
fn numbers_up_to_the_limit(rt: HostRuntime) {
    let wanted = "(Some(Refused(TooManyMoments)), 194, 7, 86399)";
    is_said(&rt, last_numbers(rt.alloc()), wanted, "the last numbers");
}
