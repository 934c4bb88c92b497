// Patterns that have more days of a finite set than other days.
use crate::bounds::Looks;
use crate::candidate::{Candidate, FIRST_DAYS, Here};
use crate::months::weekday_bit;
use crate::order::{MANY_TURNS, Turn};
use crate::picks::Picks;
use crate::second::SecondDays;
use crate::walk::Walk;
use crate::weeks::{MANY_BESIDE, weekdays_marked};
use rr_model::Form;

/// How many days of a pattern a set has, and how many it lacks.
#[derive(Clone, Copy)]
pub(crate) struct Count {
    /// How many of its days the set has.
    pub there: u32,
    /// How many of its days the set lacks.
    pub lacked: u32,
}

impl Count {
    // The count before the first day.
    fn none() -> Count {
        Count {
            there: 0,
            lacked: 0,
        }
    }

    // The count after a further day, which the set has or lacks.
    fn with(&self, is_there: bool) -> Count {
        if is_there {
            Count {
                there: self.there.saturating_add(1),
                lacked: self.lacked,
            }
        } else {
            Count {
                there: self.there,
                lacked: self.lacked.saturating_add(1),
            }
        }
    }

    /// How many days the pattern has, those that the set has and those that it lacks.
    pub(crate) fn total(&self) -> u64 {
        u64::from(self.there) + u64::from(self.lacked)
    }

    /// How many more the set has than it lacks.
    pub(crate) fn gain(&self) -> u32 {
        self.there.saturating_sub(self.lacked)
    }
}

/// A pattern up to a last day.
#[derive(Clone, Copy)]
pub(crate) struct Course {
    /// The pattern, without an end.
    pub candidate: Candidate,
    /// The index of the last day.
    pub last: u32,
    /// How many of its days up to the last one the set has and lacks.
    pub count: Count,
}

/// What is left of a finite set.
#[derive(Clone, Copy)]
pub(crate) struct Rest {
    /// How many days are left.
    pub many: u32,
    /// The index after the last one.
    pub end: u32,
}

impl Rest {
    /// All days of a row.
    pub(crate) fn of(days: &SecondDays) -> Rest {
        let mut rest = Rest { many: 0, end: 0 };
        for index in 0..days.row.len() {
            if days.row.has(index) {
                rest = Rest {
                    many: rest.many.saturating_add(1),
                    end: index.saturating_add(1),
                };
            }
        }
        rest
    }

    /// What is left after `days` of the days are taken out; the end stays.
    pub(crate) fn without(self, days: u32) -> Rest {
        Rest {
            many: self.many.saturating_sub(days),
            end: self.end,
        }
    }
}

// The pattern with the greatest gain so far, if there is one, and how much it gains.
#[derive(Drop)]
struct Best {
    course: Option<Course>,
    gain: u32,
    rest: Rest,
    most_lacked: u32,
}

/// The pattern and its end with the most days of the set less those that it lacks, which begins on a day; None if none has
/// two more.
pub(crate) fn best_course(
    days: &SecondDays,
    here: &Here,
    picks: &Picks,
    rest: Rest,
    most_lacked: u32,
    looks: &mut Looks,
) -> Option<Course> {
    let mut best = Best {
        course: None,
        gain: 1,
        rest,
        most_lacked,
    };
    let span = rest.end.saturating_sub(here.index).saturating_sub(1);
    let mut turn = Turn::first();
    for _ in 0..MANY_TURNS {
        if best.gain >= rest.many || is_too_long(&turn, span, best.gain) || looks.are_over() {
            return best.course;
        }
        if may_gain(&turn, span, best.gain) {
            ask_turn(days, here, picks, &turn, &mut best, looks);
        }
        let Some(next) = turn.after() else {
            return best.course;
        };
        turn = next;
    }
    best.course
}

// Whether no pattern from this interval on has more days in a span of days than were gained already. Weeks have seven at most.
fn is_too_long(turn: &Turn, span: u32, gain: u32) -> bool {
    let span = 4_800 * u64::from(span);
    let days = (span / turn.length).saturating_add(2).saturating_mul(7);
    turn.length > span + 192_000 || days < u64::from(gain)
}

// Whether patterns of an interval and a type may have as many days in a span of days.
fn may_gain(turn: &Turn, span: u32, gain: u32) -> bool {
    let span = 4_800 * u64::from(span);
    if turn.length > span + 4_800 {
        return false;
    }
    matches!(turn.form, Form::Weekly) || span / turn.length >= u64::from(gain.saturating_sub(1))
}

// Asks the patterns of an interval and a type.
fn ask_turn(
    days: &SecondDays,
    here: &Here,
    picks: &Picks,
    turn: &Turn,
    best: &mut Best,
    looks: &mut Looks,
) {
    match turn.form {
        Form::Daily => {
            ask(days, here, Candidate::by_days(turn), best, looks);
        }
        Form::Weekly => ask_weeks(days, here, turn, best, looks),
        _ => {
            for pick in picks.of_form(turn.form) {
                ask(days, here, Candidate::by_months(turn, *pick), best, looks);
            }
        }
    }
}

// Asks patterns of weeks: of the weekdays that pay by themselves, and of the day's own alone.
fn ask_weeks(days: &SecondDays, here: &Here, turn: &Turn, best: &mut Best, looks: &mut Looks) {
    let own = weekday_bit(here.day.weekday);
    let marks = paying_days(days, here, turn, best, looks);
    for first_day in FIRST_DAYS {
        if days.target.has_weeks(turn.interval, first_day) {
            let weekdays = weekdays_marked(&marks, first_day, here.day.weekday) | own;
            ask(
                days,
                here,
                Candidate::by_weeks(turn, first_day, weekdays),
                best,
                looks,
            );
        }
        if first_day == 6 {
            ask(
                days,
                here,
                Candidate::by_weeks(turn, first_day, own),
                best,
                looks,
            );
        }
    }
}

// Which days, from six before a day on, the set has more often than not, with those that lie whole intervals of weeks later.
fn paying_days(
    days: &SecondDays,
    here: &Here,
    turn: &Turn,
    best: &Best,
    looks: &mut Looks,
) -> [bool; MANY_BESIDE] {
    let mut marks = [false; MANY_BESIDE];
    for place in 0..MANY_BESIDE {
        marks[place] = is_paying(days, here, turn, place as u32, best, looks);
    }
    marks
}

// Whether the set has a day beside another more often than not, with those that lie whole intervals of weeks later.
fn is_paying(
    days: &SecondDays,
    here: &Here,
    turn: &Turn,
    place: u32,
    best: &Best,
    looks: &mut Looks,
) -> bool {
    let step = 7 * turn.interval;
    let later = if place < 6 { step } else { 0 };
    let beyond = here.index.saturating_add(later).saturating_add(place);
    let walk = Walk::by_days(beyond.saturating_sub(6), step);
    let count = whole_count(days, walk, best, looks);
    count.there > count.lacked && count.lacked <= best.most_lacked
}

// All days of a walk up to the last day of the set, or until too many are lacked.
fn whole_count(days: &SecondDays, walk: Walk, best: &Best, looks: &mut Looks) -> Count {
    let mut walk = walk;
    let mut count = Count::none();
    for _ in 0..days.row.len() {
        let Some(index) = walk.next_before(days, best.rest.end) else {
            return count;
        };
        if count.lacked > best.most_lacked {
            return count;
        }
        looks.look();
        count = count.with(days.row.has(index));
    }
    count
}

// Keeps a pattern if it gains more than the best so far.
fn ask(days: &SecondDays, here: &Here, candidate: Candidate, best: &mut Best, looks: &mut Looks) {
    let course = course_of(days, here, candidate, best, looks);
    if course.count.gain() > best.gain {
        best.gain = course.count.gain();
        best.course = Some(course);
    }
}

// The pattern up to the end with the greatest gain. It is given up if it can't gain more than the best so far.
fn course_of(
    days: &SecondDays,
    here: &Here,
    candidate: Candidate,
    best: &Best,
    looks: &mut Looks,
) -> Course {
    let mut walk = Walk::from_here(&candidate, here);
    let mut count = Count::none();
    let mut course = Course {
        candidate,
        last: here.index,
        count,
    };
    for _ in 0..days.row.len() {
        let Some(index) = walk.next_before(days, best.rest.end) else {
            return course;
        };
        if is_given_up(&count, best) {
            return course;
        }
        looks.look();
        count = count.with(days.row.has(index));
        if count.gain() > course.count.gain() {
            course = Course {
                candidate,
                last: index,
                count,
            };
        }
    }
    course
}

// Whether a pattern lacks too many days to gain more than the best so far.
fn is_given_up(count: &Count, best: &Best) -> bool {
    count.lacked > best.most_lacked || best.rest.many.saturating_sub(count.lacked) <= best.gain
}

/// The set has no day of the pattern any more, up to the last one.
pub(crate) fn take_course(days: &mut SecondDays, here: &Here, course: &Course) {
    let mut walk = Walk::from_here(&course.candidate, here);
    for _ in 0..days.row.len() {
        let Some(index) = walk.next_before(days, course.last.saturating_add(1)) else {
            return;
        };
        days.row.take(index);
    }
}
