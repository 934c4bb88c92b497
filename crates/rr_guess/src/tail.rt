// Patterns that have days of a set alone, from its settled day on.
use crate::bounds::Looks;
use crate::candidate::{Candidate, FIRST_DAYS, Here};
use crate::order::{MANY_TURNS, Turn};
use crate::picks::Picks;
use crate::second::{Cycle, SecondDays};
use crate::walk::Walk;
use crate::weeks::{MANY_BESIDE, many_weekdays, weekdays_marked};
use rr_model::Form;

/// The first pattern, in the order of intervals, that has a day and from the settled day on no day that the set lacks.
pub(crate) fn first_within(
    days: &SecondDays,
    cycle: &Cycle,
    here: &Here,
    picks: &Picks,
    looks: &mut Looks,
) -> Option<Candidate> {
    let mut turn = Turn::first();
    for _ in 0..MANY_TURNS {
        if cycle.fits(&turn) {
            let found = of_turn(days, here, picks, &turn, looks);
            if found.is_some() {
                return found;
            }
        }
        if looks.are_over() {
            return None;
        }
        turn = turn.after()?;
    }
    None
}

// The first of one interval and type.
fn of_turn(
    days: &SecondDays,
    here: &Here,
    picks: &Picks,
    turn: &Turn,
    looks: &mut Looks,
) -> Option<Candidate> {
    match turn.form {
        Form::Daily => {
            let candidate = Candidate::by_days(turn);
            is_within(days, here, &candidate, looks).then_some(candidate)
        }
        Form::Weekly => of_weeks(days, here, turn, looks),
        _ => of_months(days, here, picks, turn, looks),
    }
}

// The first of months or years.
fn of_months(
    days: &SecondDays,
    here: &Here,
    picks: &Picks,
    turn: &Turn,
    looks: &mut Looks,
) -> Option<Candidate> {
    for pick in picks.of_form(turn.form) {
        let candidate = Candidate::by_months(turn, *pick);
        if is_within(days, here, &candidate, looks) {
            return Some(candidate);
        }
    }
    None
}

// The one of weeks with the most weekdays.
fn of_weeks(days: &SecondDays, here: &Here, turn: &Turn, looks: &mut Looks) -> Option<Candidate> {
    let marks = whole_days(days, here, turn, looks);
    let mut best = None;
    let mut most = 0;
    for first_day in FIRST_DAYS {
        let weekdays = weekdays_marked(&marks, first_day, here.day.weekday);
        if days.target.has_weeks(turn.interval, first_day) && many_weekdays(weekdays) > most {
            best = Some(Candidate::by_weeks(turn, first_day, weekdays));
            most = many_weekdays(weekdays);
        }
    }
    if marks[6] { best } else { None }
}

// Which days, from six before a day on, are the set's with all days that lie whole intervals of weeks from them.
fn whole_days(
    days: &SecondDays,
    here: &Here,
    turn: &Turn,
    looks: &mut Looks,
) -> [bool; MANY_BESIDE] {
    let mut marks = [false; MANY_BESIDE];
    for place in 0..MANY_BESIDE {
        marks[place] = is_whole(days, here, turn, place as u32, looks);
    }
    marks
}

// Whether a day that lies beside another is the set's with all days that lie whole intervals of weeks from it.
fn is_whole(days: &SecondDays, here: &Here, turn: &Turn, place: u32, looks: &mut Looks) -> bool {
    let step = 7 * turn.interval;
    let beyond = here.index.saturating_add(step).saturating_add(place);
    let first = beyond.saturating_sub(days.settled.saturating_add(6)) % step;
    let walk = Walk::by_days(days.settled.saturating_add(first), step);
    has_all(days, walk, looks)
}

// Whether a pattern that has a day has no other days, from the settled day on, than days of the set.
fn is_within(days: &SecondDays, here: &Here, candidate: &Candidate, looks: &mut Looks) -> bool {
    let walk = Walk::from_unit(candidate, here, candidate.settled_unit(days));
    has_all(days, walk, looks)
}

// Whether each day of a walk is the set's, from the settled day on.
fn has_all(days: &SecondDays, walk: Walk, looks: &mut Looks) -> bool {
    let mut walk = walk;
    for _ in 0..days.row.len() {
        let Some(index) = walk.next_before(days, days.row.len()) else {
            return true;
        };
        looks.look();
        if index >= days.settled && !days.row.has(index) {
            return false;
        }
    }
    true
}

/// The set has no day of the pattern from the settled day on any more.
pub(crate) fn take_tail(days: &mut SecondDays, here: &Here, candidate: &Candidate) {
    let mut walk = Walk::from_unit(candidate, here, candidate.settled_unit(days));
    for _ in 0..days.row.len() {
        let Some(index) = walk.next_before(days, days.row.len()) else {
            return;
        };
        if index >= days.settled {
            days.row.take(index);
        }
    }
}
