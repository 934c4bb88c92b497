// Where the events of a line of a report stand on a page.
ghost use Rattle.std.specs.Prelude.{◌≡◌};
ghost use Rattle.rr_page.specs.Class.{class_by, class_of, class_of_equal, count_of, even_count, is_even, is_of, is_of_one, is_same_class, is_shown, left_behind};

use rr_model::Verdict;
use rr_trip::{ReportLine, Said, Zones};

/// How many events a section shows at most, but for its list of equal ones.
pub const MOST_EVENTS: usize = 1_000;

// Where the events of a line stand.
#[derive(Clone, Copy)]
pub(crate) enum Class {
    // To look at: they differ, or one file alone has them.
    Look,
    // Nobody can tell whether they differ.
    Undecided,
    // One file alone has them, and nothing occurs in them.
    Cancelled,
    // The files have the same occurrences of them.
    Equal,
}

// Whether one file alone has the events of a line.
fn is_of_one(line: &ReportLine) -> bool
    ensures { result ≡ is_of_one line.now }
{
    line.in_a.is_empty() || line.in_b.is_empty()
}

// Events with equal local times, by what is known of their zones.
fn class_of_equal(zones: Zones) -> Class
    ensures { result ≡ class_of_equal zones }
{
    match zones {
        Zones::Local | Zones::Moments { .. } => Class::Equal,
        Zones::Unknown => Class::Undecided,
    }
}

// Events of which this is said, by whether one file alone has them.
fn class_by(one: bool, said: Said) -> Class
    ensures { result ≡ class_by one said }
{
    match said {
        Said::Only(_) | Said::Floating(_) | Said::Length(_) => Class::Look,
        Said::Refused { .. } | Said::Alike(_) => Class::Undecided,
        Said::Compared { verdict, zones } => match verdict {
            Verdict::No { .. } => Class::Look,
            Verdict::Yes => {
                if one {
                    Class::Cancelled
                } else {
                    class_of_equal(zones)
                }
            }
        },
    }
}

#[tactic(auto, unfolding(crate::specs::Class::class_of))]
fn class_of(line: &ReportLine) -> Class
    ensures { result ≡ class_of line.now }
{
    class_by(is_of_one(line), line.said)
}

fn is_same_class(class: Class, other: Class) -> bool
    ensures { result ≡ is_same_class class other }
{
    matches!(
        (class, other),
        (Class::Look, Class::Look)
            | (Class::Undecided, Class::Undecided)
            | (Class::Cancelled, Class::Cancelled)
            | (Class::Equal, Class::Equal)
    )
}

// Whether the line is of this class.
pub(crate) fn is_of(class: Class, line: &ReportLine) -> bool
    ensures { result ≡ is_of class line.now }
{
    is_same_class(class, class_of(line))
}

// How many lines are of a class.
pub(crate) fn count_of(class: Class, lines: &[ReportLine]) -> usize
    ensures { result ≡ count_of class lines.now }
{
    lines.iter().filter(|line| is_of(class, line)).count()
}

// Whether the line is of events with the same occurrences, or of cancelled ones.
#[tactic(auto, unfolding(crate::specs::Class::is_even))]
fn is_even(line: &ReportLine) -> bool
    ensures { result ≡ is_even line.now }
{
    is_of(Class::Cancelled, line) || is_of(Class::Equal, line)
}

// How many lines are of such events.
pub(crate) fn even_count(lines: &[ReportLine]) -> usize
    ensures { result ≡ even_count lines.now }
{
    lines.iter().filter(|line| is_even(line)).count()
}

// Whether a line is shown, if `left` more of its class may be.
pub(crate) fn is_shown(class: Class, left: usize, line: &ReportLine) -> bool
    ensures { result ≡ is_shown class left line.now }
{
    left > 0 && is_of(class, line)
}

// How many more may be shown behind a line.
pub(crate) fn left_behind(class: Class, left: usize, line: &ReportLine) -> usize
    ensures { result ≡ left_behind class left line.now }
{
    if is_shown(class, left, line) {
        left - 1
    } else {
        left
    }
}
