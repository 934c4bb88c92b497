// Whether two series are the same, part by part.
ghost use Rattle.std.specs.Prelude.{◌≡◌, true};
ghost use Rattle.rr_trip.specs.Same.{HasSameDays, HasSameSteps, HasSameTimes};

use rr_model::{Dates, DayItem, DayItems, Numbers, Rule, Series};

fn is_same_numbers(a: &Numbers, b: &Numbers) -> bool
    ensures { result ≡ true → a.now ≡ b.now }
{
    a.as_slice() == b.as_slice()
}

// Whether two lists of values of BYDAY are the same.
fn are_same_items(a: &[DayItem], b: &[DayItem]) -> bool
    ensures { result ≡ true → a.now ≡ b.now }
{
    if a.len() != b.len() {
        return false;
    }
    for i in 0..a.len() {
        if a[i] != b[i] {
            return false;
        }
    }
    true
}

fn is_same_day_items(a: &DayItems, b: &DayItems) -> bool
    ensures { result ≡ true → a.now ≡ b.now }
{
    are_same_items(a.as_slice(), b.as_slice())
}

fn is_same_dates(a: &Dates, b: &Dates) -> bool
    ensures { result ≡ true → a.now ≡ b.now }
{
    a.as_slice() == b.as_slice()
}

// Whether two rules choose days by the same numbers.
fn has_same_days(a: &Rule, b: &Rule) -> bool
    ensures { result ≡ true → HasSameDays a.now b.now }
{
    is_same_numbers(&a.by_month, &b.by_month)
        && is_same_numbers(&a.by_week_no, &b.by_week_no)
        && is_same_numbers(&a.by_year_day, &b.by_year_day)
        && is_same_numbers(&a.by_month_day, &b.by_month_day)
        && is_same_day_items(&a.by_day, &b.by_day)
}

// Whether two rules choose times and places by the same numbers.
fn has_same_times(a: &Rule, b: &Rule) -> bool
    ensures { result ≡ true → HasSameTimes a.now b.now }
{
    is_same_numbers(&a.by_hour, &b.by_hour)
        && is_same_numbers(&a.by_minute, &b.by_minute)
        && is_same_numbers(&a.by_second, &b.by_second)
        && is_same_numbers(&a.by_set_pos, &b.by_set_pos)
}

// Whether two rules go in the same steps up to the same end.
fn has_same_steps(a: &Rule, b: &Rule) -> bool
    ensures { result ≡ true → HasSameSteps a.now b.now }
{
    a.freq == b.freq && a.interval == b.interval && a.week_start == b.week_start && a.end == b.end
}

// Whether two rules are the same.
fn is_same_rule(a: &Rule, b: &Rule) -> bool
    ensures { result ≡ true → a.now ≡ b.now }
{
    has_same_steps(a, b) && has_same_days(a, b) && has_same_times(a, b)
}

// Whether two lists of rules are the same.
fn are_same_rules(a: &[Rule], b: &[Rule]) -> bool
    ensures { result ≡ true → a.now ≡ b.now }
{
    if a.len() != b.len() {
        return false;
    }
    for i in 0..a.len() {
        if !is_same_rule(&a[i], &b[i]) {
            return false;
        }
    }
    true
}

/// Whether two series are the same, part by part. Two that are written in other words may have the same occurrences.
pub fn is_same_series(a: &Series, b: &Series) -> bool
    ensures { result ≡ true → a.now ≡ b.now }
{
    a.kind == b.kind
        && a.start == b.start
        && a.start_counts == b.start_counts
        && are_same_rules(a.rules.as_slice(), b.rules.as_slice())
        && are_same_rules(a.excluded.as_slice(), b.excluded.as_slice())
        && is_same_dates(&a.plus, &b.plus)
        && is_same_dates(&a.minus, &b.minus)
}
