// The next pattern in the order in which patterns are tried.
ghost use Rattle.std.specs.Prelude.{◌≡◌, ◌≤◌, ◌+◌, ◌%◌};
ghost use Rattle.rr_family.specs.GraphProfile.{form_place, index_place};
ghost use Rattle.rr_graphfind.specs.Order.{IsFirstThat, IsLater, IsNext, least_pattern, members_of};
ghost use Rattle.rr_model.specs.Graph.Uses.{most_interval, uses_day_of_month, uses_days, uses_first_day, uses_index, uses_month};
ghost use Rattle.rr_model.specs.Graph.Validity.{IsIndex, IsValidPattern, LiesIfUsed};

use rr_model::{Form, Pattern};

/// Patterns that share the first of their members: of interval, type, first day of the week, day of the month, month, index
/// and weekdays, the order in which patterns are tried.
#[derive(Clone, Copy)]
pub(crate) enum Group {
    /// Those with one interval, type and first day of the week.
    FirstDay,
    /// Those that also have one day of the month and one month.
    Month,
    /// One pattern, with all its members.
    Alone,
}

/// The first pattern after all those of a group, in which this one is.
pub(crate) fn pattern_after(pattern: Pattern, group: Group) -> Option<Pattern>
    requires { IsValidPattern pattern }
    ensures { IsFirstThat (IsLater (members_of group) pattern) result }
{
    match group {
        Group::FirstDay => after_first_day(pattern),
        Group::Month => after_month(pattern),
        Group::Alone => after_days(pattern),
    }
}

// The next pattern after this one alone: with the next weekdays, if there are any.
fn after_days(pattern: Pattern) -> Option<Pattern>
    requires { IsValidPattern pattern }
    ensures { IsFirstThat (IsLater 7 pattern) result }
{
    match number_after(uses_days(pattern.form), pattern.days, 127) {
        Some(days) => Some(Pattern { days, ..pattern }),
        None => after_index(pattern),
    }
}

// After those with its members up to the index.
fn after_index(pattern: Pattern) -> Option<Pattern>
    requires { IsValidPattern pattern }
    ensures { IsFirstThat (IsLater 6 pattern) result }
{
    match index_after(uses_index(pattern.form), pattern.index) {
        Some(index) => Some(Pattern {
            first_day: pattern.first_day,
            day_of_month: pattern.day_of_month,
            month: pattern.month,
            index,
            ..least_pattern(pattern.form, pattern.interval)
        }),
        None => after_month(pattern),
    }
}

// After those with its members up to the month.
fn after_month(pattern: Pattern) -> Option<Pattern>
    requires { IsValidPattern pattern }
    ensures { IsFirstThat (IsLater 5 pattern) result }
{
    match number_after(uses_month(pattern.form), pattern.month, 12) {
        Some(month) => Some(Pattern {
            first_day: pattern.first_day,
            day_of_month: pattern.day_of_month,
            month,
            ..least_pattern(pattern.form, pattern.interval)
        }),
        None => after_day_of_month(pattern),
    }
}

// After those with its members up to the day of the month.
fn after_day_of_month(pattern: Pattern) -> Option<Pattern>
    requires { IsValidPattern pattern }
    ensures { IsFirstThat (IsLater 4 pattern) result }
{
    match number_after(uses_day_of_month(pattern.form), pattern.day_of_month, 31) {
        Some(day_of_month) => Some(Pattern {
            first_day: pattern.first_day,
            day_of_month,
            ..least_pattern(pattern.form, pattern.interval)
        }),
        None => after_first_day(pattern),
    }
}

// After those with its interval, type and first day of the week.
fn after_first_day(pattern: Pattern) -> Option<Pattern>
    requires { IsValidPattern pattern }
    ensures { IsFirstThat (IsLater 3 pattern) result }
{
    match weekday_after(uses_first_day(pattern.form), pattern.first_day) {
        Some(first_day) => Some(Pattern {
            first_day,
            ..least_pattern(pattern.form, pattern.interval)
        }),
        None => after_form(pattern),
    }
}

// After those with its interval and type.
fn after_form(pattern: Pattern) -> Option<Pattern>
    requires { IsValidPattern pattern }
    ensures { IsFirstThat (IsLater 2 pattern) result }
{
    match form_after(pattern.form, pattern.interval) {
        Some(form) => Some(least_pattern(form, pattern.interval)),
        None => after_interval(pattern),
    }
}

// After those with its interval.
fn after_interval(pattern: Pattern) -> Option<Pattern>
    requires { IsValidPattern pattern }
    ensures { IsFirstThat (IsLater 1 pattern) result }
{
    if pattern.interval < 999 {
        return Some(least_pattern(Form::Daily, pattern.interval + 1));
    }
    None
}

// The next number of a member that is 1 at least if it is used.
fn number_after(used: bool, number: u8, high: u8) -> Option<u8>
    ensures { IsNext (LiesIfUsed used 1 high 0) (λ n. n) number result }
{
    if used && number < high {
        Some(number + 1)
    } else {
        None
    }
}

// The next index: -1, the last, comes after 4.
fn index_after(used: bool, index: i8) -> Option<i8>
    requires { IsIndex used index }
    ensures { IsNext (IsIndex used) index_place index result }
{
    if !used || index < 1 {
        return None;
    }
    Some(if index < 4 { index + 1 } else { -1 })
}

// The next first day of the week, from 6 for Sunday by 0 for Monday to 5 for Saturday.
fn weekday_after(used: bool, weekday: u8) -> Option<u8>
    requires { LiesIfUsed used 0 6 6 weekday }
    ensures { IsNext (LiesIfUsed used 0 6 6) (λ n. (n + 1) % 7) weekday result }
{
    if used && weekday != 5 {
        Some((weekday + 1) % 7)
    } else {
        None
    }
}

// The next type of those that may have this interval.
fn form_after(form: Form, interval: u32) -> Option<Form>
    requires { interval ≤ most_interval form }
    ensures { IsNext (λ other. interval ≤ most_interval other) form_place form result }
{
    match form {
        Form::Daily => Some(Form::Weekly),
        Form::Weekly if interval <= 99 => Some(Form::AbsoluteMonthly),
        Form::AbsoluteMonthly => Some(Form::RelativeMonthly),
        Form::RelativeMonthly => Some(Form::AbsoluteYearly),
        Form::AbsoluteYearly => Some(Form::RelativeYearly),
        Form::Weekly | Form::RelativeYearly => None,
    }
}

/// The first pattern of a type and an interval: each member that the type uses is the least that it may be.
pub(crate) fn least_pattern(form: Form, interval: u32) -> Pattern
    ensures { result ≡ least_pattern form interval }
{
    Pattern {
        form,
        interval,
        day_of_month: u8::from(uses_day_of_month(form)),
        month: u8::from(uses_month(form)),
        days: u8::from(uses_days(form)),
        first_day: 6,
        index: 1,
    }
}

fn uses_first_day(form: Form) -> bool
    ensures { result ≡ uses_first_day form }
{
    matches!(form, Form::Weekly)
}

fn uses_day_of_month(form: Form) -> bool
    ensures { result ≡ uses_day_of_month form }
{
    matches!(form, Form::AbsoluteMonthly | Form::AbsoluteYearly)
}

pub(crate) fn uses_month(form: Form) -> bool
    ensures { result ≡ uses_month form }
{
    matches!(form, Form::AbsoluteYearly | Form::RelativeYearly)
}

fn uses_index(form: Form) -> bool
    ensures { result ≡ uses_index form }
{
    matches!(form, Form::RelativeMonthly | Form::RelativeYearly)
}

fn uses_days(form: Form) -> bool
    ensures { result ≡ uses_days form }
{
    matches!(
        form,
        Form::Weekly | Form::RelativeMonthly | Form::RelativeYearly
    )
}
