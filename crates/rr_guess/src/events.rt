// Valid events of Microsoft Graph (recurrencePattern, recurrenceRange, event).
ghost use Rattle.std.specs.Prelude.{◌≡◌, ◌++◌, [], ◌∷◌, All, IfSome, IsTrue, OnOk, length};
ghost use Rattle.rr_model.specs.Graph.Validity.{IsIndex, IsRangeEnd, IsValidGraphEvent, IsValidPattern, LiesIfUsed};
ghost use Rattle.rr_model.specs.Graph.Uses.{most_interval, uses_day_of_month, uses_days, uses_first_day, uses_index, uses_month};
ghost use Rattle.rr_model.specs.Moment.Years.{has_four_digit_year};

use rr_model::{
    FIRST_DAY, Form, GraphEvent, Kind, NoMemory, Pattern, Range, RangeEnd, Repeat, moment_at,
};
use rr_pattern::first_repeat_day;
use std::alloc::Global;
use std::marker::Model;

// 10000-01-01, the day after the years 1 to 9999.
const DAYS_END: i64 = 2_932_897;

/// Events, each of them valid. Contracts see them as a list.
#[derive(Drop)]
pub(crate) struct Events {
    items: Vec<GraphEvent>,
}

impl Model for Events {
    ghost use Rattle.std.specs.Prelude.{All, List};
    ghost use Rattle.rr_model.specs.Graph.Validity.{IsValidGraphEvent};
    ghost use Rattle.rr_model.specs.declared.graph.GraphEvent.{GraphEvent};

    ghost Value = { List GraphEvent };

    ghost view = { λ e. e.items.items };

    ghost invariant = { λ e. All IsValidGraphEvent e.items.items };
}

impl Events {
    /// A list of events with none in it.
    pub(crate) fn new(alloc: Global) -> Events
        ensures { result ≡ [] }
    {
        Events {
            items: Vec::new(alloc),
        }
    }

    /// Puts a valid event at the end.
    pub(crate) fn put(&mut self, event: GraphEvent) -> Result<(), NoMemory>
        requires { IsValidGraphEvent event }
        ensures { OnOk result (self.new ≡ self.old ++ event ∷ []) }
    {
        self.items.push(event)?;
        Ok(())
    }

    /// How many events there are.
    pub(crate) fn len(&self) -> usize
        ensures { result ≡ length self.now }
    {
        self.items.len()
    }

    /// The events, in the order in which they were put; each of them is valid.
    pub(crate) fn into_list(self) -> Vec<GraphEvent>
        ensures same { result.items ≡ self }
        ensures valid { All IsValidGraphEvent result.items }
    {
        self.items
    }
}

/// The event of a pattern from a day and a second on, if it is valid and has an occurrence.
pub(crate) fn event_of(
    kind: Kind,
    second: u32,
    day: i64,
    pattern: Pattern,
    end: RangeEnd,
) -> Option<GraphEvent>
    ensures { IfSome result IsValidGraphEvent }
{
    if second >= 86_400 || !has_four_digit_year(day) {
        return None;
    }
    if !is_valid(&pattern) || !is_end(end) {
        return None;
    }
    let range = Range {
        start_day: day,
        end,
    };
    first_repeat_day(&pattern, &range)?;
    Some(GraphEvent {
        kind,
        start: moment_at(kind, day, second),
        repeat: Repeat::Pattern { pattern, range },
    })
}

/// The event that has each day from a day on, at a second of the day; None past the years 1 to 9999.
pub fn each_day_from(kind: Kind, second: u32, day: i64) -> Option<GraphEvent>
    ensures { IfSome result IsValidGraphEvent }
{
    let each_day = Pattern {
        form: Form::Daily,
        interval: 1,
        day_of_month: 0,
        month: 0,
        days: 0,
        first_day: 6,
        index: 1,
    };
    event_of(kind, second, day, each_day, RangeEnd::NoEnd)
}

// Whether a day lies in the years 1 to 9999.
fn has_four_digit_year(day: i64) -> bool
    ensures { result ≡ has_four_digit_year day }
{
    day >= FIRST_DAY && day < DAYS_END
}

// Whether a range has no end, or ends after a number of occurrences.
fn is_end(end: RangeEnd) -> bool
    ensures { IsTrue result → IsRangeEnd end }
{
    match end {
        RangeEnd::NoEnd => true,
        RangeEnd::EndDate(_) => false,
        RangeEnd::Numbered(many) => 1 <= many,
    }
}

// Whether each member of a pattern is one that it may have.
fn is_valid(pattern: &Pattern) -> bool
    ensures { IsTrue result → IsValidPattern pattern.now }
{
    let form = pattern.form;
    1 <= pattern.interval
        && pattern.interval <= most_interval(form)
        && lies_if_used(uses_days(form), 1, 127, 0, pattern.days)
        && lies_if_used(uses_first_day(form), 0, 6, 6, pattern.first_day)
        && is_index(uses_index(form), pattern.index)
        && lies_if_used(uses_day_of_month(form), 1, 31, 0, pattern.day_of_month)
        && lies_if_used(uses_month(form), 1, 12, 0, pattern.month)
}

// Whether a member that is used lies from one number up to another, and one that is not used has its one value.
fn lies_if_used(used: bool, low: u8, high: u8, otherwise: u8, number: u8) -> bool
    ensures { IsTrue result → LiesIfUsed used low high otherwise number }
{
    if used {
        low <= number && number <= high
    } else {
        number == otherwise
    }
}

// Whether an index is one that a pattern may have.
fn is_index(used: bool, index: i8) -> bool
    ensures { IsTrue result → IsIndex used index }
{
    if used {
        index == -1 || 1 <= index && index <= 4
    } else {
        index == 1
    }
}

fn most_interval(form: Form) -> u32
    ensures { result ≡ most_interval form }
{
    match form {
        Form::Daily | Form::Weekly => 999,
        _ => 99,
    }
}

fn uses_days(form: Form) -> bool
    ensures { result ≡ uses_days form }
{
    matches!(
        form,
        Form::Weekly | Form::RelativeMonthly | Form::RelativeYearly
    )
}

fn uses_first_day(form: Form) -> bool
    ensures { result ≡ uses_first_day form }
{
    matches!(form, Form::Weekly)
}

fn uses_index(form: Form) -> bool
    ensures { result ≡ uses_index form }
{
    matches!(form, Form::RelativeMonthly | Form::RelativeYearly)
}

fn uses_day_of_month(form: Form) -> bool
    ensures { result ≡ uses_day_of_month form }
{
    matches!(form, Form::AbsoluteMonthly | Form::AbsoluteYearly)
}

fn uses_month(form: Form) -> bool
    ensures { result ≡ uses_month form }
{
    matches!(form, Form::AbsoluteYearly | Form::RelativeYearly)
}
