// Whether an event begins on a day of its pattern.
ghost use Rattle.std.specs.Prelude.{◌≤◌, IsTrue};
ghost use Rattle.rr_model.specs.Graph.Laws.{StartsOnPattern};
ghost use Rattle.rr_model.specs.Graph.Validity.{IsValidGraphEvent};
ghost use Rattle.rr_model.specs.Moment.Years.{HasFourDigitYear};
ghost use Rattle.rr_plan.specs.Plan.{BeginsOnPattern};

use rr_cal::Day;
use rr_model::{GraphEvent, Pattern, Range, Repeat};
use rr_pattern::is_pattern_day;

// Whether the first day of a range is one of the pattern.
fn starts_on_pattern(pattern: &Pattern, range: &Range) -> bool
    requires interval { 1 ≤ pattern.now.interval }
    requires year { HasFourDigitYear range.now.start_day }
    ensures { IsTrue result → StartsOnPattern pattern.now range.now }
{
    let start = Day::new(range.start_day);
    is_pattern_day(pattern, &start, &start)
}

/// Whether an event repeats, and its range begins on a day of its pattern.
pub(crate) fn begins_on_pattern(event: &GraphEvent) -> bool
    requires { IsValidGraphEvent event.now }
    ensures { IsTrue result → BeginsOnPattern event.now.repeat }
{
    match event.repeat {
        Repeat::Once => false,
        Repeat::Pattern { pattern, range } => starts_on_pattern(&pattern, &range),
    }
}
