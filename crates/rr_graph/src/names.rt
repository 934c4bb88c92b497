// The names that patterns are written with (Microsoft Graph, recurrencePattern).
ghost use Rattle.std.specs.Prelude.{◌≡◌, IfOk, map};
ghost use Rattle.serde_json.specs.Data.{string};
ghost use Rattle.serde_json.specs.View.{items_of, items_view};
ghost use Rattle.rr_model.specs.Graph.Text.{day_names, day_text, index_text};

use rr_pattern::is_day_in;
use serde_json::Value;
use std::alloc::{AllocError, Global};

// The weekdays from Sunday to Saturday, each from 0 for Monday.
const WEEKDAYS: [u8; 7] = [6, 0, 1, 2, 3, 4, 5];

/// The name of a weekday, from 0 for Monday.
#[tactic(auto, unfolding(rr_model::specs::Graph::Text::day_text))]
pub(crate) fn day_name(weekday: u8) -> &'static str
    ensures { result.now ≡ day_text weekday }
{
    match weekday {
        0 => "monday",
        1 => "tuesday",
        2 => "wednesday",
        3 => "thursday",
        4 => "friday",
        5 => "saturday",
        _ => "sunday",
    }
}

/// The name of an index, 1 to 4, or -1 for the last.
#[tactic(auto, unfolding(rr_model::specs::Graph::Text::index_text))]
pub(crate) fn index_name(index: i8) -> &'static str
    ensures { result.now ≡ index_text index }
{
    match index {
        1 => "first",
        2 => "second",
        3 => "third",
        _ if index < 0 => "last",
        _ => "fourth",
    }
}

/// The names of the weekdays of a sum of days, from Sunday to Saturday.
pub(crate) fn day_names(alloc: Global, days: u8) -> Result<Vec<Value>, AllocError>
    ensures { IfOk result
        (λ names. items_view names.items ≡ items_of (map string (day_names days))) }
{
    let mut names = Vec::new(alloc);
    for weekday in WEEKDAYS {
        if is_day_in(days, weekday) {
            names.push(Value::try_from_str(alloc, day_name(weekday))?)?;
        }
    }
    Ok(names)
}
