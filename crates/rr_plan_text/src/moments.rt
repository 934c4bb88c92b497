// The JSON of dates and moments.
ghost use Rattle.std.specs.Prelude.{◌≡◌, All, IfOk};
ghost use Rattle.serde_json.specs.Data.{array, string};
ghost use Rattle.serde_json.specs.View.{items_view, view};
ghost use Rattle.serde_json.specs.Written.{compact_text};
ghost use Rattle.rr_model.specs.Text.Moments.{extended_text};
ghost use Rattle.rr_plan_text.specs.PlanText.{moments_items};
ghost use Rattle.rr_text.specs.Printed.{IsPrintableAt};

use rr_model::{Kind, NoMemory};
use rr_text::push_extended;
use serde_json::Value;
use std::alloc::Global;

// A date YYYY-MM-DD, or a moment YYYY-MM-DDTHH:MM:SS.
fn moment_value(alloc: Global, kind: Kind, at: i64) -> Result<Value, NoMemory>
    requires { IsPrintableAt kind at }
    ensures { IfOk result (λ value. view value ≡ string (extended_text kind at)) }
{
    let mut bytes = Vec::new(alloc);
    push_extended(&mut bytes, kind, at)?;
    let Ok(text) = std::str::from_utf8(bytes.as_slice()) else {
        unreachable!();
    };
    Ok(Value::try_from_str(alloc, text)?)
}

// The JSON strings of dates or moments, in their order.
fn moment_values(alloc: Global, kind: Kind, times: &[i64]) -> Result<Vec<Value>, NoMemory>
    requires { All (IsPrintableAt kind) times.now }
    ensures { IfOk result (λ values. items_view values.items ≡ moments_items kind times.now) }
{
    let mut values = Vec::new(alloc);
    for time in times {
        values.push(moment_value(alloc, kind, *time)?)?;
    }
    Ok(values)
}

/// The JSON of dates or moments.
pub(crate) fn moments_text(alloc: Global, kind: Kind, times: &[i64]) -> Result<Vec<u8>, NoMemory>
    requires { All (IsPrintableAt kind) times.now }
    ensures { IfOk result
        (λ text. text.items ≡ compact_text (array (moments_items kind times.now))) }
{
    let values = moment_values(alloc, kind, times)?;
    Ok(Value::Array(values).to_vec(alloc)?)
}
