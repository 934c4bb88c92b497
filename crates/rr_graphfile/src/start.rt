// The start of an event, and which moment of UTC it is (Microsoft Graph, event and dateTimeTimeZone).
ghost use Rattle.std.specs.Prelude.{◌≡◌, ◌||◌, IfSome, Some, codes, option_and_then};
ghost use Rattle.serde_json.specs.View.{view};
ghost use Rattle.rr_model.specs.Graph.Members.{text_in};
ghost use Rattle.rr_model.specs.Graph.Reading.{graph_moment, is_all_day, is_named_utc};
ghost use Rattle.rr_model.specs.Moment.Years.{IsInYears};
ghost use Rattle.rr_model.specs.declared.kind.Kind.TheVariants.{Moments};
ghost use Rattle.rr_graphfile.specs.Turning.{utc_of_start, utc_start};

use crate::item::{find_member, text_in};
use rr_model::{Kind, Stamp};
use rr_text::extended;
use serde_json::Value;

/// Whether an event is all day.
pub(crate) fn is_all_day(event: &Value) -> bool
    ensures { result ≡ is_all_day (view event.now) }
{
    match find_member(event, "isAllDay") {
        Some(flag) => flag.as_bool().unwrap_or(false),
        None => false,
    }
}

// The moment that a text states, and no date.
fn graph_moment(text: &str) -> Option<Stamp>
    ensures value { result ≡ graph_moment text.now }
    ensures years { IfSome result (λ stamp. IsInYears Moments stamp.at) }
{
    let stamp = extended(text.as_bytes())?;
    match stamp.kind {
        Kind::Days => None,
        Kind::Moments => Some(stamp),
    }
}

/// The moment that the member of that name states.
pub(crate) fn moment_in(value: &Value, name: &str) -> Option<Stamp>
    ensures value { result ≡ option_and_then graph_moment (text_in name.now (view value.now)) }
    ensures years { IfSome result (λ stamp. IsInYears Moments stamp.at) }
{
    let text = text_in(value, name)?;
    graph_moment(text)
}

// Whether the zone of a start is named UTC.
fn is_named_utc(start: &Value) -> bool
    ensures { result ≡ is_named_utc (text_in (codes "timeZone") (view start.now)) }
{
    match text_in(start, "timeZone") {
        Some(zone) => zone.eq_ignore_ascii_case("UTC"),
        None => false,
    }
}

// The moment of UTC that a start is, if it is one.
fn utc_of_start(start: &Value) -> Option<i64>
    ensures value { result ≡ utc_of_start (Some (view start.now)) }
    ensures years { IfSome result (IsInYears Moments) }
{
    let stamp = moment_in(start, "dateTime")?;
    if stamp.utc || is_named_utc(start) {
        Some(stamp.at)
    } else {
        None
    }
}

/// The moment of UTC that the start of an event is; none of one that is all day.
pub(crate) fn utc_start(event: &Value) -> Option<i64>
    ensures value { result ≡ utc_start (view event.now) }
    ensures years { IfSome result (IsInYears Moments) }
{
    if is_all_day(event) {
        return None;
    }
    let start = find_member(event, "start")?;
    utc_of_start(start)
}
