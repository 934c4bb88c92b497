// The start of an event (Microsoft Graph, event, dateTimeTimeZone).
ghost use Rattle.std.specs.Prelude.{◌≡◌, codes, option_and_then, IfOk, IfSome};
ghost use Rattle.serde_json.specs.View.{view};
ghost use Rattle.rr_model.specs.Graph.Members.{member_of, text_in};
ghost use Rattle.rr_model.specs.Graph.Reading.{graph_moment, is_all_day, is_flag_or_missing, is_named_utc, is_text_or_missing, holds_or, start_moment, turned_start};
ghost use Rattle.rr_model.specs.Moment.Years.{IsInYears};
ghost use Rattle.rr_model.specs.declared.kind.Kind.TheVariants.{Moments};
ghost use Rattle.rr_model.specs.declared.refusal.Member.TheVariants.{IsAllDay, TimeZone};
ghost use Rattle.rr_model.specs.declared.refusal.Refusal.TheVariants.{BadMember};

use crate::members::{find_member, is_named, text_in};
use rr_model::{Kind, Member, Refusal, Stamp};
use rr_text::{extended, later_in_years};
use serde_json::Value;

/// Whether an event is all day.
#[tactic(auto, using(crate::proofs::JsonLemmas::is_true_some))]
pub(crate) fn is_all_day(event: &Value) -> bool
    ensures { result ≡ is_all_day (view event.now) }
{
    match find_member(event, "isAllDay") {
        Some(flag) => flag.as_bool().unwrap_or(false),
        None => false,
    }
}

// Whether the zone of the start is named UTC.
fn is_named_utc(start: &Value) -> bool
    ensures { result ≡ is_named_utc (text_in (codes "timeZone") (view start.now)) }
{
    match text_in(start, "timeZone") {
        Some(zone) => is_named(zone, "UTC"),
        None => false,
    }
}

// A moment of UTC turned by the offset; without one, and in local time, it is taken as it stands.
fn turned_start(is_utc: bool, offset: Option<i32>, at: i64) -> Option<i64>
    requires { IsInYears Moments at }
    ensures value { result ≡ turned_start is_utc offset at }
    ensures years { IfSome result (IsInYears Moments) }
{
    match offset {
        Some(offset) if is_utc => later_in_years(at, offset),
        _ => Some(at),
    }
}

// A moment, and no date.
fn graph_moment(text: &str) -> Option<Stamp>
    ensures value { result ≡ graph_moment text.now }
    ensures years { IfSome result (λ stamp. IsInYears Moments stamp.at) }
{
    let stamp = extended(text.as_bytes())?;
    match stamp.kind {
        Kind::Days => None,
        Kind::Moments => Some(stamp),
    }
}

// The moment that the start states.
fn stated_moment(start: &Value) -> Option<Stamp>
    ensures value { result
        ≡ option_and_then graph_moment (text_in (codes "dateTime") (view start.now)) }
    ensures years { IfSome result (λ stamp. IsInYears Moments stamp.at) }
{
    let text = text_in(start, "dateTime")?;
    graph_moment(text)
}

/// The start's moment; in an all-day event no offset is applied.
#[tactic(auto, unfolding(rr_model::specs::Graph::Reading::start_moment))]
pub(crate) fn start_moment(
    offset: Option<i32>,
    all_day: bool,
    start: &Value,
) -> Result<i64, Refusal>
    ensures value { result ≡ start_moment offset all_day (view start.now) }
    ensures years { IfOk result (IsInYears Moments) }
{
    let Some(stamp) = stated_moment(start) else {
        return Err(Refusal::BadMember(Member::DateTime));
    };
    let is_utc = !all_day && (stamp.utc || is_named_utc(start));
    turned_start(is_utc, offset, stamp.at).ok_or(Refusal::BadMember(Member::DateTime))
}

/// Judges the name of a zone: `BadMember` comes if it is there and no text.
#[tactic(auto, using(crate::proofs::JsonLemmas::is_text_some))]
pub(crate) fn judge_zone(start: &Value) -> Result<(), Refusal>
    ensures { result ≡ holds_or (is_text_or_missing (member_of (codes "timeZone") (view start.now)))
        (BadMember TimeZone) }
{
    match find_member(start, "timeZone") {
        Some(zone) if !zone.is_string() => Err(Refusal::BadMember(Member::TimeZone)),
        _ => Ok(()),
    }
}

/// Judges `isAllDay`: `BadMember` comes if it is there and neither true nor false.
#[tactic(auto, using(crate::proofs::JsonLemmas::is_flag_some))]
pub(crate) fn judge_flag(event: &Value) -> Result<(), Refusal>
    ensures { result ≡ holds_or (is_flag_or_missing (member_of (codes "isAllDay") (view event.now)))
        (BadMember IsAllDay) }
{
    match find_member(event, "isAllDay") {
        Some(flag) if !flag.is_boolean() => Err(Refusal::BadMember(Member::IsAllDay)),
        _ => Ok(()),
    }
}
