// The members of an event and of a bare recurrence (Microsoft Graph, event).
ghost use Rattle.std.specs.Prelude.{◌≡◌, codes, IfOk};
ghost use Rattle.serde_json.specs.View.{view};
ghost use Rattle.rr_model.specs.Graph.Members.{member_of};
ghost use Rattle.rr_model.specs.Graph.Reading.{bare_of, by_pattern, event_of, event_start, repeat_of};
ghost use Rattle.rr_model.specs.Graph.Validity.{IsRepeatFrom, IsValidGraphEvent};
ghost use Rattle.rr_model.specs.Moment.{day_part};
ghost use Rattle.rr_model.specs.Moment.Years.{IsInYears};
ghost use Rattle.rr_model.specs.declared.kind.Kind.TheVariants.{Moments};

use crate::members::{find_member, object_or};
use crate::recurrence::{recurrence_in, to_repeat, to_repeat_from};
use crate::start::{is_all_day, judge_flag, judge_zone, start_moment};
use rr_model::{GraphEvent, Kind, Member, Refusal, Repeat, day_part};
use serde_json::Value;

// The recurrence of an event whose start has this day; without one the start is alone.
fn repeat_in(day: i64, event: &Value) -> Result<Repeat, Refusal>
    ensures value { result ≡ repeat_of day (member_of (codes "recurrence") (view event.now)) }
    ensures valid { IfOk result (IsRepeatFrom day) }
{
    match find_member(event, "recurrence") {
        None => Ok(Repeat::Once),
        Some(found) => {
            let object = object_or(found, Refusal::BadMember(Member::Recurrence))?;
            let recurrence = recurrence_in(object)?;
            to_repeat_from(day, &recurrence)
        }
    }
}

// An all-day event has a date.
fn event_from(all_day: bool, at: i64, repeat: Repeat) -> GraphEvent
    requires years { IsInYears Moments at }
    requires repeat { IsRepeatFrom (day_part Moments at) repeat }
    ensures value { result ≡ record {
      kind = (event_start all_day at).0;
      start = (event_start all_day at).1;
      repeat = repeat;
    } }
    ensures valid { IsValidGraphEvent result }
{
    if all_day {
        GraphEvent {
            kind: Kind::Days,
            start: day_part(Kind::Moments, at),
            repeat,
        }
    } else {
        GraphEvent {
            kind: Kind::Moments,
            start: at,
            repeat,
        }
    }
}

// What an event states, its members in the order of judgement.
#[tactic(auto, unfolding(rr_model::specs::Graph::Reading::event_of))]
fn event_in(offset: Option<i32>, event: &Value) -> Result<GraphEvent, Refusal>
    ensures value { result ≡ event_of offset (view event.now) }
    ensures valid { IfOk result IsValidGraphEvent }
{
    let Some(found) = find_member(event, "start") else {
        return Err(Refusal::NoStart);
    };
    let start = object_or(found, Refusal::BadMember(Member::Start))?;
    let all_day = is_all_day(event);
    let at = start_moment(offset, all_day, start)?;
    judge_zone(start)?;
    judge_flag(event)?;
    let repeat = repeat_in(day_part(Kind::Moments, at), event)?;
    Ok(event_from(all_day, at, repeat))
}

// What a bare recurrence states: a series of dates from its startDate.
#[tactic(auto, unfolding(rr_model::specs::Graph::Reading::bare_of))]
fn bare_event_in(value: &Value) -> Result<GraphEvent, Refusal>
    ensures value { result ≡ bare_of (view value.now) }
    ensures valid { IfOk result IsValidGraphEvent }
{
    let recurrence = recurrence_in(value)?;
    let repeat = to_repeat(&recurrence)?;
    Ok(GraphEvent {
        kind: Kind::Days,
        start: recurrence.range.start_day,
        repeat,
    })
}

/// The event that an object states: a bare recurrence if it has a member `pattern`, and otherwise an event. The offset
/// is local time less UTC in seconds. It refuses in the order of `read`.
pub fn value_in(offset: Option<i32>, value: &Value) -> Result<GraphEvent, Refusal>
    ensures value { result
        ≡ by_pattern offset (member_of (codes "pattern") (view value.now)) (view value.now) }
    ensures valid { IfOk result IsValidGraphEvent }
{
    match find_member(value, "pattern") {
        None => event_in(offset, value),
        Some(_) => bare_event_in(value),
    }
}
