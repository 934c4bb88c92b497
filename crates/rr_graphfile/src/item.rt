// What an event of a list states of itself as part of a calendar (Microsoft Graph, event).
ghost use Rattle.std.specs.Prelude.{◌≡◌, length, map, option_map, IfSome};
ghost use Rattle.serde_json.specs.View.{view};
ghost use Rattle.serde_json.specs.Find.{as_array};
ghost use Rattle.rr_graphfile.specs.Items.{array_in, elements_of, instance_day, is_cancelled, is_instance, is_object, own_name, repeats, title_of, type_named, type_of};
ghost use Rattle.rr_model.specs.Graph.Members.{member_of, text_in};
ghost use Rattle.rr_model.specs.Moment.Years.{HasFourDigitYear};
ghost use Rattle.rr_model.specs.Text.ExtendedMoments.{extended_date_alone};

use rr_text::extended;
use serde_json::Value;

/// What an event of a list is (Microsoft Graph, event, `type`).
#[derive(Clone, Copy, Debug, PartialEq, Eq)]
pub enum EventType {
    /// `singleInstance`: one event, which does not repeat.
    Single,
    /// `seriesMaster`: a series, which repeats.
    Master,
    /// `occurrence`: an instance of a series as this states it.
    Occurrence,
    /// `exception`: a moved or changed instance of a series.
    Exception,
}

/// The member of that name, if there is one that is not null.
pub(crate) fn find_member<'v>(value: &'v Value, name: &str) -> Option<&'v Value>
    ensures { option_map (λ v. view v.now) result ≡ member_of name.now (view value.now) }
{
    let found = value.get(name)?;
    if found.is_null() { None } else { Some(found) }
}

/// The text that the member of that name is.
pub(crate) fn text_in<'v>(value: &'v Value, name: &str) -> Option<&'v str>
    ensures { option_map (λ s. s.now) result ≡ text_in name.now (view value.now) }
{
    find_member(value, name).and_then(Value::as_str)
}

/// Whether a value is an object.
#[tactic(auto, using(crate::proofs::ItemLemmas::object_told))]
pub(crate) fn is_object(value: &Value) -> bool
    ensures { result ≡ is_object (view value.now) }
{
    value.is_object()
}

/// The elements of a value, if it is an array.
#[tactic(auto, using(crate::proofs::ItemLemmas::elements_told))]
pub(crate) fn elements(value: &Value) -> Option<&[Value]>
    ensures { option_map (λ items. map view items.now) result
        ≡ elements_of (as_array (view value.now)) }
{
    let items = value.as_array()?;
    Some(items.as_slice())
}

/// The array that the member of that name is.
pub(crate) fn array_in<'v>(event: &'v Value, name: &str) -> Option<&'v [Value]>
    ensures { option_map (λ items. map view items.now) result ≡ array_in name.now (view event.now) }
{
    let found = find_member(event, name)?;
    elements(found)
}

#[tactic(auto, unfolding(crate::specs::Items::type_named))]
fn type_named(name: &str) -> Option<EventType>
    ensures { result ≡ type_named name.now }
{
    if name.eq_ignore_ascii_case("singleInstance") {
        Some(EventType::Single)
    } else if name.eq_ignore_ascii_case("seriesMaster") {
        Some(EventType::Master)
    } else if name.eq_ignore_ascii_case("occurrence") {
        Some(EventType::Occurrence)
    } else if name.eq_ignore_ascii_case("exception") {
        Some(EventType::Exception)
    } else {
        None
    }
}

/// The type of an event, if it states one.
pub(crate) fn type_of(event: &Value) -> Option<EventType>
    ensures { result ≡ type_of (view event.now) }
{
    let name = text_in(event, "type")?;
    type_named(name)
}

/// Whether an event is an instance of a series.
pub(crate) fn is_instance(event: &Value) -> bool
    ensures { result ≡ is_instance (type_of (view event.now)) }
{
    matches!(
        type_of(event),
        Some(EventType::Occurrence | EventType::Exception)
    )
}

/// The name by which an event is found again, empty if it has none.
pub(crate) fn own_name(event: &Value) -> &[u8]
    ensures { result.now ≡ own_name (view event.now) }
{
    match text_in(event, "iCalUId") {
        None => b"",
        Some(text) => text.as_bytes(),
    }
}

/// The title of an event, empty if it has none.
pub(crate) fn title_of(event: &Value) -> &[u8]
    ensures { result.now ≡ title_of (view event.now) }
{
    match text_in(event, "subject") {
        None => b"",
        Some(text) => text.as_bytes(),
    }
}

/// Whether an event has a recurrence.
pub(crate) fn repeats(event: &Value) -> bool
    ensures { result ≡ repeats (view event.now) }
{
    find_member(event, "recurrence").is_some()
}

/// Whether an event is cancelled.
pub(crate) fn is_cancelled(event: &Value) -> bool
    ensures { result ≡ is_cancelled (view event.now) }
{
    match find_member(event, "isCancelled") {
        Some(flag) => flag.as_bool().unwrap_or(false),
        None => false,
    }
}

// The day number of a date YYYY-MM-DD.
#[tactic(auto, unfolding(rr_model::specs::Text::ExtendedMoments::extended, rr_model::specs::Text::ExtendedMoments::extended_date_of))]
fn date_of(text: &[u8]) -> Option<i64>
    requires { length text.now ≡ 10 }
    ensures day { result ≡ extended_date_alone text.now }
    ensures years { IfSome result HasFourDigitYear }
{
    let stamp = extended(text)?;
    Some(stamp.at)
}

/// The day that an id of an instance ends with, after a point.
#[tactic(auto, unfolding(crate::specs::Items::instance_day))]
pub(crate) fn instance_day(id: &str) -> Option<i64>
    ensures day { result ≡ instance_day id.now }
    ensures years { IfSome result HasFourDigitYear }
{
    let text = id.as_bytes();
    if text.len() < 11 || text[text.len() - 11] != b'.' {
        return None;
    }
    date_of(&text[text.len() - 10..])
}
