// JSON texts and the members of their objects (RFC 8259).
ghost use Rattle.std.specs.Prelude.{◌≡◌, ◌≤◌, option_map, IfOk};
ghost use Rattle.std.specs.Str.{IsUtf8, str_eq_ignore_ascii_case};
ghost use Rattle.serde_json.specs.View.{view};
ghost use Rattle.rr_model.specs.Graph.Members.{json_object, member_of, number_in, object_in, object_or, text_in, number_in_bounds};
ghost use Rattle.rr_text.specs.Answers.{AnswersAs};
ghost use Rattle.rr_graph.specs.Answers.{AnswersValue};

use rr_model::{Fault, Member, Refusal};
use serde_json::Value;
use std::alloc::Global;

/// The object that a text in UTF-8 is, or `BadJson`.
#[tactic(auto, using(crate::proofs::JsonLemmas::object_or_object, crate::proofs::JsonLemmas::object_or_other), unfolding(rr_model::specs::Graph::Members::json_object))]
pub(crate) fn json_object(alloc: Global, text: &[u8]) -> Result<Value, Fault>
    requires { IsUtf8 text.now }
    ensures { AnswersValue (json_object text.now) result }
{
    match Value::from_slice(alloc, text) {
        Ok(value) if value.is_object() => Ok(value),
        Err(error) if error.is_memory() => Err(Fault::NoMemory),
        _ => Err(Fault::Refused(Refusal::BadJson)),
    }
}

/// The member of that name, if there is one that is not null.
pub(crate) fn find_member<'v>(value: &'v Value, name: &str) -> Option<&'v Value>
    ensures { option_map (λ v. view v.now) result ≡ member_of name.now (view value.now) }
{
    let found = value.get(name)?;
    if found.is_null() { None } else { Some(found) }
}

/// The value if it is an object, or the refusal.
#[tactic(auto, using(crate::proofs::JsonLemmas::object_or_object, crate::proofs::JsonLemmas::object_or_other))]
pub(crate) fn object_or(value: &Value, refusal: Refusal) -> Result<&Value, Refusal>
    ensures { AnswersAs (λ v. view v.now) (object_or refusal (view value.now)) result }
{
    if value.is_object() {
        Ok(value)
    } else {
        Err(refusal)
    }
}

/// The object that the member of that name is.
pub(crate) fn object_in<'v>(
    value: &'v Value,
    member: Member,
    name: &str,
) -> Result<&'v Value, Refusal>
    ensures { AnswersAs (λ v. view v.now) (object_in member name.now (view value.now)) result }
{
    match find_member(value, name) {
        Some(found) => object_or(found, Refusal::BadMember(member)),
        None => Err(Refusal::BadMember(member)),
    }
}

/// The text that the member of that name is.
pub(crate) fn text_in<'v>(value: &'v Value, name: &str) -> Option<&'v str>
    ensures { option_map (λ s. s.now) result ≡ text_in name.now (view value.now) }
{
    find_member(value, name).and_then(Value::as_str)
}

/// The whole number that the member of that name is.
pub(crate) fn number_in(value: &Value, name: &str) -> Option<u64>
    ensures { result ≡ number_in name.now (view value.now) }
{
    find_member(value, name).and_then(Value::as_u64)
}

/// The number from 1 up to the most that the member of that name is.
pub(crate) fn number_within(
    value: &Value,
    member: Member,
    name: &str,
    most: u64,
) -> Result<u64, Refusal>
    ensures value { result ≡ number_in_bounds member 1 most (number_in name.now (view value.now)) }
    ensures high { IfOk result (λ number. number ≤ most) }
{
    match number_in(value, name) {
        Some(number) if 1 <= number && number <= most => Ok(number),
        _ => Err(Refusal::BadMember(member)),
    }
}

/// Whether a name is the word, in any case of ASCII letters.
pub(crate) fn is_named(name: &str, word: &str) -> bool
    ensures { result ≡ str_eq_ignore_ascii_case name.now word.now }
{
    name.eq_ignore_ascii_case(word)
}
