// The members of a range (Microsoft Graph, recurrenceRange).
ghost use Rattle.std.specs.Prelude.{◌≡◌, option_map, IfOk, IfSome};
ghost use Rattle.serde_json.specs.View.{view};
ghost use Rattle.rr_model.specs.Graph.Reading.{date_in, end_in, end_type_named, range_of};
ghost use Rattle.rr_model.specs.Graph.Validity.{IsRangeEnd};
ghost use Rattle.rr_model.specs.Moment.Years.{HasFourDigitYear};
ghost use Rattle.rr_model.specs.Text.ExtendedMoments.{extended_date_alone};
ghost use Rattle.rr_text.specs.Answers.{AnswersAs};
ghost use Rattle.rr_graph.specs.EndTypes.{end_type, end_type_in};
ghost use Rattle.rr_graph.specs.Ranges.{IsValidRange};

use crate::members::{is_named, number_within, text_in};
use rr_model::{Member, Range, RangeEnd, Refusal};
use rr_text::extended;
use serde_json::Value;

/// How a range ends (Microsoft Graph, recurrenceRange, `type`).
#[derive(Clone, Copy, Debug, PartialEq, Eq)]
pub(crate) enum EndKind {
    /// `noEnd`: it repeats for ever.
    NoEnd,
    /// `endDate`: on the date of the member `endDate`.
    EndDate,
    /// `numbered`: after as many occurrences as `numberOfOccurrences` states.
    Numbered,
}

#[tactic(auto, unfolding(rr_model::specs::Graph::Reading::end_type_named))]
fn end_kind_named(name: &str) -> Option<EndKind>
    ensures { option_map end_type result ≡ end_type_named name.now }
{
    if is_named(name, "noEnd") {
        Some(EndKind::NoEnd)
    } else if is_named(name, "endDate") {
        Some(EndKind::EndDate)
    } else if is_named(name, "numbered") {
        Some(EndKind::Numbered)
    } else {
        None
    }
}

// The day number of a date YYYY-MM-DD.
#[tactic(auto, unfolding(rr_model::specs::Text::ExtendedMoments::extended, rr_model::specs::Text::ExtendedMoments::extended_date_of))]
fn date_of(text: &str) -> Option<i64>
    ensures day { result ≡ extended_date_alone text.now }
    ensures years { IfSome result HasFourDigitYear }
{
    let text = text.as_bytes();
    if text.len() != 10 {
        return None;
    }
    let stamp = extended(text)?;
    Some(stamp.at)
}

fn date_in(range: &Value, member: Member, name: &str) -> Result<i64, Refusal>
    ensures day { result ≡ date_in member name.now (view range.now) }
    ensures years { IfOk result HasFourDigitYear }
{
    text_in(range, name)
        .and_then(date_of)
        .ok_or(Refusal::BadMember(member))
}

// The end of a range by its type.
fn end_in(kind: EndKind, range: &Value) -> Result<RangeEnd, Refusal>
    ensures end { result ≡ end_in (end_type kind) (view range.now) }
    ensures valid { IfOk result IsRangeEnd }
{
    match kind {
        EndKind::NoEnd => Ok(RangeEnd::NoEnd),
        EndKind::EndDate => {
            let day = date_in(range, Member::EndDate, "endDate")?;
            Ok(RangeEnd::EndDate(day))
        }
        EndKind::Numbered => {
            let member = Member::NumberOfOccurrences;
            let count = number_within(range, member, "numberOfOccurrences", u64::MAX)?;
            Ok(RangeEnd::Numbered(count))
        }
    }
}

fn end_kind_in(range: &Value) -> Result<EndKind, Refusal>
    ensures { AnswersAs end_type (end_type_in (view range.now)) result }
{
    text_in(range, "type")
        .and_then(end_kind_named)
        .ok_or(Refusal::BadMember(Member::RangeType))
}

/// What a range states, its members in the order of judgement.
#[tactic(auto, unfolding(rr_model::specs::Graph::Reading::range_of))]
pub(crate) fn range_in(range: &Value) -> Result<Range, Refusal>
    ensures value { result ≡ range_of (view range.now) }
    ensures valid { IfOk result IsValidRange }
{
    let kind = end_kind_in(range)?;
    let start_day = date_in(range, Member::StartDate, "startDate")?;
    let end = end_in(kind, range)?;
    Ok(Range { start_day, end })
}
