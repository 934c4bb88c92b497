// The series of RFC 5545 that has the occurrences of an event (Microsoft Graph, event).
ghost use Rattle.std.specs.Prelude.{◌≡◌, ◌≤◌, [], ◌∷◌, IfOk};
ghost use Rattle.std.specs.Option.{unwrap_or};
ghost use Rattle.rr_model.specs.Moment.Years.{IsInYears};
ghost use Rattle.rr_model.specs.declared.kind.Kind.TheVariants.{Days};
ghost use Rattle.rr_model.specs.Graph.Counterpart.{end_of_range, series_from, series_of_graph};
ghost use Rattle.rr_model.specs.Graph.Occurrences.{first_repeat_day};
ghost use Rattle.rr_model.specs.Graph.Validity.{IsRangeEnd, IsValidGraphEvent};
ghost use Rattle.rr_model.specs.Series.Soundness.{IsSound};

use crate::rule::rule_of_pattern;
use rr_model::{
    Dates, End, GraphEvent, Kind, NoMemory, Pattern, Range, RangeEnd, Repeat, Rule, Rules, Series,
    moment_at, second_part,
};
use rr_pattern::first_repeat_day;
use std::alloc::Global;

// A series of rules whose start counts.
fn series_from(alloc: Global, kind: Kind, start: i64, rules: Rules) -> Series
    ensures { result ≡ series_from kind start rules }
{
    Series {
        kind,
        start,
        start_counts: true,
        rules,
        excluded: Rules::new(alloc),
        plus: Dates::new(alloc),
        minus: Dates::new(alloc),
    }
}

// The list of one rule.
fn one_rule(alloc: Global, rule: Rule) -> Result<Rules, NoMemory>
    ensures { IfOk result (λ rules. rules ≡ rule ∷ []) }
{
    let mut rules = Rules::new(alloc);
    rules.put(rule)?;
    Ok(rules)
}

// The first day, or the start's if there is none.
fn first_day(pattern: &Pattern, range: &Range) -> i64
    requires interval { 1 ≤ pattern.now.interval }
    requires start { IsInYears Days range.now.start_day }
    ensures day { result ≡ unwrap_or (first_repeat_day pattern.now range.now) range.now.start_day }
    ensures near { IsInYears Days result }
{
    match first_repeat_day(pattern, range) {
        Some(day) => day,
        None => range.start_day,
    }
}

// The end of the rule: a last day becomes an UNTIL at the start's second.
fn end_of_range(kind: Kind, second: u32, end: RangeEnd) -> End
    requires day { IsRangeEnd end }
    ensures { result ≡ end_of_range kind second end }
{
    match end {
        RangeEnd::NoEnd => End::Never,
        RangeEnd::EndDate(day) => End::Until {
            kind,
            at: moment_at(kind, day, second),
        },
        RangeEnd::Numbered(count) => End::Count(count),
    }
}

#[tactic(auto, unfolding(rr_model::specs::Graph::Counterpart::series_of_graph))]
fn counterpart_of(alloc: Global, event: &GraphEvent) -> Result<Series, NoMemory>
    requires { IsValidGraphEvent event.now }
    ensures { IfOk result (λ series. series ≡ series_of_graph event.now) }
{
    match event.repeat {
        Repeat::Once => Ok(series_from(alloc, event.kind, event.start, Rules::new(alloc))),
        Repeat::Pattern { pattern, range } => {
            let second = second_part(event.kind, event.start);
            let start = moment_at(event.kind, first_day(&pattern, &range), second);
            let end = end_of_range(event.kind, second, range.end);
            let rules = one_rule(alloc, rule_of_pattern(alloc, &pattern, end)?)?;
            Ok(series_from(alloc, event.kind, start, rules))
        }
    }
}

/// The series of RFC 5545, section 3.8.5, that has the occurrences of an event, and starts at the first of them.
///
/// An event that does not repeat has no rule, every other one rule, whose UNTIL is the last day of a range that has one,
/// at the second of the event's start.
pub fn to_series(alloc: Global, event: &GraphEvent) -> Result<Series, NoMemory>
    requires { IsValidGraphEvent event.now }
    ensures value { IfOk result (λ series. series ≡ series_of_graph event.now) }
    ensures sound { IfOk result IsSound }
{
    counterpart_of(alloc, event)
}
