// The rules of a series, each with one end alone.
ghost use Rattle.std.specs.Prelude.{◌≡◌, ◌≤◌, ◌≤ℤ◌, All, IfOk, map, nat_le};
ghost use Rattle.rr_iter.specs.Ends.{IsSoundRule};
ghost use Rattle.rr_model.specs.Moment.Years.{IsInYears};
ghost use Rattle.rr_model.specs.Rule.Member.{members_to};
ghost use Rattle.rr_model.specs.Series.Soundness.{IsSound};
ghost use Rattle.rr_translate.specs.OneEnd.{one_end, with_one_end, with_one_ends};

use rr_iter::{NthDay, Upto, nth_of};
use rr_model::{End, Kind, NoMemory, Rule, Rules, Series, day_part};
use rr_walk::RuleLazy;
use std::alloc::Global;

// Whether a rule chooses `count` moments, at least one, from its start up to a moment of its kind.
fn has_members_to(
    alloc: Global,
    rule: &Rule,
    kind: Kind,
    start: i64,
    count: u64,
    at: i64,
) -> Result<bool, NoMemory>
    requires sound { IsSoundRule kind start rule.now }
    requires some { 1 ≤ count }
    requires in_years { IsInYears kind at }
    requires late { start ≤ℤ at }
    ensures { IfOk result (λ found. found ≡ nat_le count (members_to rule.now kind start at)) }
{
    let chosen = RuleLazy::new(alloc, rule, kind, start)?;
    let members = Upto::new(chosen, kind, at);
    let nth = nth_of(alloc, members, count, day_part(kind, at))?;
    Ok(matches!(nth, NthDay::On(_)))
}

// The end of a rule, of both ends the earlier one alone.
fn one_end(alloc: Global, rule: &Rule, kind: Kind, start: i64) -> Result<End, NoMemory>
    requires sound { IsSoundRule kind start rule.now }
    ensures { IfOk result (λ end. end ≡ one_end rule.now kind start rule.now.end) }
{
    let End::Both {
        kind: other,
        at,
        count,
    } = rule.end
    else {
        return Ok(rule.end);
    };
    if has_members_to(alloc, rule, kind, start, count, at)? {
        Ok(End::Count(count))
    } else {
        Ok(End::Until { kind: other, at })
    }
}

// A copy of the rule with one end.
fn with_one_end(alloc: Global, rule: &Rule, kind: Kind, start: i64) -> Result<Rule, NoMemory>
    requires sound { IsSoundRule kind start rule.now }
    ensures { IfOk result (λ made. made ≡ with_one_end kind start rule.now) }
{
    let mut made = rule.copy(alloc)?;
    made.end = one_end(alloc, rule, kind, start)?;
    Ok(made)
}

// Copies of the rules, each with one end.
fn rules_with_one_end(
    alloc: Global,
    rules: &[Rule],
    kind: Kind,
    start: i64,
) -> Result<Rules, NoMemory>
    requires sound { All (IsSoundRule kind start) rules.now }
    ensures { IfOk result (λ made. made ≡ map (with_one_end kind start) rules.now) }
{
    let mut made = Rules::new(alloc);
    for rule in rules {
        made.put(with_one_end(alloc, rule, kind, start)?)?;
    }
    Ok(made)
}

/// The series with the same occurrences of whose rules and excluded rules none has both ends (RFC 5545, section 3.3.10).
///
/// If a rule has both, its members up to the UNTIL are counted, one occupied day after another.
pub(crate) fn with_one_ends(alloc: Global, series: &Series) -> Result<Series, NoMemory>
    requires sound { IsSound series.now }
    ensures { IfOk result (λ made. made ≡ with_one_ends series.now) }
{
    Ok(Series {
        kind: series.kind,
        start: series.start,
        start_counts: series.start_counts,
        rules: rules_with_one_end(alloc, series.rules.as_slice(), series.kind, series.start)?,
        excluded: rules_with_one_end(alloc, series.excluded.as_slice(), series.kind, series.start)?,
        plus: series.plus.copy(alloc)?,
        minus: series.minus.copy(alloc)?,
    })
}
