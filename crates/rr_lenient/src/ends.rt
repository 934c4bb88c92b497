// An UNTIL of another kind than the start.
ghost use Rattle.std.specs.Prelude.{◌≡◌, All, IfOk, map};
ghost use Rattle.rr_model.specs.Moment.Years.{IsInYears};
ghost use Rattle.rr_model.specs.Rule.Validity.{EndsInYears};
ghost use Rattle.rr_model.specs.Series.Validity.{IsValidSeries};
ghost use Rattle.rr_lenient.specs.Ends.{any_other_end, end_of_kind, has_other_end, is_other_end, rule_of_kind, until_of_kind, with_ends_of_kind};

use rr_model::{End, Kind, NoMemory, Rule, Rules, Series, day_part, moment_at};
use std::alloc::Global;

// The last second of a day.
const LAST_SECOND: u32 = 86_399;

/// A series whose rules end by an UNTIL of the kind of its start.
#[derive(Drop)]
pub struct Settled {
    /// The series, as it was given if each UNTIL had that kind.
    pub series: Series,
    /// Whether an UNTIL had another kind.
    pub until: bool,
}

/// Reads each UNTIL of another kind than the start as one of its kind.
///
/// RFC 5545, section 3.3.10, wants UNTIL to be a date if DTSTART is one, and a moment otherwise. A date beside a start that is a
/// moment ends its rule with the last second of that day; a moment beside a start that is a date ends it on its own day. So it
/// is for rules and for excluded rules, with a COUNT beside UNTIL too.
///
/// A series without such an UNTIL is given as it is, and takes no memory.
pub fn settle_ends(alloc: Global, series: Series) -> Result<Settled, NoMemory>
    requires { IsValidSeries series }
    ensures valid { IfOk result (λ settled. IsValidSeries settled.series) }
    ensures settled { IfOk result (λ settled. settled.series ≡ with_ends_of_kind series) }
    ensures until { IfOk result (λ settled. settled.until ≡ has_other_end series) }
{
    if has_other_end(&series) {
        Ok(Settled {
            series: with_ends_of_kind(alloc, series)?,
            until: true,
        })
    } else {
        Ok(Settled {
            series,
            until: false,
        })
    }
}

// Whether the UNTIL of some rule, or of some excluded one, is of another kind than the start.
fn has_other_end(series: &Series) -> bool
    ensures { result ≡ has_other_end series.now }
{
    any_other_end(series.kind, series.rules.as_slice())
        || any_other_end(series.kind, series.excluded.as_slice())
}

// Whether the UNTIL of some of the rules is of another kind.
fn any_other_end(kind: Kind, rules: &[Rule]) -> bool
    ensures { result ≡ any_other_end kind rules.now }
{
    rules.iter().any(|rule| is_other_end(kind, rule.end))
}

// Whether an end has an UNTIL of another kind.
fn is_other_end(kind: Kind, end: End) -> bool
    ensures { result ≡ is_other_end kind end }
{
    match end {
        End::Never | End::Count(_) => false,
        End::Until { kind: other, .. } => !kind.is_same(other),
        End::Both { kind: other, .. } => !kind.is_same(other),
    }
}

// The series with each UNTIL read as one of the kind of its start.
fn with_ends_of_kind(alloc: Global, mut series: Series) -> Result<Series, NoMemory>
    requires { IsValidSeries series }
    ensures { IfOk result (λ made. made ≡ with_ends_of_kind series) }
{
    series.rules = rules_of_kind(alloc, series.kind, series.rules.as_slice())?;
    series.excluded = rules_of_kind(alloc, series.kind, series.excluded.as_slice())?;
    Ok(series)
}

// The rules with each UNTIL read as one of this kind.
fn rules_of_kind(alloc: Global, kind: Kind, rules: &[Rule]) -> Result<Rules, NoMemory>
    requires { All (λ rule. EndsInYears rule.end) rules.now }
    ensures { IfOk result (λ made. made ≡ map (rule_of_kind kind) rules.now) }
{
    let mut made = Rules::new(alloc);
    for rule in rules {
        made.put(rule_of_kind(alloc, kind, rule)?)?;
    }
    Ok(made)
}

// The rule with its UNTIL read as one of this kind.
fn rule_of_kind(alloc: Global, kind: Kind, rule: &Rule) -> Result<Rule, NoMemory>
    requires { EndsInYears rule.now.end }
    ensures { IfOk result (λ made. made ≡ rule_of_kind kind rule.now) }
{
    let mut made = rule.copy(alloc)?;
    made.end = end_of_kind(kind, rule.end);
    Ok(made)
}

// The end with its UNTIL read as one of this kind.
fn end_of_kind(kind: Kind, end: End) -> End
    requires { EndsInYears end }
    ensures { result ≡ end_of_kind kind end }
{
    match end {
        End::Never | End::Count(_) => end,
        End::Until { kind: other, at } => End::Until {
            kind,
            at: until_of_kind(kind, other, at),
        },
        End::Both {
            kind: other,
            at,
            count,
        } => End::Both {
            kind,
            at: until_of_kind(kind, other, at),
            count,
        },
    }
}

// An UNTIL read as one of this kind: if its own is another, the last that there is of its day.
fn until_of_kind(kind: Kind, other: Kind, at: i64) -> i64
    requires { IsInYears other at }
    ensures { result ≡ until_of_kind kind other at }
{
    if kind.is_same(other) {
        at
    } else {
        moment_at(kind, day_part(other, at), LAST_SECOND)
    }
}
