// Why a series is refused: the first reason, rule by rule, and then excluded rule by excluded rule.
ghost use Rattle.std.specs.Prelude.{◌≡◌, ◌≤◌, All, length};
ghost use Rattle.rr_model.specs.Moment.Years.{IsInYears};
ghost use Rattle.rr_model.specs.Rule.Validity.{IsValidRule};
ghost use Rattle.rr_model.specs.Series.Validity.{IsValidSeries};
ghost use Rattle.rr_model.specs.Series.Soundness.{choice_refusal, end_refusal, ends_refusal, first_refusal, rule_refusal, rules_refusal, until_refusal};

use rr_model::{End, Kind, Refusal, Rule, Series};
use rr_setpos::chosen;

// The first refusal of a series: that of a rule, or, if its rules are sound, that of an excluded rule.
pub(crate) fn first_refusal(series: &Series) -> Option<Refusal>
    requires valid { IsValidSeries series.now }
    ensures { result ≡ first_refusal series.now }
{
    match rules_refusal(series.kind, series.start, series.rules.as_slice()) {
        None => ends_refusal(series.kind, series.start, series.excluded.as_slice()),
        of_a_rule => of_a_rule,
    }
}

// The first refusal of rules, which are numbered from 1.
fn rules_refusal(kind: Kind, start: i64, rules: &[Rule]) -> Option<Refusal>
    requires valid { All (IsValidRule kind) rules.now }
    requires few { length rules.now ≤ 16 }
    requires start { IsInYears kind start }
    ensures { result ≡ rules_refusal 1 kind start rules.now }
{
    let mut number = 1;
    for rule in rules {
        let refusal = rule_refusal(number, kind, start, rule);
        if refusal.is_some() {
            return refusal;
        }
        number += 1;
    }
    None
}

// The first refusal of excluded rules, which need not choose the start.
fn ends_refusal(kind: Kind, start: i64, rules: &[Rule]) -> Option<Refusal>
    ensures { result ≡ ends_refusal kind start rules.now }
{
    for rule in rules {
        let refusal = end_refusal(kind, start, rule.end);
        if refusal.is_some() {
            return refusal;
        }
    }
    None
}

// The refusal of the rule of this number; whether it chooses its start is asked if its end is sound.
fn rule_refusal(number: u32, kind: Kind, start: i64, rule: &Rule) -> Option<Refusal>
    requires valid { IsValidRule kind rule.now }
    requires start { IsInYears kind start }
    ensures { result ≡ rule_refusal number kind start rule.now }
{
    match end_refusal(kind, start, rule.end) {
        None => choice_refusal(number, kind, start, rule),
        refusal => refusal,
    }
}

/// The refusal of the end of a rule beside a start, which is in days or seconds since 1970-01-01: `UntilKind` if its
/// UNTIL is of another kind than the start, otherwise `UntilBeforeStart` if it is earlier; `None` if neither is so.
pub fn end_refusal(kind: Kind, start: i64, end: End) -> Option<Refusal>
    ensures { result ≡ end_refusal kind start end }
{
    match end {
        End::Never | End::Count(_) => None,
        End::Until { kind: other, at } => until_refusal(kind, start, other, at),
        End::Both {
            kind: other,
            at,
            ..
        } => until_refusal(kind, start, other, at),
    }
}

// The refusal of an UNTIL beside a start.
fn until_refusal(kind: Kind, start: i64, other: Kind, at: i64) -> Option<Refusal>
    ensures { result ≡ until_refusal kind start other at }
{
    if !kind.is_same(other) {
        return Some(Refusal::UntilKind);
    }
    if at < start {
        Some(Refusal::UntilBeforeStart)
    } else {
        None
    }
}

// The refusal of a rule that does not choose its start.
fn choice_refusal(number: u32, kind: Kind, start: i64, rule: &Rule) -> Option<Refusal>
    requires valid { IsValidRule kind rule.now }
    requires start { IsInYears kind start }
    ensures { result ≡ choice_refusal number kind start rule.now }
{
    if chosen(rule, kind, start, start) {
        None
    } else {
        Some(Refusal::NotSynchronised(number))
    }
}
