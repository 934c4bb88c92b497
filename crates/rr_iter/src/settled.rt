// The settled day of a series.
ghost use Rattle.std.specs.Prelude.{◌≡◌, ◌∷◌, ◌++◌, [], ◌+ℤ◌, ◌≤ℤ◌, ◌<ℤ◌, ℤ, All, IfOk, OnOk, int_lt, pos};
ghost use Rattle.rr_model.specs.Bounds.{first_day_of_all};
ghost use Rattle.rr_iter.specs.Counts.{AreCounts, AreCountsOf};
ghost use Rattle.rr_iter.specs.Ends.{IsLastOfRules, IsSoundRule};
ghost use Rattle.rr_model.specs.Moment.{day_part};
ghost use Rattle.rr_model.specs.Answers.{RefusedExactlyWhere};
ghost use Rattle.rr_model.specs.Series.Limits.{CountSomeTooFar, IsCountedTooFar};
ghost use Rattle.rr_model.specs.Series.Settled.{IsSettledDay, LieBefore};
ghost use Rattle.rr_model.specs.declared.refusal.Refusal.TheVariants.{CountedTooFar};

use crate::counts::{Counts, CycleCount};
use crate::last_day::last_day;
use rr_check::Checked;
use rr_model::{Dates, Fault, Kind, NoMemory, Rule, day_part};
use std::alloc::Global;

/// Where a series is settled, and what was counted of its rules to find that.
#[derive(Drop)]
pub struct Settled {
    /// The settled day, in days since 1970-01-01.
    pub day: i64,
    /// What was counted of the rules with COUNT, so that nobody counts it again.
    pub counts: Counts,
}

// The last day of some rules, and what was counted of each.
#[derive(Drop)]
struct LastOfRules {
    day: i64,
    counts: Vec<Option<CycleCount>>,
}

/// The settled day of a series, in days since 1970-01-01: the day after the last of its start, its dates, added or
/// taken out, and the UNTIL, or if there is none the last member, of each rule that ends, excluded ones among them (RFC
/// 5545, section 3.8.5). From it on the series repeats with its cycle.
///
/// `CountedTooFar` comes exactly if a rule or an excluded rule with COUNT and no UNTIL has fewer members than it counts
/// up to `MAX_SPAN_DAYS` days after the start's day.
pub fn ends(alloc: Global, series: &Checked) -> Result<i64, Fault>
    ensures settled { IfOk result (IsSettledDay series.now) }
    ensures near { IfOk result (λ day. (first_day_of_all <ℤ day) × (day ≤ℤ pos 19_710_113)) }
    ensures refused { RefusedExactlyWhere (IsCountedTooFar series.now) CountedTooFar result }
{
    match settled_day_and_counts(alloc, series) {
        Ok(settled) => Ok(settled.day),
        Err(fault) => Err(fault),
    }
}

/// The settled day of a series, as `ends` gives it, and what was counted of its rules with COUNT to find it, so that no one has to
/// walk their cycles again. `CountedTooFar` as `ends` has it.
pub fn settled_day_and_counts(alloc: Global, series: &Checked) -> Result<Settled, Fault>
    ensures settled { IfOk result (λ settled. IsSettledDay series.now settled.day) }
    ensures near { IfOk result (λ settled.
        (first_day_of_all <ℤ settled.day) × (settled.day ≤ℤ pos 19_710_113)) }
    ensures counts { IfOk result (λ settled. AreCountsOf series.now settled.counts) }
    ensures refused { RefusedExactlyWhere (IsCountedTooFar series.now) CountedTooFar result }
{
    let given = series.series();
    let kind = given.kind;
    let with_plus = last_of(kind, &given.plus, day_part(kind, given.start));
    let with_dates = last_of(kind, &given.minus, with_plus);
    let rules = match last_of_rules(alloc, kind, given.start, given.rules.as_slice(), with_dates) {
        Ok(last) => last,
        Err(fault) => return Err(fault),
    };
    match last_of_rules(
        alloc,
        kind,
        given.start,
        given.excluded.as_slice(),
        rules.day,
    ) {
        Ok(excluded) => Ok(Settled {
            day: excluded.day + 1,
            counts: Counts {
                rules: rules.counts,
                excluded: excluded.counts,
            },
        }),
        Err(fault) => Err(fault),
    }
}

// The later of a day, which is not before the start's, and the last days of rules; and what was counted of each.
fn last_of_rules(
    alloc: Global,
    kind: Kind,
    start: i64,
    rules: &[Rule],
    day: i64,
) -> Result<LastOfRules, Fault>
    requires sound { All (IsSoundRule kind start) rules.now }
    requires low { first_day_of_all ≤ℤ day }
    requires late { day_part kind start ≤ℤ day }
    requires near { day ≤ℤ pos 19_710_112 }
    ensures last { IfOk result (λ last. IsLastOfRules kind start rules.now day last.day) }
    ensures near { IfOk result (λ last. last.day ≤ℤ pos 19_710_112) }
    ensures counts { IfOk result (λ last. AreCounts kind start rules.now last.counts.items) }
    ensures refused { RefusedExactlyWhere (CountSomeTooFar kind start rules.now)
        CountedTooFar result }
{
    let mut last = day;
    let mut counts = Vec::new(alloc);
    for rule in rules {
        match last_day(alloc, rule, kind, start) {
            Ok(own) => {
                last = last.max(own.day);
                put(&mut counts, own.counted)?;
            }
            Err(fault) => return Err(fault),
        }
    }
    Ok(LastOfRules { day: last, counts })
}

// Puts what was counted of a rule after what was counted of those before it.
fn put(counts: &mut Vec<Option<CycleCount>>, counted: Option<CycleCount>) -> Result<(), NoMemory>
    ensures { OnOk result (counts.new.items ≡ counts.old.items ++ counted ∷ []) }
{
    counts.push(counted)?;
    Ok(())
}

// The later of a day and the last day of dates.
fn last_of(kind: Kind, dates: &Dates, day: i64) -> i64
    ensures late { day ≤ℤ result }
    ensures past { LieBefore kind (result +ℤ pos 1) dates.now }
    ensures least { (settled : ℤ) → day <ℤ settled → LieBefore kind settled dates.now
        → result <ℤ settled }
{
    match dates.as_slice().last() {
        None => day,
        Some(date) => day.max(day_part(kind, *date)),
    }
}
