// A series in words.
ghost use Rattle.std.specs.Prelude.{◌≡◌, ◌&&◌, ◌∷◌, ◌++◌, All, OnOk, length};
ghost use Rattle.std.specs.List.{list_all};
ghost use Rattle.rr_model.specs.Moment.Years.{IsInYears};
ghost use Rattle.rr_model.specs.Rule.Validity.{EndsInYears};
ghost use Rattle.rr_model.specs.Series.Validity.{IsValidSeries};
ghost use Rattle.rr_wording.specs.Rules.{says_time};
ghost use Rattle.rr_wording.specs.Words.{base_words, dates_words, each_rule, excluded_words, from_words, further_words, is_nothing, left_out_words, only_words, rules_words, series_words, several_words, whole_rule};

use crate::dates::{day_of, push_date, push_moment_in_years};
use crate::end::push_end;
use crate::numbers::{push, push_counted};
use crate::rule::{push_rule, says_time};
use rr_model::{Kind, NoMemory, Rule, Series};

// Appends a rule and its end.
#[tactic(auto, unfolding(crate::specs::Words::whole_rule))]
fn push_whole_rule(out: &mut Vec<u8>, kind: Kind, start: i64, rule: &Rule) -> Result<(), NoMemory>
    requires start { IsInYears kind start }
    requires end { EndsInYears rule.now.end }
    ensures { OnOk result (out.new.items ≡ out.old.items ++ whole_rule kind start rule.now) }
{
    push_rule(out, rule, kind, start)?;
    push_end(out, rule.end)
}

// Appends rules, each behind a text.
fn push_each_rule(
    out: &mut Vec<u8>,
    lead: &[u8],
    kind: Kind,
    start: i64,
    rules: &[Rule],
) -> Result<(), NoMemory>
    requires start { IsInYears kind start }
    requires ends { All (λ rule. EndsInYears rule.end) rules.now }
    ensures { OnOk result (out.new.items
        ≡ out.old.items ++ each_rule lead.now kind start rules.now) }
{
    for rule in rules {
        push(out, lead)?;
        push_whole_rule(out, kind, start, rule)?;
    }
    Ok(())
}

// Appends where rules begin: with its time, unless that was said.
#[tactic(auto, unfolding(crate::specs::Words::from_words))]
fn push_from(out: &mut Vec<u8>, is_said: bool, kind: Kind, start: i64) -> Result<(), NoMemory>
    requires { IsInYears kind start }
    ensures { OnOk result (out.new.items ≡ out.old.items ++ from_words is_said kind start) }
{
    push(out, b" from ")?;
    if is_said {
        return push_date(out, day_of(kind, start));
    }
    push_moment_in_years(out, kind, start)
}

// Whether each rule is said with the start's time.
fn all_say_time(rules: &[Rule]) -> bool
    ensures { result ≡ list_all says_time rules.now }
{
    rules.iter().all(|rule| says_time(rule))
}

// Appends several rules, which begin together.
#[tactic(auto, unfolding(crate::specs::Words::several_words))]
fn push_several(
    out: &mut Vec<u8>,
    kind: Kind,
    start: i64,
    first: &Rule,
    others: &[Rule],
) -> Result<(), NoMemory>
    requires start { IsInYears kind start }
    requires end { EndsInYears first.now.end }
    requires ends { All (λ rule. EndsInYears rule.end) others.now }
    ensures { OnOk result (out.new.items
        ≡ out.old.items ++ several_words kind start first.now others.now) }
{
    push_whole_rule(out, kind, start, first)?;
    push_each_rule(out, b"; and ", kind, start, others)?;
    push(out, b"; each")?;
    push_from(out, says_time(first) && all_say_time(others), kind, start)
}

// Appends a rule that stands alone: what repeats, from when on and until when.
#[tactic(auto, unfolding(crate::specs::Words::only_words))]
fn push_only(out: &mut Vec<u8>, kind: Kind, start: i64, rule: &Rule) -> Result<(), NoMemory>
    requires start { IsInYears kind start }
    requires end { EndsInYears rule.now.end }
    ensures { OnOk result (out.new.items ≡ out.old.items ++ only_words kind start rule.now) }
{
    push_rule(out, rule, kind, start)?;
    push(out, b",")?;
    push_from(out, says_time(rule), kind, start)?;
    push_end(out, rule.end)
}

// Appends one rule, or several.
#[tactic(auto, unfolding(crate::specs::Words::rules_words))]
fn push_rules(
    out: &mut Vec<u8>,
    kind: Kind,
    start: i64,
    first: &Rule,
    others: &[Rule],
) -> Result<(), NoMemory>
    requires start { IsInYears kind start }
    requires end { EndsInYears first.now.end }
    requires ends { All (λ rule. EndsInYears rule.end) others.now }
    ensures { OnOk result (out.new.items
        ≡ out.old.items ++ rules_words kind start first.now others.now) }
{
    if others.is_empty() {
        return push_only(out, kind, start, first);
    }
    push_several(out, kind, start, first, others)
}

// Appends how many dates stand beside the start or the rules.
#[tactic(auto, unfolding(crate::specs::Words::further_words))]
fn push_further(out: &mut Vec<u8>, count: usize) -> Result<(), NoMemory>
    ensures { OnOk result (out.new.items ≡ out.old.items ++ further_words count) }
{
    if count == 0 {
        return Ok(());
    }
    push(out, b", and on ")?;
    push_counted(out, count as u64, b"further date")
}

// Appends a series without rules: its start and its further dates; if the start does not count, its dates alone.
#[tactic(auto, unfolding(crate::specs::Words::dates_words))]
fn push_dates(out: &mut Vec<u8>, series: &Series) -> Result<(), NoMemory>
    requires { IsInYears series.now.kind series.now.start }
    ensures { OnOk result (out.new.items
        ≡ out.old.items ++ dates_words series.now.kind series.now.start series.now.start_counts (length series.now.plus)) }
{
    if !series.start_counts {
        push(out, b"on ")?;
        return push_counted(out, series.plus.len() as u64, b"date");
    }
    push(out, b"once, on ")?;
    push_moment_in_years(out, series.kind, series.start)?;
    push_further(out, series.plus.len())
}

// Appends what a series has, before anything is left out.
#[tactic(auto, unfolding(crate::specs::Words::base_words, crate::specs::Words::with_rules))]
fn push_base(out: &mut Vec<u8>, series: &Series) -> Result<(), NoMemory>
    requires { IsValidSeries series.now }
    ensures { OnOk result (out.new.items ≡ out.old.items ++ base_words series.now) }
{
    let Some((first, others)) = series.rules.as_slice().split_first() else {
        return push_dates(out, series);
    };
    push_rules(out, series.kind, series.start, first, others)?;
    push_further(out, series.plus.len())
}

// Appends the rules whose members are left out.
#[tactic(auto, unfolding(crate::specs::Words::excluded_words))]
fn push_excluded(out: &mut Vec<u8>, kind: Kind, start: i64, rules: &[Rule]) -> Result<(), NoMemory>
    requires start { IsInYears kind start }
    requires ends { All (λ rule. EndsInYears rule.end) rules.now }
    ensures { OnOk result (out.new.items ≡ out.old.items ++ excluded_words kind start rules.now) }
{
    let Some((first, others)) = rules.split_first() else {
        return Ok(());
    };
    push(out, b"; but not ")?;
    push_whole_rule(out, kind, start, first)?;
    push_each_rule(out, b"; and not ", kind, start, others)
}

// Appends how many dates are left out, behind the rules that are.
#[tactic(auto, unfolding(crate::specs::Words::left_out_words))]
fn push_left_out(out: &mut Vec<u8>, after_rules: bool, count: usize) -> Result<(), NoMemory>
    ensures { OnOk result (out.new.items ≡ out.old.items ++ left_out_words after_rules count) }
{
    if count == 0 {
        return Ok(());
    }
    let lead: &[u8] = if after_rules {
        b"; and not on "
    } else {
        b", but not on "
    };
    push(out, lead)?;
    push_counted(out, count as u64, b"date")
}

// Whether nothing occurs: there is no rule, no start that counts and no further date.
#[tactic(auto, unfolding(crate::specs::Words::is_nothing))]
fn is_nothing(series: &Series) -> bool
    ensures { result ≡ is_nothing series.now }
{
    series.rules.is_empty() && !series.start_counts && series.plus.is_empty()
}

/// Appends what a series says, in words: each of its rules, when it starts and ends, and how many dates stand beside them.
///
/// The parts of a rule (RFC 5545, section 3.3.10) are said in this order: FREQ and INTERVAL, BYMONTH, BYWEEKNO, BYYEARDAY, BYMONTHDAY,
/// BYDAY, the times, BYSETPOS, and WKST if it matters. Values that count from the back stand behind the others. A rule in which no part
/// names a day is said with the day of the start, and a rule of days or longer in which no part names a time with the time of the start.
/// Further dates are counted; excluded rules (RFC 2445, section 4.8.5.2) and the number of dates that are left out come last. Times are
/// the local ones of the series, in 24 hours. A series without a rule, a start that counts and a further date is `nothing`.
/// `NoMemory` comes if memory runs out; some of the words may then stand in `out`.
#[tactic(auto, unfolding(crate::specs::Words::series_words))]
pub fn push_series(out: &mut Vec<u8>, series: &Series) -> Result<(), NoMemory>
    requires { IsValidSeries series.now }
    ensures { OnOk result (out.new.items ≡ out.old.items ++ series_words series.now) }
{
    if is_nothing(series) {
        return push(out, b"nothing");
    }
    push_base(out, series)?;
    push_excluded(out, series.kind, series.start, series.excluded.as_slice())?;
    push_left_out(out, !series.excluded.is_empty(), series.minus.len())
}
