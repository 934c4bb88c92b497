// Tables of cases, one a line: what is given, a bar, and what is said of it.
ghost use Rattle.std.specs.Prelude.{◌≡◌, IfSome};
ghost use Rattle.rr_model.specs.Rule.Validity.{IsValidRule};
ghost use Rattle.rr_model.specs.Series.Validity.{IsValidSeries};

use rr_model::{Kind, Rule, Series};
use rr_rrule::read;
use std::alloc::Global;
use std::fmt::Debug;
use std::process::Abort;

// What `{:?}` prints of a value; none if memory is lacking.
pub(crate) fn printed<T: Debug>(alloc: Global, value: &T) -> Option<String> {
    format!(in alloc; "{value:?}").ok()
}

// What is said is what is wanted; nothing is said if a case is not understood or memory is lacking.
pub(crate) fn is_said(rt: &impl Abort, said: Option<String>, wanted: &str, of: &str) {
    let said = match &said {
        Some(said) => said.as_str(),
        None => "nothing is said",
    };
    assert!(rt; said == wanted, "{of}: {said}");
}

// Asserts that what is said of `GIVEN` in a row `GIVEN|SAID` is `SAID`. `~` stands for each line break of what is
// given.
fn row_holds(rt: &impl Abort, alloc: Global, say: fn(Global, &str) -> Option<String>, row: &str)
    requires { IsAlwaysCallable say }
{
    let (given, wanted) = row.split_once('|').unwrap_or((row, ""));
    let Ok(given) = given.replace(alloc, "~", "\n") else {
        panic!(rt; "out of memory");
    };
    is_said(rt, say(alloc, given.as_str()), wanted, row);
}

// Each row of a table holds.
pub(crate) fn rows_hold(
    rt: &impl Abort,
    alloc: Global,
    say: fn(Global, &str) -> Option<String>,
    table: &str,
)
    requires { IsAlwaysCallable say }
{
    for row in table.lines() {
        row_holds(rt, alloc, say, row);
    }
}

// The three words of a case.
pub(crate) fn three_words(given: &str) -> Option<(&str, &str, &str)> {
    let (first, rest) = given.split_once(' ')?;
    let (second, third) = rest.split_once(' ')?;
    Some((first, second, third))
}

// The kind that a word names, and the number after it.
pub(crate) fn kind_and_number(given: &str) -> Option<(Kind, i64)> {
    let (word, number) = given.split_once(' ')?;
    let number = number.parse::<i64>().ok()?;
    match word {
        "Days" => Some((Kind::Days, number)),
        "Moments" => Some((Kind::Moments, number)),
        _ => None,
    }
}

// The series of a rule from a start on, as a calendar text states both.
pub(crate) fn series_of(alloc: Global, start: &str, rule: &str) -> Option<Series>
    ensures { IfSome result IsValidSeries }
{
    let text = format!(in alloc; "DTSTART:{start}\nRRULE:{rule}\n").ok()?;
    read(alloc, text.as_bytes(), None).ok()
}

// The only rule of a series.
pub(crate) fn only_rule(series: &Series) -> Option<&Rule>
    requires { IsValidSeries series.now }
    ensures { IfSome result (λ rule. IsValidRule series.now.kind rule.now) }
{
    match series.rules.as_slice() {
        [rule] => Some(rule),
        _ => None,
    }
}

// What is said of the only rule of a text, from a start on.
pub(crate) fn rule_said(
    alloc: Global,
    start: &str,
    rule: &str,
    say: fn(Global, &Rule) -> Option<String>,
) -> Option<String>
    requires { IsAlwaysCallable say }
{
    let series = series_of(alloc, start, rule)?;
    say(alloc, only_rule(&series)?)
}
