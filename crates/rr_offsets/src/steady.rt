// Whether the rules of a zone go on each year.
ghost use Rattle.std.specs.Prelude.{◌≡◌};
ghost use Rattle.std.specs.List.{list_all};
ghost use Rattle.rr_offsets.specs.Steady.{is_early, is_steady, is_steady_end, is_steady_observance, is_steady_rule};

use rr_model::{End, Freq, Rule};
use rr_zone::Observance;

// 3000-01-01T00:00:00, in seconds since 1970-01-01T00:00:00.
const YEAR_3000: i64 = 32_503_680_000;

// Whether a moment lies before the year 3000.
fn is_early(at: i64) -> bool
    ensures { result ≡ is_early at }
{
    at < YEAR_3000
}

// Whether all of some moments do.
fn are_early(dates: &[i64]) -> bool
    ensures { result ≡ list_all is_early dates.now }
{
    for date in dates {
        if !is_early(*date) {
            return false;
        }
    }
    true
}

// Whether a rule ends never, or at a moment before the year 3000.
fn is_steady_end(end: End) -> bool
    ensures { result ≡ is_steady_end end }
{
    match end {
        End::Never => true,
        End::Until { at, .. } => is_early(at),
        End::Count(_) => false,
        End::Both { .. } => false,
    }
}

// Whether a rule has its turn each year, up to its end.
fn is_steady_rule(rule: &Rule) -> bool
    ensures { result ≡ is_steady_rule rule.now }
{
    matches!(rule.freq, Freq::Yearly) && rule.interval == 1 && is_steady_end(rule.end)
}

// Whether all of some rules do.
fn are_steady_rules(rules: &[Rule]) -> bool
    ensures { result ≡ list_all is_steady_rule rules.now }
{
    for rule in rules {
        if !is_steady_rule(rule) {
            return false;
        }
    }
    true
}

// Whether all that an observance states lies before the year 3000, but for rules that go on each year.
fn is_steady_observance(observance: &Observance) -> bool
    ensures { result ≡ is_steady_observance observance.now }
{
    is_early(observance.series.start)
        && are_early(observance.series.plus.as_slice())
        && are_steady_rules(observance.series.rules.as_slice())
}

/// Whether all that a zone states lies before the year 3000, but for rules that go on each year.
pub(crate) fn is_steady(zone: &[Observance]) -> bool
    ensures { result ≡ is_steady zone.now }
{
    for observance in zone {
        if !is_steady_observance(observance) {
            return false;
        }
    }
    true
}
