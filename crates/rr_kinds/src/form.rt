// Which series have days that the kind of each year tells.
ghost use Rattle.std.specs.Prelude.{◌≡◌, ◌⊎◌, ◌↔◌, IsTrue};
ghost use Rattle.rr_kinds.specs.Form.{ChoosesByKind, GoesByKinds, HasOneRuleAlone, HasOwnTime, LeavesNoUnitOut};
ghost use Rattle.rr_model.specs.declared.rule.End.TheVariants.{Never};
ghost use Rattle.rr_model.specs.declared.rule.Freq.TheVariants.{Monthly, Yearly};

use rr_check::Checked;
use rr_model::{End, Freq, Rule, Series};

/// Whether a series is one endless rule of each month or each year and nothing beside it, each of whose days is chosen by the kind of
/// its year: the interval is 1, BYWEEKNO and BYSETPOS are absent, and the time of day is that of the start. Rules of days and weeks
/// are left out, since most repeat after one day or one week.
pub fn goes_by_kinds(series: &Checked) -> bool
    ensures { IsTrue result ↔ GoesByKinds series.now }
{
    let given = series.series();
    has_one_rule_alone(given) && chooses_by_kind(&given.rules.as_slice()[0])
}

// Whether a series has one rule, and neither excluded rules nor dates.
fn has_one_rule_alone(series: &Series) -> bool
    ensures { IsTrue result ↔ HasOneRuleAlone series.now }
{
    series.rules.len() == 1
        && series.excluded.is_empty()
        && series.plus.is_empty()
        && series.minus.is_empty()
}

// Whether the kind of a year tells which of its days a rule chooses.
fn chooses_by_kind(rule: &Rule) -> bool
    ensures { IsTrue result ↔ ChoosesByKind rule.now }
{
    is_endless(rule.end) && leaves_no_unit_out(rule) && has_own_time(rule)
}

// Whether an end is none.
fn is_endless(end: End) -> bool
    ensures { IsTrue result ↔ (end ≡ Never) }
{
    match end {
        End::Never => true,
        _ => false,
    }
}

// Whether a rule is of each month or each year, and its weeks and positions are not numbered.
fn leaves_no_unit_out(rule: &Rule) -> bool
    ensures { IsTrue result ↔ LeavesNoUnitOut rule.now }
{
    is_of_months_or_years(rule.freq)
        && rule.interval == 1
        && rule.by_week_no.is_empty()
        && rule.by_set_pos.is_empty()
}

// Whether the units of a frequency are months or years.
fn is_of_months_or_years(freq: Freq) -> bool
    ensures { IsTrue result ↔ ((freq ≡ Monthly) ⊎ (freq ≡ Yearly)) }
{
    match freq {
        Freq::Monthly | Freq::Yearly => true,
        _ => false,
    }
}

// Whether the time of day of a rule is that of its start.
fn has_own_time(rule: &Rule) -> bool
    ensures { IsTrue result ↔ HasOwnTime rule.now }
{
    rule.by_hour.is_empty() && rule.by_minute.is_empty() && rule.by_second.is_empty()
}
