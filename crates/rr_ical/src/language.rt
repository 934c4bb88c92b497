// A language of rules, as the passes over an event's lines ask it (RFC 5545, section 3.8).
ghost use Rattle.std.specs.Prelude.{◌≡◌, ℕ, ℤ, Option, Result, IfOk};
ghost use Rattle.rr_model.specs.Answers.{Answers};
ghost use Rattle.rr_model.specs.Moment.Years.{IsInYears};
ghost use Rattle.rr_model.specs.Text.Passes.{Language, Stated};
ghost use Rattle.rr_model.specs.declared.refusal.Refusal.{Refusal};
ghost use Rattle.rr_model.specs.declared.stamp.Stamp.{Stamp};
ghost use Rattle.rr_ical.specs.Kept.{is_date_separator};

use crate::lines_beside::Setting;
use rr_model::{Fault, NoMemory, Stamp};
use std::alloc::Global;
use std::marker::Model;

/// A rule as its line states it. Contracts see its rule and its UNTIL.
#[derive(Drop)]
pub struct StatedRule<R> {
    rule: Box<R>,
    until: Option<Stamp>,
}

impl<R> Model for StatedRule<R> {
    ghost use Rattle.rr_model.specs.Text.Passes.{Stated};

    ghost Value = { Stated R };

    ghost view = { λ s. record { rule = s.rule.value; until = s.until } };
}

impl<R: Drop> StatedRule<R> {
    /// A rule, and its UNTIL, which is its end too.
    pub fn new(alloc: Global, rule: R, until: Option<Stamp>) -> Result<Self, NoMemory>
        ensures { IfOk result (λ stated. stated ≡ record { rule = rule; until = until }) }
    {
        let rule = Box::new(alloc, rule)?;
        Ok(StatedRule { rule, until })
    }

    /// UNTIL as its text states it, or `None` for a rule without UNTIL.
    pub fn until(&self) -> Option<Stamp>
        ensures { result ≡ self.now.until }
    {
        self.until
    }

    /// The rule, with its end as the text states it.
    pub fn into_rule(self) -> R
        ensures { result ≡ self.rule }
    {
        Box::into_inner(self.rule)
    }
}

/// A language of rules: what stands between its dates, how a line states a rule, and what that becomes beside a start.
pub trait RuleLanguage<R: Drop> {
    /// How its rules are read, and between which bytes its dates stand.
    ghost language: { Language R };

    /// A rule beside a start, for a stated offset of local time from UTC.
    ghost beside: { Option ℤ → Stamp → ℕ → Stated R → Result R Refusal };

    /// Whether its dates stand between semicolons too, not between commas alone.
    fn takes_semicolons(&self) -> bool
        ensures { is_date_separator result ≡ language.is_separator };

    /// The rule that the value of a line states.
    fn stated(&self, alloc: Global, line: u64, text: &[u8]) -> Result<StatedRule<R>, Fault>
        ensures { Answers (language.stated line text.now) result };

    /// The rule beside the start.
    fn rule_beside(
        &self,
        alloc: Global,
        setting: Setting,
        line: u64,
        stated: StatedRule<R>,
    ) -> Result<R, Fault>
        requires { IsInYears setting.start.kind setting.start.at }
        ensures { Answers (beside setting.offset setting.start line stated) result };
}
