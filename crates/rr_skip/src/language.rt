// How the lines of an event whose rule has RSCALE state rules.
ghost use Rattle.rr_model.specs.Answers.{Answers};
ghost use Rattle.rr_model.specs.Moment.Years.{IsInYears};
ghost use Rattle.rr_skip.specs.Reading.{skip_rule_beside};

use crate::SkipRule;
use crate::stated::{skip_rule_beside, stated_skip};
use rr_ical::{RuleLanguage, Setting, StatedRule};
use rr_model::Fault;
use std::alloc::Global;

/// How rules with RSCALE are read.
pub(crate) struct SkipLanguage;

impl RuleLanguage<SkipRule> for SkipLanguage {
    ghost use Rattle.rr_skip.specs.Reading.{skip_language, skip_rule_beside};

    ghost language = { skip_language };

    ghost beside = { skip_rule_beside };

    fn takes_semicolons(&self) -> bool {
        false
    }

    fn stated(&self, alloc: Global, line: u64, text: &[u8]) -> Result<StatedRule<SkipRule>, Fault> {
        stated_skip(alloc, line, text)
    }

    fn rule_beside(
        &self,
        _alloc: Global,
        setting: Setting,
        line: u64,
        stated: StatedRule<SkipRule>,
    ) -> Result<SkipRule, Fault>
        requires { IsInYears setting.start.kind setting.start.at }
        ensures { Answers (skip_rule_beside setting.offset setting.start line stated) result }
    {
        Ok(skip_rule_beside(setting, line, stated)?)
    }
}
