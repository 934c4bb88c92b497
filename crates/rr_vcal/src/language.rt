// How the lines of a vCalendar 1.0 event state rules and dates.
ghost use Rattle.rr_model.specs.Answers.{Answers};
ghost use Rattle.rr_model.specs.Moment.Years.{IsInYears};
ghost use Rattle.rr_model.specs.Vcal.Reading.{vrule_beside};

use crate::beside::vrule_beside;
use crate::rule::stated_vrule;
use rr_ical::{RuleLanguage, Setting, StatedRule};
use rr_model::{Fault, VRule};
use std::alloc::Global;

/// How rules of vCalendar 1.0 are read.
pub(crate) struct VcalLanguage;

impl RuleLanguage<VRule> for VcalLanguage {
    ghost use Rattle.rr_model.specs.Vcal.Reading.{vcal_language, vrule_beside};

    ghost language = { vcal_language };

    ghost beside = { vrule_beside };

    fn takes_semicolons(&self) -> bool {
        true
    }

    fn stated(&self, alloc: Global, line: u64, text: &[u8]) -> Result<StatedRule<VRule>, Fault> {
        stated_vrule(alloc, line, text)
    }

    fn rule_beside(
        &self,
        alloc: Global,
        setting: Setting,
        line: u64,
        stated: StatedRule<VRule>,
    ) -> Result<VRule, Fault>
        requires { IsInYears setting.start.kind setting.start.at }
        ensures { Answers (vrule_beside setting.offset setting.start line stated) result }
    {
        vrule_beside(alloc, setting, line, stated)
    }
}
