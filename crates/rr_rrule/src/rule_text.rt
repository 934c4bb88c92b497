// A recurrence rule as it is written (RFC 5545, section 3.3.10).
ghost use Rattle.std.specs.Prelude.{OnOk};
ghost use Rattle.rr_model.specs.Rule.Validity.{EndsInYears};
ghost use Rattle.rr_model.specs.Text.WriteLaws.{IsOneEnd};
ghost use Rattle.rr_model.specs.Text.Written.{rule_text};
ghost use Rattle.rr_rrule.specs.RuleTexts.{repetition_text, date_parts_text, time_parts_text};
ghost use Rattle.rr_text.specs.Appending.{Appends};

use crate::part_text::{
    freq_text, push_day_part, push_end, push_interval, push_number_part, push_week_start,
};
use rr_model::{NoMemory, Rule};

// FREQ, UNTIL or COUNT, INTERVAL and WKST.
fn push_repetition(line: &mut Vec<u8>, rule: &Rule) -> Result<(), NoMemory>
    requires years { EndsInYears rule.now.end }
    requires one { IsOneEnd rule.now.end }
    ensures { OnOk result (Appends line.old line.new (repetition_text rule.now)) }
{
    line.extend_from_slice(b"FREQ=")?;
    line.extend_from_slice(freq_text(rule.freq))?;
    push_end(line, rule.end)?;
    push_interval(line, rule.interval)?;
    push_week_start(line, rule.week_start)
}

// BYMONTH, BYWEEKNO, BYYEARDAY, BYMONTHDAY and BYDAY.
fn push_date_parts(line: &mut Vec<u8>, rule: &Rule) -> Result<(), NoMemory>
    ensures { OnOk result (Appends line.old line.new (date_parts_text rule.now)) }
{
    push_number_part(line, b"BYMONTH", rule.by_month.as_slice())?;
    push_number_part(line, b"BYWEEKNO", rule.by_week_no.as_slice())?;
    push_number_part(line, b"BYYEARDAY", rule.by_year_day.as_slice())?;
    push_number_part(line, b"BYMONTHDAY", rule.by_month_day.as_slice())?;
    push_day_part(line, rule.by_day.as_slice())
}

// BYHOUR, BYMINUTE, BYSECOND and BYSETPOS.
fn push_time_parts(line: &mut Vec<u8>, rule: &Rule) -> Result<(), NoMemory>
    ensures { OnOk result (Appends line.old line.new (time_parts_text rule.now)) }
{
    push_number_part(line, b"BYHOUR", rule.by_hour.as_slice())?;
    push_number_part(line, b"BYMINUTE", rule.by_minute.as_slice())?;
    push_number_part(line, b"BYSECOND", rule.by_second.as_slice())?;
    push_number_part(line, b"BYSETPOS", rule.by_set_pos.as_slice())
}

// All parts, in the order in which they are written.
pub(crate) fn push_rule(line: &mut Vec<u8>, rule: &Rule) -> Result<(), NoMemory>
    requires years { EndsInYears rule.now.end }
    requires one { IsOneEnd rule.now.end }
    ensures { OnOk result (Appends line.old line.new (rule_text rule.now)) }
{
    push_repetition(line, rule)?;
    push_date_parts(line, rule)?;
    push_time_parts(line, rule)
}
