// Which parts a rule takes from its start (RFC 5545, section 3.3.10, on DTSTART).
ghost use Rattle.std.specs.Prelude.{◌≡◌};
ghost use Rattle.rr_model.specs.Rule.Filled.{wants_day, wants_hour, wants_minute, wants_month, wants_month_day, wants_second};

use rr_model::{Freq, Rule};

/// Whether a rule without the part takes its hour from the start (RFC 5545, section 3.3.10): a day or a longer unit holds many hours.
pub fn wants_hour(freq: Freq) -> bool
    ensures { result ≡ wants_hour freq }
{
    match freq {
        Freq::Secondly | Freq::Minutely | Freq::Hourly => false,
        Freq::Daily | Freq::Weekly | Freq::Monthly | Freq::Yearly => true,
    }
}

/// Whether a rule without the part takes its minute from the start (RFC 5545, section 3.3.10): an hour or a longer unit holds many minutes.
pub fn wants_minute(freq: Freq) -> bool
    ensures { result ≡ wants_minute freq }
{
    match freq {
        Freq::Secondly | Freq::Minutely => false,
        _ => true,
    }
}

/// Whether a rule without the part takes its second from the start (RFC 5545, section 3.3.10): a minute or a longer unit holds many seconds.
pub fn wants_second(freq: Freq) -> bool
    ensures { result ≡ wants_second freq }
{
    match freq {
        Freq::Secondly => false,
        _ => true,
    }
}

// A week, or a week of a year by BYWEEKNO alone.
pub(crate) fn wants_day(rule: &Rule) -> bool
    ensures { result ≡ wants_day rule.now.freq rule.now }
{
    match rule.freq {
        Freq::Weekly => true,
        Freq::Yearly => {
            !rule.by_week_no.is_empty()
                && rule.by_year_day.is_empty()
                && rule.by_month_day.is_empty()
        }
        _ => false,
    }
}

/// Whether a rule without BYMONTHDAY takes it from the start (RFC 5545, section 3.3.10): it counts months or years, and no
/// other part names the day.
pub fn wants_month_day(rule: &Rule) -> bool
    ensures { result ≡ wants_month_day rule.now.freq rule.now }
{
    match rule.freq {
        Freq::Monthly => rule.by_day.is_empty(),
        Freq::Yearly => {
            rule.by_week_no.is_empty() && rule.by_year_day.is_empty() && rule.by_day.is_empty()
        }
        _ => false,
    }
}

/// Whether a rule without BYMONTH takes it from the start (RFC 5545, section 3.3.10): it counts years, and no part names the day.
pub fn wants_month(rule: &Rule) -> bool
    ensures { result ≡ wants_month rule.now.freq rule.now }
{
    match rule.freq {
        Freq::Yearly => {
            rule.by_week_no.is_empty()
                && rule.by_year_day.is_empty()
                && rule.by_month_day.is_empty()
                && rule.by_day.is_empty()
        }
        _ => false,
    }
}
