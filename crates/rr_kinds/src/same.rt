// Whether two rules allow the same days, part by part.
ghost use Rattle.std.specs.Prelude.{◌≡◌, IsTrue};
ghost use Rattle.rr_kinds.specs.Form.{HaveSameParts};

use rr_model::{DayItem, DayItems, Numbers, Rule};

/// Whether two rules have the same frequency and the same date parts but for BYWEEKNO. Rules that allow the same days by other parts
/// are not found.
pub(crate) fn have_same_parts(a: &Rule, b: &Rule) -> bool
    ensures { IsTrue result → HaveSameParts a.now b.now }
{
    a.freq == b.freq
        && are_same_numbers(&a.by_month, &b.by_month)
        && are_same_numbers(&a.by_year_day, &b.by_year_day)
        && are_same_numbers(&a.by_month_day, &b.by_month_day)
        && are_same_day_items(&a.by_day, &b.by_day)
}

fn are_same_numbers(a: &Numbers, b: &Numbers) -> bool
    ensures { IsTrue result → a.now ≡ b.now }
{
    a.as_slice() == b.as_slice()
}

fn are_same_day_items(a: &DayItems, b: &DayItems) -> bool
    ensures { IsTrue result → a.now ≡ b.now }
{
    are_same_items(a.as_slice(), b.as_slice())
}

// Whether two lists of values of BYDAY are the same.
fn are_same_items(a: &[DayItem], b: &[DayItem]) -> bool
    ensures { IsTrue result → a.now ≡ b.now }
{
    if a.len() != b.len() {
        return false;
    }
    for i in 0..a.len() {
        if a[i] != b[i] {
            return false;
        }
    }
    true
}
