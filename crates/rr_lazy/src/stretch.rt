// The dates of one day in a rising list.
ghost use Rattle.std.specs.Prelude.{◌≡◌, ◌≤ℤ◌, ℕ, IfOk, IsTrue, false, int_lt, nat_lt};
ghost use Rattle.rr_model.specs.Bounds.{latest_day};
ghost use Rattle.rr_model.specs.Rising.{Rises};
ghost use Rattle.rr_model.specs.Rising.Sets.{IsSetOf};
ghost use Rattle.rr_lazy.specs.Stretch.{IsFirstDate, IsFirstFrom, LosesDates};
ghost use Rattle.rr_model.specs.Sets.Tree.{is_among};

use rr_model::{Kind, NoMemory, day_part, second_part};
use rr_times::TimeSet;
use std::alloc::Global;

// The index of the first date that is not before a day.
pub(crate) fn first_from(kind: Kind, dates: &[i64], day: i64) -> usize
    requires { Rises int_lt dates.now }
    ensures { IsFirstFrom kind dates.now day result }
{
    dates.partition_point(|date| day_part(kind, *date) < day)
}

// The first day with a date, from `from` up to `to`, both included.
pub(crate) fn first_date(kind: Kind, dates: &[i64], from: i64, to: i64) -> Option<i64>
    requires { Rises int_lt dates.now }
    ensures { IsFirstDate kind dates.now from to result }
{
    let index = first_from(kind, dates, from);
    if index >= dates.len() {
        return None;
    }
    let day = day_part(kind, dates[index]);
    if day > to {
        return None;
    }
    Some(day)
}

// Whether one of the dates lies on a day.
pub(crate) fn dates_on(kind: Kind, dates: &[i64], day: i64) -> bool
    requires { Rises int_lt dates.now }
    ensures { result ≡ false → (s : ℕ) → is_among kind dates.now day s ≡ false }
{
    let index = first_from(kind, dates, day);
    index < dates.len() && day_part(kind, dates[index]) == day
}

// The seconds of the dates on a day.
#[inline(never)]
pub(crate) fn seconds_on(
    alloc: Global,
    kind: Kind,
    dates: &[i64],
    day: i64,
) -> Result<TimeSet, NoMemory>
    requires rises { Rises int_lt dates.now }
    requires high { day ≤ℤ latest_day }
    ensures { IfOk result (λ t. IsSetOf nat_lt t (λ s. IsTrue (is_among kind dates.now day s))) }
{
    let first = first_from(kind, dates, day);
    let last = first_from(kind, dates, day + 1);
    let mut seconds = Vec::new(alloc);
    let mut index = first;
    while index < last {
        seconds.push(second_part(kind, dates[index]))?;
        index += 1;
    }
    TimeSet::of(alloc, &seconds)
}

// Takes the dates of a day out of its seconds; it takes no memory.
pub(crate) fn take_out(times: &mut TimeSet, kind: Kind, dates: &[i64], day: i64)
    requires rises { Rises int_lt dates.now }
    requires high { day ≤ℤ latest_day }
    ensures { LosesDates kind dates.now day times.old times.new }
{
    let first = first_from(kind, dates, day);
    let last = first_from(kind, dates, day + 1);
    let mut index = first;
    while index < last {
        times.remove(second_part(kind, dates[index]));
        index += 1;
    }
}
