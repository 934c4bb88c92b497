// Lengths and indexes of rows of days.
ghost use Rattle.std.specs.Prelude.{◌≡◌, pos, ◌+ℤ◌, ◌≤ℤ◌};
ghost use Rattle.rr_model.specs.Bounds.{earliest_taken, latest_taken};

/// How many days lie from one day to another, as the length of a row of days or an index in one.
pub fn days_between(from: i64, to: i64) -> usize
    requires order { from ≤ℤ to }
    requires low { earliest_taken ≤ℤ from }
    requires high { to ≤ℤ latest_taken }
    ensures { to ≡ from +ℤ pos result }
{
    (to - from) as usize
}
