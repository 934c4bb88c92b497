// Numbers that differ by whole intervals.
ghost use Rattle.std.specs.Prelude.{◌≡◌, ◌≤◌, ◌-ℤ◌};
ghost use Rattle.rr_model.specs.Whole.{divides};

/// Whether two numbers differ by a multiple of the interval.
pub fn is_congruent(from: i64, to: i64, interval: u32) -> bool
    requires { 1 ≤ interval }
    ensures { result ≡ divides interval (to -ℤ from) }
{
    let interval = i64::from(interval);
    from.rem_euclid(interval) == to.rem_euclid(interval)
}
