// Trial division.
ghost use Rattle.std.specs.Prelude.{◌≤◌};
ghost use Rattle.rr_model.specs.Bounds.{longest_period};
ghost use Rattle.rr_model.specs.Sets.DividingOut.{HasNoFactorBelow, IsLeastFactor};

/// The least divisor above 1 of a number, of which no number below `from` is one.
pub fn least_factor(number: u64, from: u64) -> u64
    requires some { 2 ≤ number }
    requires few { number ≤ longest_period }
    requires low { 2 ≤ from }
    requires high { from ≤ longest_period }
    requires tried { HasNoFactorBelow number from }
    ensures { IsLeastFactor number result }
{
    let mut factor = from;
    while factor * factor <= number {
        if number % factor == 0 {
            return factor;
        }
        factor += 1;
    }
    number
}
