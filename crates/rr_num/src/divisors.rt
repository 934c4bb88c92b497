// Divisors and multiples.
ghost use Rattle.std.specs.Prelude.{◌≡◌, ℕ, ◌+◌, ◌<◌, ◌≤◌, SomeIff, IfSome, IfNone};
ghost use Rattle.std.specs.Int.{IsGcd};
ghost use Rattle.rr_model.specs.Whole.Divisors.{gcd, lcm, GcdIsGreatest, IsLcm, LcmIsLeast, NoMultipleWithin};

/// The greatest common divisor of two numbers that are not both 0.
pub fn gcd(a: u64, b: u64) -> u64
    requires { 0 < a + b }
    ensures value { result ≡ gcd a b }
    ensures greatest { IsGcd a b result }
    ensures some { 1 ≤ result }
{
    let mut divisor = a;
    let mut rest = b;
    while rest != 0 {
        let next = divisor % rest;
        divisor = rest;
        rest = next;
    }
    divisor
}

/// The least common multiple of two numbers that are not 0; `None` if it is above `most`.
pub fn lcm_within(a: u64, b: u64, most: u64) -> Option<u64>
    requires first { 1 ≤ a }
    requires second { 1 ≤ b }
    ensures value { SomeIff result (lcm a b ≤ most) (lcm a b) }
    ensures least { IfSome result (IsLcm a b) }
    ensures none { IfNone result (NoMultipleWithin a b most) }
{
    let parts = a / gcd(a, b);
    if parts <= most / b {
        Some(parts * b)
    } else {
        None
    }
}

/// The greatest common divisor divides both numbers, and each number that does divides it.
pub fn gcd_is_greatest()
    ensures { GcdIsGreatest }
{}

/// The least common multiple is a multiple of both numbers, and divides each number that is.
pub fn lcm_is_least()
    ensures { LcmIsLeast }
{}
