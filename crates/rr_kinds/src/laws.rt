// A law about series that go by kinds of years, the contract of a function that does nothing.
ghost use Rattle.rr_kinds.specs.Form.{NoLimitRefuses};

/// No series that goes by kinds of years has a rule that counts too far, or too many moments.
pub fn no_limit_refuses()
    ensures { NoLimitRefuses }
{}
