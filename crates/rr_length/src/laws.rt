// A law about lengths, the contract of a function that does nothing.
ghost use Rattle.rr_length.specs.Lengths.{FirstOtherIsOne};

/// There is one first occurrence with two lengths at most.
pub fn first_other_is_one()
    ensures { FirstOtherIsOne }
{}
