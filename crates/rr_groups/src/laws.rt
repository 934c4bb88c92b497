// Laws of pairs, each the contract of a function that does nothing.
ghost use Rattle.rr_groups.specs.Pairs.{PairsAreApart, PairsAreWithin};

/// An index of one list is in one pair at most.
pub fn pairs_are_apart()
    ensures { PairsAreApart }
{}

/// The indexes of a pair are below the lengths of their lists.
pub fn pairs_are_within()
    ensures { PairsAreWithin }
{}
