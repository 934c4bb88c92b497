// Laws about expansion, each the contract of a function that does nothing.
ghost use Rattle.rr_expand.specs.Years.{EqualKeysHaveEqualMasks};

/// Years of equal keys have the same mask: a year's mask is a function of the rule, the day of its start and the key.
pub fn equal_keys_have_equal_masks()
    ensures { EqualKeysHaveEqualMasks }
{}
