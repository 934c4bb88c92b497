// Laws of plans, the contracts of functions that do nothing.
ghost use Rattle.rr_plan.specs.Agree.{AgreementIsSettled};
ghost use Rattle.rr_plan.specs.Needed.{EachPartIsNeeded};

/// Two sets that agree from some day on agree from each day on from which both repeat: so a pattern that differs from a set in
/// finitely many occurrences has exactly those that the set has from the day on from which both repeat.
pub fn agreement_is_settled()
    ensures { AgreementIsSettled }
{}

/// No part of a plan is useless: each has an occurrence that no other part has and that is not single, so without it the others
/// have not all occurrences of the set.
pub fn each_part_is_needed()
    ensures { EachPartIsNeeded }
{}
