// Laws of rules and series, each the contract of a function that does nothing.
ghost use Rattle.rr_model.specs.Rule.Member.{MembersAreTested};
ghost use Rattle.rr_model.specs.Series.FirstRefusal.{FirstRefusalIsOne};

/// The test of a rule's members says what membership says (RFC 5545, section 3.3.10, UNTIL and COUNT).
pub fn members_are_tested()
    ensures { MembersAreTested }
{}

/// A series has one first refusal, or none, whichever limits are judged.
pub fn first_refusal_is_one()
    ensures { FirstRefusalIsOne }
{}
