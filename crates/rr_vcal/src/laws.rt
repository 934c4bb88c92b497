// Laws of vCalendar 1.0, each the contract of a function that does nothing.
ghost use Rattle.rr_model.specs.Vcal.Laws.{CounterpartHasMembers, CounterpartIsSynchronised, VcalCounterpartHasOccurrences, VcalIsReadBack};

/// A valid rule of vCalendar 1.0 and its counterpart of RFC 5545 have the same members, whatever the kind, the start and
/// the end.
pub fn counterpart_has_members()
    ensures { CounterpartHasMembers }
{}

/// A valid rule of vCalendar 1.0 is synchronised with its start exactly if its counterpart of RFC 5545 is.
pub fn counterpart_is_synchronised()
    ensures { CounterpartIsSynchronised }
{}

/// A valid series of vCalendar 1.0 and its counterpart of RFC 5545 have the same occurrences.
pub fn counterpart_has_occurrences()
    ensures { VcalCounterpartHasOccurrences }
{}

/// A valid series of vCalendar 1.0 is read back from its text.
pub fn vcal_is_read_back()
    ensures { VcalIsReadBack }
{}
