// Laws about series that are restated, each the contract of a function that does nothing.
ghost use Rattle.rr_start.specs.Laws.{LaterStartsChoose, OffIsNotSynchronised, RereadIsOne, RereadIsTaken, RereadOccurs, TakenIsNotOff};

/// What a valid rule chooses from its start it chooses from each moment that it chooses.
pub fn later_starts_choose()
    ensures { LaterStartsChoose }
{}

/// What `reread` gives for a valid series has the same occurrences.
pub fn reread_occurs()
    ensures { RereadOccurs }
{}

/// There is one series, and one mark, that `reread` gives for a series.
pub fn reread_is_one()
    ensures { RereadIsOne }
{}

/// `check` takes what `reread` gives for a valid series whose start is off its rule.
pub fn reread_is_taken()
    ensures { RereadIsTaken }
{}

/// `check` refuses a series whose start is off its rule: `NotSynchronised(1)`.
pub fn off_is_not_synchronised()
    ensures { OffIsNotSynchronised }
{}

/// The start of a series that `check` takes is never off its rule.
pub fn taken_is_not_off()
    ensures { TakenIsNotOff }
{}
