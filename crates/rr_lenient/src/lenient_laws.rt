// Laws about series that are read leniently, each the contract of a function that only cites laws about their start.
ghost use Rattle.rr_lenient.specs.LenientLaws.{LenientIsOne, LenientIsTaken, LenientOccurs, TakenIsAsGiven};

use rr_start::{reread_is_one, reread_is_taken, reread_occurs, taken_is_not_off};

/// There is one series, with the same marks, that `read_leniently` gives for a series.
pub fn lenient_is_one()
    ensures { LenientIsOne }
{
    reread_is_one();
}

/// A series that `check` takes is read as it is, with no mark.
pub fn taken_is_as_given()
    ensures { TakenIsAsGiven }
{
    taken_is_not_off();
}

/// What `read_leniently` gives for a valid series has the occurrences of that series with each UNTIL as `settle_ends` reads it.
pub fn lenient_occurs()
    ensures { LenientOccurs }
{
    reread_occurs();
}

/// `check` never refuses what `read_leniently` gives with `UntilKind`, and takes it if its start was off its rule.
pub fn lenient_is_taken()
    ensures { LenientIsTaken }
{
    reread_is_taken();
}
