// Laws of set positions, each the contract of a function that does nothing (RFC 5545, section 3.3.10, BYSETPOS).
ghost use Rattle.rr_setpos.specs.Ranks.{PositionsAreByParts, SetPositionsAreByParts};

/// A candidate's position in its unit is a rank by days and by times: the candidates of a unit of whole days before one
/// are all times of each day before, and the times before on its own day; those of a shorter unit are times alone.
pub fn positions_are_by_parts()
    ensures { PositionsAreByParts }
{}

/// BYSETPOS chooses a candidate exactly if it lists that rank, counted from the front or from the back.
pub fn set_positions_are_by_parts()
    ensures { SetPositionsAreByParts }
{}
