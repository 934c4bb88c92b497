// Laws about zones, each the contract of a function that does nothing.
ghost use Rattle.rr_zone.specs.ZoneLaws.{OneOffsetIsFixed};
ghost use Rattle.rr_zone.specs.Tables.{TablesTell};

/// A zone whose observances all have one offset has that offset at every moment, as a stated offset has.
pub fn one_offset_is_fixed()
    ensures { OneOffsetIsFixed }
{}

/// The tables of a zone up to a day tell its local time at every moment of UTC before that day.
pub fn tables_tell()
    ensures { TablesTell }
{}
