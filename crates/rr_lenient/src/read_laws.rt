// Laws of series that are read as calendars show them, each the contract of a function that does nothing.
ghost use Rattle.rr_lenient.specs.ReadLaws.{ReadIsLenient};
ghost use Rattle.rr_lenient.specs.Stated.{ReadKeyIsStated};

/// What `read_of` makes of a series is a lenient reading of it, as `IsLenient` says.
pub fn read_is_lenient()
    ensures { ReadIsLenient }
{}

/// What is read of a key that is stated is stated so, as it is read.
pub fn read_key_is_stated()
    ensures { ReadKeyIsStated }
{}
