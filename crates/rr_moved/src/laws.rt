// Laws of events with instances, each the contract of a function that does nothing.
ghost use Rattle.rr_moved.specs.Instances.{EditedHasInstances, InstancesAreDates, StartsOccur};
ghost use Rattle.rr_moved.specs.Valid.{MovedIsValid};

/// A series whose moved instances are written as dates beside it has what it keeps, and the starts of its instances.
pub fn instances_are_dates()
    ensures { InstancesAreDates }
{}

/// The series of an event that is edited is the series with its instances as dates.
pub fn edited_has_instances()
    ensures { EditedHasInstances }
{}

/// The starts of instances, written as a list of dates, are its occurrences.
pub fn starts_occur()
    ensures { StartsOccur }
{}

/// A valid series that counts its start, edited by instances in the years 1 to 9999, is valid, and so are the starts alone.
pub fn moved_is_valid()
    ensures { MovedIsValid }
{}
