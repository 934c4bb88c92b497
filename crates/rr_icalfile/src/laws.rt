// Laws of events with instances, each the contract of a function that does nothing.
ghost use Rattle.rr_icalfile.specs.DayLaws.{DateTakesTime, DayHasOneTime};
ghost use Rattle.rr_icalfile.specs.Instances.{EventsOccur};

/// What occurs in the events of a UID: in those with a series its occurrences but for the moments that instances name, and
/// the starts of these; in those with a series that is cancelled, and in instances alone, the starts. Dates are read as the occurrences
/// of their days, with the time of day of the start, exactly if they may and the events are refused otherwise.
pub fn events_occur()
    ensures { EventsOccur }
{}

/// Why a date can be read as the occurrences of its day: on a day with no RDATE at another time of day, a series whose rules choose the
/// time of day of its start alone occurs at that time, or not at all.
pub fn day_has_one_time()
    ensures { DayHasOneTime }
{}

/// A date with the time of day of a start behind it states the moment of that day at that time, in UTC if the start is.
pub fn date_takes_time()
    ensures { DateTakesTime }
{}
