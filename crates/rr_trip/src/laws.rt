// Laws of what is said of a key, each the contract of a function that does nothing.
ghost use Rattle.rr_trip.specs.Laws.{AlikeIsExact, ByUidMatchesNone, EmptyHasNone, LengthIsExact};

use rr_model::first_refusal_is_one;

/// A key that both calendars have is said to be alike exactly if both refuse it and state it in the same words.
pub fn alike_is_exact()
    ensures { AlikeIsExact }
{
    first_refusal_is_one();
}

/// A series that is said to be empty by its form, as that of a cancelled event, has no occurrence: so an event that one calendar
/// alone has and that is `equal` all the same has lost none.
pub fn empty_has_none()
    ensures { EmptyHasNone }
{}

/// A key is said to have an occurrence of two lengths exactly if its local times are equal for ever, both calendars tell how long
/// its occurrences are, and one of them has two lengths.
pub fn length_is_exact()
    ensures { LengthIsExact }
{}

/// If events are to be found by their UID alone, no line of a report is of events that have another key in B.
pub fn by_uid_matches_none()
    ensures { ByUidMatchesNone }
{}
