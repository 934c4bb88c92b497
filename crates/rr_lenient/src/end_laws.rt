// Laws about an UNTIL of another kind than the start, each the contract of a function that does nothing.
ghost use Rattle.rr_lenient.specs.EndLaws.{EndIsReachedOnItsDay, NoOtherEndIsLeft, OtherEndsChange, UntilKindIsOtherEnd};

/// No series that `settle_ends` gives is refused with `UntilKind`.
pub fn no_other_end_is_left()
    ensures { NoOtherEndIsLeft }
{}

/// `settle_ends` gives another series exactly if it says that an UNTIL had another kind.
pub fn other_ends_change()
    ensures { OtherEndsChange }
{}

/// A series that is refused with `UntilKind` has an UNTIL of another kind.
pub fn until_kind_is_other_end()
    ensures { UntilKindIsOtherEnd }
{}

/// An UNTIL that had another kind ends its rule with its day: what lies on that day or before it is reached, and nothing after
/// it.
pub fn end_is_reached_on_its_day()
    ensures { EndIsReachedOnItsDay }
{}
