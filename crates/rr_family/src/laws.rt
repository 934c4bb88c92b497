// Laws on which the searches for a rule and for a pattern stand, each the contract of a function that does nothing.
ghost use Rattle.rr_family.specs.DaySets.{SetOfTest, TestOfEndless, TestOfFinite};
ghost use Rattle.rr_family.specs.GraphProfile.{EndlessAgreementIsPattern, EndlessPatternHasCycle, FiniteAgreementIsPattern, FirstPatternIsOne, NoPatternIsLost, PatternHasOneSecond};
ghost use Rattle.rr_family.specs.Lasting.{AgreementOnCycleLasts, EndlessHasCycle, SoundLasts, TakingLosesNoEndless};
ghost use Rattle.rr_family.specs.Profile.{EndlessListIsRule, EndlessRuleHasCycle, FiniteListIsRule, FirstRuleIsOne, ListItemsRise, MembersOnDays, NoListIsLost};
ghost use Rattle.rr_family.specs.Shift.{CycleIsCounterparts, CycleIsPatterns, ItemsRepeat, PatternRepeats};
ghost use Rattle.rr_family.specs.Sorts.{KindsHaveSorts};
ghost use Rattle.rr_family.specs.Taking.{TakingIsSound, TakingLosesNone};
ghost use Rattle.rr_family.specs.Tally.{FurtherBySorts, MixedHasNoList, SoundBySorts, UnsortedHasNoList};

/// Taking sound items, the one with most further days first, loses no list.
pub fn taking_loses_none()
    ensures { TakingLosesNone }
{}

/// What is taken gives occupied days of the window alone.
pub fn taking_is_sound()
    ensures { TakingIsSound }
{}

/// A place is sound exactly if no sort that it has has a day that is not occupied.
pub fn sound_by_sorts()
    ensures { SoundBySorts }
{}

/// The further days of a place are those of its sorts that no taken place has.
pub fn further_by_sorts()
    ensures { FurtherBySorts }
{}

/// An occupied day without a sort is in no list.
pub fn unsorted_has_no_list()
    ensures { UnsortedHasNoList }
{}

/// A sort with an occupied day and one that is not occupied has no list.
pub fn mixed_has_no_list()
    ensures { MixedHasNoList }
{}

/// Two days of one sort are in the same items of a kind.
pub fn kinds_have_sorts()
    ensures { KindsHaveSorts }
{}

/// The days of a list of items repeat after the cycle of their kind and interval.
pub fn items_repeat()
    ensures { ItemsRepeat }
{}

/// The days of a pattern repeat after the cycle of its type and interval.
pub fn pattern_repeats()
    ensures { PatternRepeats }
{}

/// The cycle of a kind with its interval is that of its counterpart.
pub fn cycle_is_counterparts()
    ensures { CycleIsCounterparts }
{}

/// The cycle of a type with its interval is that of its counterpart.
pub fn cycle_is_patterns()
    ensures { CycleIsPatterns }
{}

/// A set that has the days of a test that repeats has its cycle, from its first day on.
pub fn endless_has_cycle()
    ensures { EndlessHasCycle }
{}

/// What is sound on one cycle is sound for ever.
pub fn sound_lasts()
    ensures { SoundLasts }
{}

/// What agrees on one cycle agrees for ever.
pub fn agreement_on_cycle_lasts()
    ensures { AgreementOnCycleLasts }
{}

/// Taking on one cycle loses no list of an endless set.
pub fn taking_loses_no_endless()
    ensures { TakingLosesNoEndless }
{}

/// A set that has the days of a test has one second, and is the test up to each of its days.
pub fn set_of_test()
    ensures { SetOfTest }
{}

/// An endless set whose days are those of a test is the test's.
pub fn test_of_endless()
    ensures { TestOfEndless }
{}

/// A finite set whose days are those of a test up to the last is the test's with their number.
pub fn test_of_finite()
    ensures { TestOfFinite }
{}

/// A rule of those that are looked for has the occurrences of its items' days.
pub fn members_on_days()
    ensures { MembersOnDays }
{}

/// If some rule of a kind and interval has the set, the taken list has its days in the window.
pub fn no_list_is_lost()
    ensures { NoListIsLost }
{}

/// If some rule of a kind and interval has an endless set, the set's least period divides their cycle.
pub fn endless_rule_has_cycle()
    ensures { EndlessRuleHasCycle }
{}

/// A taken list that has the days of an endless set's window is a rule of the set.
pub fn endless_list_is_rule()
    ensures { EndlessListIsRule }
{}

/// A taken list that has the days of a finite set is a rule of the set.
pub fn finite_list_is_rule()
    ensures { FiniteListIsRule }
{}

/// The items of a taken list rise in the order of items.
pub fn list_items_rise()
    ensures { ListItemsRise }
{}

/// A set has one first rule at most.
pub fn first_rule_is_one()
    ensures { FirstRuleIsOne }
{}

/// A pattern that has the set agrees with it in the window.
pub fn no_pattern_is_lost()
    ensures { NoPatternIsLost }
{}

/// A set that a pattern has, has one second on each of its days.
pub fn pattern_has_one_second()
    ensures { PatternHasOneSecond }
{}

/// If a pattern has an endless set, the set's least period divides the pattern's cycle.
pub fn endless_pattern_has_cycle()
    ensures { EndlessPatternHasCycle }
{}

/// A pattern that agrees with an endless set in the window has its occurrences.
pub fn endless_agreement_is_pattern()
    ensures { EndlessAgreementIsPattern }
{}

/// A pattern that agrees with a finite set has its occurrences.
pub fn finite_agreement_is_pattern()
    ensures { FiniteAgreementIsPattern }
{}

/// A set has one first pattern and range at most.
pub fn first_pattern_is_one()
    ensures { FirstPatternIsOne }
{}
