// Laws about canonical texts, each the contract of a function that does nothing.
ghost use Rattle.rr_model.specs.Sets.DescriptorText.{descriptor_text};
ghost use Rattle.rr_model.specs.Sets.Printable.{DescriptorsReadBack, TellsSetsApart};
ghost use Rattle.rr_model.specs.Sets.Stretches.{second_descriptor_text};
ghost use Rattle.rr_model.specs.Series.CanonLaw.{CanonIsEqualExactly};
ghost use Rattle.rr_canon.specs.Versions.{TextsAreEqualExactly};
ghost use Rattle.rr_canon.specs.Years.{OccursFromYearOne};

use crate::version::Version;

/// Texts of the first version are equal exactly if the sets have equal occurrences.
pub fn descriptor_tells_sets_apart()
    ensures { TellsSetsApart descriptor_text }
{}

/// Texts of the second version are equal exactly if the sets have equal occurrences.
pub fn second_version_tells_sets_apart()
    ensures { TellsSetsApart second_descriptor_text }
{}

/// What is said of a least sketch describes that sketch again.
pub fn descriptors_read_back()
    ensures { DescriptorsReadBack }
{}

/// Canonical texts of two series, both of the first version or both of the second, are equal exactly if the series have equal
/// occurrences.
pub fn canon_is_equal_exactly()
    ensures first { CanonIsEqualExactly }
    ensures second { TextsAreEqualExactly Version.Second }
{}

/// Each occurrence of a valid series lies in the year 1 or later, as `describe` asks.
pub fn occurs_from_year_one()
    ensures { OccursFromYearOne }
{}
