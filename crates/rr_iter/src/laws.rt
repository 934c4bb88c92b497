// Laws about the occurrences of a series, each the contract of a function that does nothing.
ghost use Rattle.rr_model.specs.Series.Settled.{SeriesRepeats};
ghost use Rattle.rr_model.specs.Series.Tree.{TreeStandsForSeries};

/// What occurs in a sound series is exactly what stands in the tree that `occurrences` walks (RFC 5545, section 3.8.5).
pub fn tree_stands_for_series()
    ensures { TreeStandsForSeries }
{}

/// From its settled day on a sound series repeats with its cycle, which `admit` of rr_check gives.
pub fn series_repeats()
    ensures { SeriesRepeats }
{}
