// A law about summaries, the contract of a function that does nothing.
ghost use Rattle.rr_drill.specs.Summary.{SummaryIsOne};

/// A list of series has one summary at most.
pub fn summary_is_one()
    ensures { SummaryIsOne }
{}
