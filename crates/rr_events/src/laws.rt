// A law of the unfolding of lines, the contract of a function that does nothing.
ghost use Rattle.rr_events.specs.Cutting.{PartsUnfoldAlone};

/// A part of a text that begins with a line that continues none is unfolded like a text of its own.
pub fn parts_unfold_alone()
    ensures { PartsUnfoldAlone }
{}
