// Laws of the lines of a text, each the contract of a function that does nothing.
ghost use Rattle.rr_ical.specs.LineLaws.{FoldingDoesNotMatter, LineEndsDoNotMatter};

/// A line that is folded after any of its bytes has the same text; only the numbers of the lines after it change.
pub fn folding_does_not_matter()
    ensures { FoldingDoesNotMatter }
{}

/// A list states the same whether its lines end with CR LF or with LF.
pub fn line_ends_do_not_matter()
    ensures { LineEndsDoNotMatter }
{}
