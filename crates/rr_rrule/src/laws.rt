// Laws of what a calendar text states, each the contract of a function that does nothing.
ghost use Rattle.rr_rrule.specs.WriteLaws.{CalendarIsReadBack};
ghost use Rattle.rr_rrule.specs.TextLaws.{CaseDoesNotMatter, FoldingDoesNotMatter, LineEndsDoNotMatter, OrderDoesNotMatter};

/// Texts that differ in the case of letters alone, be it of names, of values or of parts of a rule, state one series, or
/// are refused alike.
pub fn case_does_not_matter()
    ensures { CaseDoesNotMatter }
{}

/// A text states the same whether its lines end with CR LF or with LF (RFC 5545, section 3.1).
pub fn line_ends_do_not_matter()
    ensures { LineEndsDoNotMatter }
{}

/// A line of a text that is read may be folded after any of its bytes: the series is the same (RFC 5545, section 3.1).
pub fn folding_does_not_matter()
    ensures { FoldingDoesNotMatter }
{}

/// Two neighbouring parts of a rule of a text that is read may be exchanged: the series is the same.
pub fn order_does_not_matter()
    ensures { OrderDoesNotMatter }
{}

/// The text that is written for a valid series is read back as that series, if its start counts and none of its rules
/// has both UNTIL and COUNT, which RFC 5545 does not allow together.
pub fn calendar_is_read_back()
    ensures { CalendarIsReadBack }
{}
