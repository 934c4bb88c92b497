// A law of printed texts, the contract of a function that does nothing.
ghost use Rattle.rr_text.specs.PrintedLaws.{PrintedTextsDiffer};

/// Two dates that are printed alike are one date, and two moments one moment.
pub fn printed_texts_differ()
    ensures { PrintedTextsDiffer }
{}
