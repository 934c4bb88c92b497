// Laws about texts in local time, each the contract of a function that does nothing.
ghost use Rattle.rr_zone.specs.TextLaws.{OtherDatesStay, OtherRulesStay, TextStays};

/// A line of dates of which none is a moment of UTC stays as it is.
pub fn other_dates_stay()
    ensures { OtherDatesStay }
{}

/// A rule without a moment of UTC stays as it is.
pub fn other_rules_stay()
    ensures { OtherRulesStay }
{}

/// A text stays as it is if none of its events has a zone of the text.
pub fn text_stays()
    ensures { TextStays }
{}
