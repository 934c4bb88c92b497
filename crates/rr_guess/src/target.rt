// The language in which each event of a plan is to be said.

/// A language of plans. Every event that is guessed is one of Microsoft Graph; for vCalendar 1.0 those are left out that no single
/// rule of it has.
#[derive(Clone, Copy, Debug, PartialEq, Eq)]
pub enum Target {
    /// Microsoft Graph. Every event that is guessed can be said in it.
    Graph,
    /// vCalendar 1.0. Its weeks begin on Monday, and it names one weekday at each place of a month.
    Vcal,
}

impl Target {
    /// Whether weeks from a weekday on are tried with an interval: if each week counts, those from Sunday alone.
    pub(crate) fn has_weeks(self, interval: u32, first_day: u8) -> bool {
        if interval == 1 {
            return first_day == 6;
        }
        match self {
            Target::Graph => true,
            Target::Vcal => first_day == 0,
        }
    }

    /// Whether a place among this many weekdays is tried.
    pub(crate) fn has_places(self, many_weekdays: u8) -> bool {
        match self {
            Target::Graph => true,
            Target::Vcal => many_weekdays == 1,
        }
    }
}
