// Dates or moments.
ghost use Rattle.std.specs.Prelude.{◌≡◌};
ghost use Rattle.rr_model.specs.Moment.{is_same_kind};

/// What an occurrence is: a date, or a moment of local time (RFC 5545, sections 3.3.4 and 3.3.5).
///
/// In kind `Days` an occurrence is a day number, days since 1970-01-01.
/// In kind `Moments` it is 86,400 times the day number plus the second of the day.
#[derive(Clone, Copy, Debug, PartialEq, Eq)]
pub enum Kind {
    /// Dates without a time of day (RFC 5545, section 3.3.4).
    Days,
    /// Dates with a time of day, in local time (RFC 5545, section 3.3.5).
    Moments,
}

impl Kind {
    /// Whether both are dates or both are moments.
    pub fn is_same(self, other: Kind) -> bool
        ensures { result ≡ is_same_kind self other }
    {
        match (self, other) {
            (Kind::Days, Kind::Days) | (Kind::Moments, Kind::Moments) => true,
            _ => false,
        }
    }
}
