// How long an occurrence is.
ghost use Rattle.std.specs.Prelude.{◌≡◌};
ghost use Rattle.rr_length.specs.Length.{is_longer, is_same_length, longer_of, unstated};

use rr_model::Kind;

/// How long an occurrence is: whole days of the calendar, and exact seconds after them (RFC 5545, section 3.3.6). A day
/// may last 23 or 25 hours, so one day and 86,400 seconds are two lengths.
#[derive(Clone, Copy, Debug, PartialEq, Eq)]
pub struct Length {
    /// Days of the calendar; those of weeks too.
    pub days: u64,
    /// Exact seconds; those of hours and minutes too.
    pub seconds: u64,
}

impl Length {
    /// The length of an event that states none: one day of a date, nothing of a moment (RFC 5545, section 3.6.1).
    pub fn unstated(kind: Kind) -> Length
        ensures { result ≡ unstated kind }
    {
        match kind {
            Kind::Days => Length {
                days: 1,
                seconds: 0,
            },
            Kind::Moments => Length {
                days: 0,
                seconds: 0,
            },
        }
    }

    /// Whether two lengths are one: the same days and the same seconds.
    pub fn is_same(self, other: Length) -> bool
        ensures { result ≡ is_same_length self other }
    {
        self.days == other.days && self.seconds == other.seconds
    }

    /// Whether a length has more days than another, or as many and more seconds.
    pub fn is_longer(self, other: Length) -> bool
        ensures { result ≡ is_longer self other }
    {
        self.days > other.days || self.days == other.days && self.seconds > other.seconds
    }

    /// The longer of two lengths; of two that are alike `self`.
    pub fn longer_of(self, other: Length) -> Length
        ensures { result ≡ longer_of self other }
    {
        if other.is_longer(self) { other } else { self }
    }
}
