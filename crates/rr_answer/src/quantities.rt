// Numbers and moments that a command takes, each within its limits.
ghost use Rattle.std.specs.Prelude.{◌≡◌, ◌≤◌, max, min};
ghost use Rattle.rr_model.specs.Moment.Years.{IsInYears};
ghost use Rattle.rr_answer.specs.Command.{moment_in, number_between};

use crate::decimal::number_between;
use rr_next::Moment;
use rr_text::plain_extended;
use std::marker::Model;

/// The most occurrences that `list`, `from` and `between` print.
pub const MAX_LIST: u64 = 100_000;

/// The most series that `drill` makes.
pub const MAX_DRILL: u64 = 100;

/// The longest that an occurrence lasts for `clear`, in seconds: 366 days.
pub const MAX_DURATION: u64 = 31_622_400;

/// The most series, or events with a rule, that `split` prints.
pub const MAX_SPLIT: u64 = 64;

/// The most occurrences that `differences` prints.
pub const MAX_DIFFERENCES: u64 = 10_000;

/// The greatest number of an occurrence that `nth` takes: 2 to the power of 50.
pub const MAX_NTH: u64 = 1_125_899_906_842_624;

/// How many occurrences `list` and `from` print at most, from 1 to `MAX_LIST`.
#[derive(Clone, Copy)]
pub struct ListCount {
    count: u64,
}

impl Model for ListCount {
    ghost use Rattle.std.specs.Prelude.{ℕ, ◌≤◌};
    ghost use Rattle.rr_answer.specs.declared.quantities.TheConstants.{MAX_LIST};

    ghost Value = { ℕ };

    ghost view = { λ n. n.count };

    ghost invariant = { λ n. (1 ≤ n.count) × (n.count ≤ MAX_LIST) };

    ghost inverse = { λ n. record { count = n } };
}

impl ListCount {
    /// The count that a word is, in decimal digits without a leading zero; None if it is none.
    pub fn read(word: &str) -> Option<ListCount>
        ensures { result ≡ number_between 1 MAX_LIST word.now }
    {
        Some(ListCount {
            count: number_between(1, MAX_LIST, word)?,
        })
    }

    /// The count as a plain number.
    pub fn get(self) -> u64
        ensures value { result ≡ self }
        ensures some { 1 ≤ self }
        ensures few { self ≤ MAX_LIST }
    {
        self.count
    }
}

/// The number of an occurrence for `nth`, from 1, which is the first one, to `MAX_NTH`.
#[derive(Clone, Copy)]
pub struct OccurrenceNumber {
    number: u64,
}

impl Model for OccurrenceNumber {
    ghost use Rattle.std.specs.Prelude.{ℕ, ◌≤◌};
    ghost use Rattle.rr_answer.specs.declared.quantities.TheConstants.{MAX_NTH};

    ghost Value = { ℕ };

    ghost view = { λ n. n.number };

    ghost invariant = { λ n. (1 ≤ n.number) × (n.number ≤ MAX_NTH) };

    ghost inverse = { λ n. record { number = n } };
}

impl OccurrenceNumber {
    /// The number that a word is, in decimal digits without a leading zero; None if it is none.
    pub fn read(word: &str) -> Option<OccurrenceNumber>
        ensures { result ≡ number_between 1 MAX_NTH word.now }
    {
        Some(OccurrenceNumber {
            number: number_between(1, MAX_NTH, word)?,
        })
    }

    /// The number as a plain number.
    pub fn get(self) -> u64
        ensures value { result ≡ self }
        ensures some { 1 ≤ self }
        ensures most { self ≤ MAX_NTH }
    {
        self.number
    }
}

/// How many seconds each occurrence of a series lasts for `clear`, from 1 to `MAX_DURATION`.
#[derive(Clone, Copy)]
pub struct Duration {
    seconds: u32,
}

impl Model for Duration {
    ghost use Rattle.std.specs.Prelude.{ℕ, ◌≤◌};
    ghost use Rattle.rr_answer.specs.declared.quantities.TheConstants.{MAX_DURATION};

    ghost Value = { ℕ };

    ghost view = { λ d. d.seconds };

    ghost invariant = { λ d. (1 ≤ d.seconds) × (d.seconds ≤ MAX_DURATION) };

    ghost inverse = { λ n. record { seconds = n } };
}

impl Duration {
    /// The duration that a word is, in decimal digits without a leading zero; None if it is none.
    pub fn read(word: &str) -> Option<Duration>
        ensures { result ≡ number_between 1 MAX_DURATION word.now }
    {
        Some(Duration {
            seconds: number_between(1, MAX_DURATION, word)? as u32,
        })
    }

    /// The duration of these seconds, or the nearest to them that is one.
    pub fn nearest(seconds: u32) -> Duration
        ensures { result ≡ min (max seconds 1) MAX_DURATION }
    {
        Duration {
            seconds: seconds.max(1).min(MAX_DURATION as u32),
        }
    }

    /// The duration as a number of seconds.
    pub fn get(self) -> u32
        ensures value { result ≡ self }
        ensures some { 1 ≤ self }
        ensures few { self ≤ MAX_DURATION }
    {
        self.seconds
    }
}

/// How many series `drill` draws, from 1 to `MAX_DRILL`.
#[derive(Clone, Copy)]
pub struct DrillCount {
    count: u32,
}

impl Model for DrillCount {
    ghost use Rattle.std.specs.Prelude.{ℕ, ◌≤◌};
    ghost use Rattle.rr_answer.specs.declared.quantities.TheConstants.{MAX_DRILL};

    ghost Value = { ℕ };

    ghost view = { λ n. n.count };

    ghost invariant = { λ n. (1 ≤ n.count) × (n.count ≤ MAX_DRILL) };

    ghost inverse = { λ n. record { count = n } };
}

impl DrillCount {
    /// The count that a word is, in decimal digits without a leading zero; None if it is none.
    pub fn read(word: &str) -> Option<DrillCount>
        ensures { result ≡ number_between 1 MAX_DRILL word.now }
    {
        Some(DrillCount {
            count: number_between(1, MAX_DRILL, word)? as u32,
        })
    }

    /// The count as a plain number.
    pub fn get(self) -> u32
        ensures value { result ≡ self }
        ensures some { 1 ≤ self }
        ensures few { self ≤ MAX_DRILL }
    {
        self.count
    }
}

/// How many series, or events with a rule, `split` prints at most, from 1 to `MAX_SPLIT`.
#[derive(Clone, Copy)]
pub struct SplitCount {
    count: u64,
}

impl Model for SplitCount {
    ghost use Rattle.std.specs.Prelude.{ℕ, ◌≤◌};
    ghost use Rattle.rr_answer.specs.declared.quantities.TheConstants.{MAX_SPLIT};

    ghost Value = { ℕ };

    ghost view = { λ n. n.count };

    ghost invariant = { λ n. (1 ≤ n.count) × (n.count ≤ MAX_SPLIT) };

    ghost inverse = { λ n. record { count = n } };
}

impl SplitCount {
    /// The count that a word is, in decimal digits without a leading zero; None if it is none.
    pub fn read(word: &str) -> Option<SplitCount>
        ensures { result ≡ number_between 1 MAX_SPLIT word.now }
    {
        Some(SplitCount {
            count: number_between(1, MAX_SPLIT, word)?,
        })
    }

    /// The count as a plain number.
    pub fn get(self) -> u64
        ensures value { result ≡ self }
        ensures some { 1 ≤ self }
        ensures few { self ≤ MAX_SPLIT }
    {
        self.count
    }
}

/// How many occurrences `differences` prints at most, from 1 to `MAX_DIFFERENCES`.
#[derive(Clone, Copy)]
pub struct DifferenceCount {
    count: u64,
}

impl Model for DifferenceCount {
    ghost use Rattle.std.specs.Prelude.{ℕ, ◌≤◌};
    ghost use Rattle.rr_answer.specs.declared.quantities.TheConstants.{MAX_DIFFERENCES};

    ghost Value = { ℕ };

    ghost view = { λ n. n.count };

    ghost invariant = { λ n. (1 ≤ n.count) × (n.count ≤ MAX_DIFFERENCES) };

    ghost inverse = { λ n. record { count = n } };
}

impl DifferenceCount {
    /// The count that a word is, in decimal digits without a leading zero; None if it is none.
    pub fn read(word: &str) -> Option<DifferenceCount>
        ensures { result ≡ number_between 1 MAX_DIFFERENCES word.now }
    {
        Some(DifferenceCount {
            count: number_between(1, MAX_DIFFERENCES, word)?,
        })
    }

    /// The count as a plain number.
    pub fn get(self) -> u64
        ensures value { result ≡ self }
        ensures some { 1 ≤ self }
        ensures few { self ≤ MAX_DIFFERENCES }
    {
        self.count
    }
}

/// A date or a moment of the years 1 to 9999, beside which occurrences are asked.
#[derive(Clone, Copy)]
pub struct AskedMoment {
    moment: Moment,
}

impl Model for AskedMoment {
    ghost use Rattle.rr_next.specs.declared.number.Moment.{Moment};
    ghost use Rattle.rr_model.specs.Moment.Years.{IsInYears};

    ghost Value = { Moment };

    ghost view = { λ a. a.moment };

    ghost invariant = { λ a. IsInYears a.moment.kind a.moment.at };

    ghost inverse = { λ m. record { moment = m } };
}

impl AskedMoment {
    /// The date or moment that a word is, as 2024-02-29 or 2024-02-29T09:30:00; None if it is none of the years 1 to 9999.
    pub fn read(word: &str) -> Option<AskedMoment>
        ensures { result ≡ moment_in word.now }
    {
        let stamp = plain_extended(word.as_bytes())?;
        Some(AskedMoment {
            moment: Moment {
                kind: stamp.kind,
                at: stamp.at,
            },
        })
    }

    /// The date in days since 1970-01-01, or the moment in seconds since its midnight.
    pub fn get(self) -> Moment
        ensures value { result ≡ self }
        ensures years { IsInYears self.kind self.at }
    {
        self.moment
    }
}
