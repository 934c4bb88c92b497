// How many days are looked at.

/// The most looks at a day that one search takes. They take some seconds: without a bound, a set of some thousand days over
/// centuries that no pattern has would take minutes.
pub const MAX_LOOKS: u64 = 200_000_000;

// What it costs to read a day of the set, in looks at a day of a row.
const LOOKS_TO_READ: u64 = 5;

/// How many days may still be looked at.
#[derive(Drop)]
pub(crate) struct Looks {
    left: u64,
}

impl Looks {
    /// A count at which no day has been looked at yet.
    pub(crate) fn new() -> Looks {
        Looks { left: MAX_LOOKS }
    }

    /// A day is looked at.
    pub(crate) fn look(&mut self) {
        self.left = self.left.saturating_sub(1);
    }

    /// A day of the set is read.
    pub(crate) fn read(&mut self) {
        self.left = self.left.saturating_sub(LOOKS_TO_READ);
    }

    /// Whether no more may be looked at.
    pub(crate) fn are_over(&self) -> bool {
        self.left == 0
    }
}
