// How a run ends, and what is to be noted of it.
use rr_compare::Status;

/// How a run ends, and what is to be noted of it.
#[derive(Clone, Copy, Debug, PartialEq, Eq)]
pub struct Ended {
    /// How the run ends, which is the exit status.
    pub status: Status,
    /// How many events state UTC beside local time, for which no offset was stated.
    pub in_utc: usize,
}
