// An occurrence that exactly one of two sets has.
use rr_model::{Kind, Side};

/// An occurrence that exactly one of two sets has.
#[derive(Clone, Copy)]
pub struct Difference {
    /// Whether it is a date or a moment.
    pub kind: Kind,
    /// Days since 1970-01-01 of a date, seconds since its midnight of a moment.
    pub at: i64,
    /// Which of the two has it.
    pub side: Side,
}
