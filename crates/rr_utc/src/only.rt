// A moment that one of two sides alone has.
use rr_model::Side;

/// A moment that one of two series alone has.
#[derive(Clone, Copy)]
pub struct Only {
    /// The moment of UTC, in seconds since 1970-01-01T00:00:00.
    pub at: i64,
    /// The side that has it.
    pub side: Side,
}
