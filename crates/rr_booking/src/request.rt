// What a booking asks, as its words and texts state it.
ghost use Rattle.std.specs.Prelude.{◌≤◌};
ghost use Rattle.rr_answer.specs.declared.quantities.TheConstants.{MAX_DURATION};

use rr_answer::{Duration, Operand};

/// The most bytes that the words may say of the text of a series: 2 to the power of 50.
pub const MAX_LENGTH: u64 = 1_125_899_906_842_624;

/// One of the series beside which a candidate is asked.
#[derive(Clone, Copy)]
pub struct Other<'a> {
    /// How many seconds each of its occurrences lasts, as a plain number, since the prover follows no `Duration` beside a reference into a vector.
    pub duration: u32,
    /// What it is about, as for a command. Its name is not looked up.
    pub operand: Operand<'a>,
    /// The bytes of its text.
    pub text: &'a [u8],
    ghost some: { 1 ≤ duration },
    ghost few: { duration ≤ MAX_DURATION },
}

/// One candidate, and the series beside which it is asked.
#[derive(Drop)]
pub struct Booking<'a> {
    /// How long each occurrence of the candidate lasts.
    pub duration: Duration,
    /// What the candidate is about, as for a command. Its name is not looked up.
    pub candidate: Operand<'a>,
    /// The series beside it, in the order of their lines.
    pub others: Vec<Other<'a>>,
}
