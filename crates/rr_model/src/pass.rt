// What the first pass over an event's lines has read.
use crate::Stamp;

/// The start of an event, and how many rules and date values its lines state as far as they are read.
#[derive(Clone, Copy, Debug, PartialEq, Eq)]
pub struct FirstPass {
    /// DTSTART as its line states it.
    pub start: Option<Stamp>,
    /// How many RRULE and EXRULE lines together, at most 16.
    pub rule_count: usize,
    /// How many values of RDATE and EXDATE, at most 10,000.
    pub date_count: usize,
}
