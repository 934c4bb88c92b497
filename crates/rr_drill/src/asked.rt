// What is asked of a series and a later one.
use rr_model::Question;

/// A question about a series and a later one.
#[derive(Clone, Copy)]
pub enum Asked {
    /// The question of the two in their order.
    Forth(Question),
    /// The question of the two with the later one first.
    Back(Question),
}
