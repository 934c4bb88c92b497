// What is counted to find where rules end.

/// What was counted of a rule with COUNT alone that has members after the first cycle that follows its start's day.
#[derive(Clone, Copy)]
pub struct CycleCount {
    /// How many members a whole cycle after the start's day has, from 1.
    pub each: u64,
    /// How many members come after the first of these cycles, from 1.
    pub after: u64,
}

/// What was counted of the rules of a series: an item for each rule, and for each excluded rule, in order. It is `None` for a rule
/// without COUNT or with UNTIL beside it, and for one that COUNT ends within the first cycle after its start's day.
#[derive(Drop)]
pub struct Counts {
    /// An item for each rule, in the order of the series.
    pub rules: Vec<Option<CycleCount>>,
    /// An item for each excluded rule, in the order of the series.
    pub excluded: Vec<Option<CycleCount>>,
}

// The last day of a rule, and what was counted to find it.
#[derive(Clone, Copy)]
pub(crate) struct LastDay {
    // In days since 1970-01-01.
    pub(crate) day: i64,
    pub(crate) counted: Option<CycleCount>,
}
