// The limits of a plan.

/// The most exceptions of a plan, cancelled occurrences and single ones together.
pub const MAX_EXCEPTIONS: usize = 50;

/// The most parts of a plan.
pub const MAX_PARTS: usize = 64;

/// The most days over which all parts of a plan together are compared with the set: each part may take as many of them as every
/// other.
pub const MAX_DAYS_COMPARED: u64 = 67_108_864;
