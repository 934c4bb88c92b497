// The limits within which everything is answered.

/// The most bytes of one operand.
pub const MAX_INPUT: usize = 1_048_576;

/// The most rules of a series, RRULE and EXRULE together.
pub const MAX_RULES: usize = 16;

/// The most dates of a series, RDATE and EXDATE together.
pub const MAX_DATES: usize = 10_000;

/// The most days from a start to the last member of a rule with a COUNT.
pub const MAX_SPAN_DAYS: u64 = 16_777_216;

/// The most days of a cycle.
pub const MAX_CYCLE_DAYS: u64 = 16_777_216;

/// The greatest sum of the sizes of a series' distinct time sets.
pub const MAX_SECONDS: usize = 16_777_216;

/// The greatest absolute day number that a call takes.
pub const MAX_DAY: i64 = 3_000_000_000_000;

/// The day number of 0001-01-01, the first day of all years, in days since 1970-01-01.
pub const FIRST_DAY: i64 = -719_162;
