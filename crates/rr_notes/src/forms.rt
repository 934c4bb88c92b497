// The commands of `rr` with what is wanted behind the name of each, and its languages: FORMS has a command in each line, in which `N=1-100` is a
// number from 1 to 100, and `A:series` an operand in one of the languages SERIES, which state a series. `translate` writes the languages TARGETS.

// commands.txt: BEGIN (bench/commands.py writes these lines)
/// A line for each command: its name, and what is wanted behind it.
pub const FORMS: &str = "\
equal A B
within A B
disjoint A B
clear D=1-31622400 A E=1-31622400 B
differences N=1-10000 A B
check A:series
list N=1-100000 A:series
from MOMENT N=1-100000 A
between FROM TO A
nth N=1-1125899906842624 A
rank MOMENT A
canon A
canon1 A
union A B
common A B
minus A B
translate LANG A:series
split N=1-64 graph A
split N=1-64 vcal A
infer A:series
drill SEED=0-4294967295 N=1-100
help [COMMAND]
explain REFUSAL
version
";

/// The words of all languages.
pub const LANGUAGES: &str = "rrule vcal graph list canon rscale";

/// The words of the languages whose texts state a series.
pub const SERIES: &str = "rrule vcal graph list";

/// The words of the languages that `translate` writes.
pub const TARGETS: &str = "rrule vcal graph";
// commands.txt: END
