//! Whether the events of two files survived a trip: found again by their keys, compared and reported, whatever the languages.
#![tactic(auto)]

mod comparison;
mod detail;
mod features;
mod found;
mod further;
mod grid;
mod judge;
mod known;
mod laws;
mod lengths;
mod likeness;
mod months;
mod name;
mod pair;
mod parts;
mod printing;
mod report;
mod said;
mod same;
mod shown;
mod subject;
mod title;
mod verdict;
mod watch;
mod zones;

pub use comparison::compare;
pub use detail::{Detail, Difference, Month, detail_of};
pub use laws::{alike_is_exact, by_uid_matches_none, empty_has_none, length_is_exact};
pub use printing::{print, print_refusal, push_file_refusal, push_key, push_key_refusal};
pub use report::{Counts, Partner, Report, ReportLine, Status, is_in_utc};
pub use said::{Ahead, Said, Zones};
pub use shown::{Shown, show};
pub use verdict::{push_ahead, push_offset};
pub use watch::{Unwatched, Watch};
