//! The time zones of a calendar text (RFC 5545, section 3.6.5), and the text with its moments of UTC in local time.
#![tactic(auto)]

mod clock;
mod clocks;
mod event;
mod full;
mod laws;
mod line;
mod local;
mod observance;
mod offset;
mod onsets;
mod part;
mod rewritten;
mod series;
mod text_laws;
mod unread;
mod value;
mod zone;

pub use clock::{Onset, Table, first_of_all};
pub use laws::{one_offset_is_fixed, tables_tell};
pub use local::local_text;
pub use observance::Observance;
pub use onsets::tables_of;
pub use part::begins_event;
pub use text_laws::{other_dates_stay, other_rules_stay, text_stays};
pub use unread::{UnreadZone, unread_zones};
pub use zone::{Zone, ZoneFault, zone_in};
