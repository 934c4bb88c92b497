// What is said of a key.
use rr_length::OtherLength;
use rr_model::{Side, Verdict};
use rr_seam::KeyRefusal;

/// How far local time is ahead of UTC at a moment.
#[derive(Clone, Copy)]
pub enum Ahead {
    /// The series is in UTC.
    Utc,
    /// By this many seconds, less than a day either way.
    By(i32),
}

/// How the occurrences of a key are compared, and what is known of its zones.
#[derive(Clone, Copy)]
pub enum Zones {
    /// By local times: neither side has a zone, or both have one that is the same by its name.
    Local,
    /// By local times, though the zones may differ, or no verdict on moments can be told.
    Unknown,
    /// By the moments of UTC that local times name.
    Moments {
        /// The offset of the side that has the moment that is named; `Utc` if none is.
        ahead: Ahead,
        /// Whether local times are equal, for all years to come, so that only the zones can differ.
        only_zones: bool,
    },
}

/// What is said of a key.
#[derive(Clone, Copy)]
pub enum Said {
    /// Only this calendar has events of the key, and they are not all cancelled.
    Only(Side),
    /// The events of the key in this calendar are refused.
    Refused {
        /// The calendar whose events are refused.
        side: Side,
        /// Why they are refused, with the event's place in its file.
        refusal: KeyRefusal,
    },
    /// Both calendars refuse the events of the key, and state them in the same words. The refusal is that of A.
    Alike(KeyRefusal),
    /// The events of the key state local times without a zone in this calendar, and a zone or UTC in the other.
    Floating(Side),
    /// Both have equal local times, for all years to come, but an occurrence is of another length in B than in A.
    Length(OtherLength),
    /// Both are compared, for all years to come.
    Compared {
        /// Whether they have equal occurrences, otherwise the first that one of them alone has, as its local time.
        verdict: Verdict,
        /// Whether moments or local times are compared, and what is known of the zones.
        zones: Zones,
    },
}
