// The languages in which a series is written.

/// A language of recurring series.
#[derive(Clone, Copy, Debug, PartialEq, Eq)]
pub enum Lang {
    /// Rules of iCalendar (RFC 5545, section 3.8.5).
    Rrule,
    /// Rules of vCalendar 1.0 (basic recurrence rule grammar).
    Vcal,
    /// The recurrence of a Microsoft Graph event.
    Graph,
}
