// Which files were compared, and how.

/// One of two files that are compared, as it was given.
#[derive(Clone, Copy)]
pub struct FileFacts<'a> {
    /// Its name, as it was given.
    pub name: &'a str,
    /// The word of its language: `ics`, `graph` or `vcal`.
    pub language: &'static str,
    /// Its stated offset, or that of both files: local time less UTC, in seconds.
    pub offset: Option<i32>,
    /// Its bytes, as they were read.
    pub bytes: &'a [u8],
}

/// A comparison: its release, its files and its options.
#[derive(Clone, Copy)]
pub struct Facts<'a> {
    /// The release that compares, as `0.20.0`.
    pub version: &'static str,
    /// The file A, which was given first.
    pub old: FileFacts<'a>,
    /// The file B, which was given second.
    pub new: FileFacts<'a>,
    /// Whether equal events are left out.
    pub only_differences: bool,
    /// Whether what is at odds with RFC 5545 is refused, and not read as calendars show it.
    pub strict: bool,
    /// Whether events are found again by their UID alone.
    pub by_uid: bool,
    /// The name of a file that defines further zones.
    pub zones: Option<&'a str>,
}
