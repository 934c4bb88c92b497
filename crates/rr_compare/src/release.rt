// What `--version` prints, of release/VERSION.

// commands.txt: BEGIN (bench/commands.py writes these lines)
/// The line that `--version` prints, with its end.
pub const VERSION: &[u8] = b"rr-calendars 0.21.0
";

/// The number of the release, as `--version` prints it behind the name.
pub const RELEASE: &str = "0.21.0";
// commands.txt: END
