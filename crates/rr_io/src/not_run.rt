// Why the words of a program are not run.
use std::alloc::AllocFailed;
use std::io;

/// Why the words of a program are not run.
#[derive(Clone, Copy, Debug, PartialEq, Eq)]
pub enum NotRun {
    /// A word is no text: its bytes are not UTF-8.
    NoText,
    /// Out of memory for the words.
    NoMemory,
}

impl<T: Drop> From<AllocFailed<T>> for NotRun {
    fn from(_: AllocFailed<T>) -> NotRun {
        NotRun::NoMemory
    }
}

// An error of the words themselves: out of memory for one, or it is no text.
impl From<io::Error> for NotRun {
    fn from(error: io::Error) -> NotRun {
        if error.kind() == io::ErrorKind::OutOfMemory {
            NotRun::NoMemory
        } else {
            NotRun::NoText
        }
    }
}
