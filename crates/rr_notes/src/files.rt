// Why a file could not be read, and what is said if nothing is printed.
ghost use Rattle.rr_notes.specs.Visible.{IsVisibleNote};

use crate::visible::{shown, visible};
use std::alloc::{AllocError, Global};
use std::io::ErrorKind;

/// What is said if the output could not be put, or not all of it.
pub const WRITE_FAULT: &str = "the output could not be written";

/// What is said if memory was wanting.
pub const NO_MEMORY: &str = "out of memory";

/// What is said if a word is no text.
pub const NO_TEXT: &str = "a word is no text in UTF-8";

// Why a name could not be read, which is written as it is shown.
fn text_on_file(
    alloc: Global,
    name: &str,
    shown: &str,
    why: Option<ErrorKind>,
) -> Result<String, AllocError> {
    if name == "-" {
        return format!(in alloc; "standard input could not be read");
    }
    match why {
        Some(ErrorKind::NotFound) => format!(in alloc; "there is no file {shown}"),
        Some(ErrorKind::PermissionDenied) => format!(in alloc; "{shown} may not be read"),
        Some(ErrorKind::IsADirectory) => format!(in alloc; "{shown} is a folder"),
        _ => format!(in alloc; "{shown} could not be read"),
    }
}

/// Why a file could not be read, by the kind of its error.
pub fn note_on_file(alloc: Global, name: &str, why: Option<ErrorKind>) -> Result<String, AllocError>
    ensures { IsVisibleNote result }
{
    let name_shown = shown(alloc, name)?;
    let text = text_on_file(alloc, name, name_shown.as_str(), why)?;
    visible(alloc, text.as_bytes())
}
