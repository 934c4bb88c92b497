// Why the output could not be written.
ghost use Rattle.std.specs.Prelude.{◌≡◌, ◌↔◌};

use std::io::ErrorKind;

/// Why the output could not be written.
#[derive(Clone, Copy, Debug, PartialEq, Eq)]
pub enum WriteFault {
    /// Its reader has gone: it is a pipe that nobody reads any more.
    ReaderGone,
    /// Anything else, as a full disk.
    Other,
}

/// What an error of this kind says of the output that was written.
pub fn fault_of(kind: ErrorKind) -> WriteFault
    ensures { (result ≡ WriteFault.ReaderGone) ↔ (kind ≡ ErrorKind.BrokenPipe) }
{
    match kind {
        ErrorKind::BrokenPipe => WriteFault::ReaderGone,
        _ => WriteFault::Other,
    }
}
