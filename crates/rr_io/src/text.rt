// Texts that write themselves, and how all of one is written.
ghost use Rattle.std.specs.Prelude.{◌≡◌, ℕ, List, [], IfOk, OnOk};
ghost use Rattle.std.specs.Io.Buffered.{writer_buffer, writer_contents};
ghost use Rattle.std.specs.Io.KnownBytes.{Appends};

use rr_model::NoMemory;
use std::alloc::Global;
use std::io::{self, BufWriter, Write};

/// A text that writes itself, so that a sink can take it piece by piece and it need never be in memory as a whole.
pub trait Text {
    /// All bytes of the text, in order.
    ghost bytes: { Self → List ℕ };

    /// Writes all bytes of the text, in order. It takes no memory itself and fails only if the writer does; a first part may have
    /// been written then.
    fn write_to<W: Write>(&self, out: &mut W) -> io::Result<()>
        ensures { OnOk result (Appends (W.contents out.old) (W.contents out.new) (bytes self.now)) };
}

/// Why a text was not written by pieces.
#[derive(Drop)]
pub enum PieceError {
    /// Out of memory for the buffer. Nothing was written.
    NoMemory,
    /// The writer has failed. It may have taken a first part of the text.
    Failed(io::Error),
}

// Writes a text, and then what is left of it in the buffer.
fn write_buffered<T: Text, W: Write + Drop>(text: &T, out: &mut BufWriter<W>) -> io::Result<()>
    ensures written { OnOk result (Appends (writer_contents W.contents out.old)
        (writer_contents W.contents out.new) (T.bytes text.now)) }
    ensures empty { OnOk result (writer_buffer out.new ≡ []) }
{
    text.write_to(out)?;
    out.flush()
}

/// Writes a text through a buffer of 8 KB, and gives back the writer that took all of it.
///
/// The buffer comes first, so that out of memory nothing has been written.
pub fn write_pieces<T: Text, W: Write + Drop>(
    alloc: Global,
    text: &T,
    out: W,
) -> Result<W, PieceError>
    ensures { IfOk result (λ w. Appends (W.contents out) (W.contents w) (T.bytes text.now)) }
{
    let Ok(mut buffered) = BufWriter::new(alloc, out) else {
        return Err(PieceError::NoMemory);
    };
    let ended = write_buffered(text, &mut buffered);
    // Without its buffer, which it would write once more if it were dropped after a fault.
    let (out, _buffer) = buffered.into_parts();
    match ended {
        Ok(()) => Ok(out),
        Err(error) => Err(PieceError::Failed(error)),
    }
}

/// The bytes of a text, as a whole.
pub fn whole<T: Text>(alloc: Global, text: &T) -> Result<Vec<u8>, NoMemory>
    ensures { IfOk result (λ v. v.items ≡ T.bytes text.now) }
{
    let mut bytes = Vec::new(alloc);
    match text.write_to(&mut bytes) {
        Ok(()) => Ok(bytes),
        Err(_) => Err(NoMemory),
    }
}
