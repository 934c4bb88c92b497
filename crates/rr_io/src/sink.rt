// Where the output goes.
ghost use Rattle.std.specs.Prelude.{◌≤◌, ℕ, List, Option};

use crate::Text;
use rr_model::NoMemory;
use std::alloc::{AllocError, Global};

/// Why a put did not append all its bytes.
#[derive(Clone, Copy, Debug, PartialEq, Eq)]
pub enum PutError {
    /// The sink has failed and counted it. It may have taken a first part of the bytes.
    Failed,
    /// Out of memory, and nothing was appended.
    NoMemory,
}

impl From<AllocError> for PutError {
    ghost use Rattle.std.specs.Prelude.{◌≡◌};
    ghost use Rattle.rr_io.specs.declared.sink.PutError.TheVariants.{NoMemory};

    ghost from_gives = { λ _ e. e ≡ NoMemory };

    fn from(_error: AllocError) -> Self {
        PutError::NoMemory
    }
}

impl From<NoMemory> for PutError {
    ghost use Rattle.std.specs.Prelude.{◌≡◌};
    ghost use Rattle.rr_io.specs.declared.sink.PutError.TheVariants.{NoMemory};

    ghost from_gives = { λ _ e. e ≡ NoMemory };

    fn from(_error: NoMemory) -> Self {
        PutError::NoMemory
    }
}

/// Takes bytes, one after the other.
pub trait Sink {
    ghost use Rattle.rr_io.specs.Outside.{IsPut};

    /// The bytes so far, if the sink tells them.
    ghost written: { Self → Option (List ℕ) };

    /// How often a put has failed. It never falls, and stays at the last value of a `u64`.
    ghost faults: { Self → ℕ };

    /// Appends the bytes after those that the sink has.
    ///
    /// `Failed` comes only if `faults` rises or stands at its last value, and then a first part of the bytes may stand in the sink.
    fn put(&mut self, bytes: &[u8]) -> Result<(), PutError>
        ensures put { IsPut result bytes.now (written self.old) (written self.new)
            (faults self.old) (faults self.new) }
        ensures never_falls { faults self.old ≤ faults self.new };

    /// Appends the bytes of a text, as one put.
    ///
    /// A sink may take them piece by piece, so that the text is never in memory as a whole. What memory that wants is had before the
    /// first piece: with `NoMemory` nothing was appended, as after `put`.
    fn put_text<T: Text>(&mut self, alloc: Global, text: &T) -> Result<(), PutError>
        ensures put { IsPut result (T.bytes text.now) (written self.old) (written self.new)
            (faults self.old) (faults self.new) }
        ensures never_falls { faults self.old ≤ faults self.new };
}
