// Where operands come from.
ghost use Rattle.std.specs.Prelude.{◌≡◌, ◌<◌, ◌^◌, ℕ, List, Option};

use rr_model::{MAX_INPUT, NoMemory};
use std::alloc::{AllocError, AllocFailed, Global};

/// Why a fetch gives no bytes.
#[derive(Clone, Copy, Debug, PartialEq, Eq)]
pub enum FetchError {
    /// The bytes could not be had, and the source has noted the name.
    Failed,
    /// Out of memory. No name was noted.
    NoMemory,
}

impl From<AllocError> for FetchError {
    ghost use Rattle.std.specs.Prelude.{◌≡◌};
    ghost use Rattle.rr_io.specs.declared.source.FetchError.TheVariants.{NoMemory};

    ghost from_gives = { λ _ e. e ≡ NoMemory };

    fn from(_error: AllocError) -> Self {
        FetchError::NoMemory
    }
}

impl<T: Drop> From<AllocFailed<T>> for FetchError {
    ghost use Rattle.std.specs.Prelude.{◌≡◌};
    ghost use Rattle.rr_io.specs.declared.source.FetchError.TheVariants.{NoMemory};

    ghost from_gives = { λ _ e. e ≡ NoMemory };

    fn from(_error: AllocFailed<T>) -> Self {
        FetchError::NoMemory
    }
}

impl From<NoMemory> for FetchError {
    ghost use Rattle.std.specs.Prelude.{◌≡◌};
    ghost use Rattle.rr_io.specs.declared.source.FetchError.TheVariants.{NoMemory};

    ghost from_gives = { λ _ e. e ≡ NoMemory };

    fn from(_error: NoMemory) -> Self {
        FetchError::NoMemory
    }
}

/// Named bytes that can be fetched.
pub trait Source {
    ghost use Rattle.rr_io.specs.Outside.{IsFrontIfTold, KeepsHeld, failed_after};

    /// The bytes under a name, if the source tells them.
    ghost held: { Self → List ℕ → Option (List ℕ) };

    /// The names whose fetch has failed, in order.
    ghost failed: { Self → List (List ℕ) };

    /// The bytes under a name, cut after `MAX_INPUT + 1` bytes: who gets `MAX_INPUT + 1` knows that there are too many.
    ///
    /// `Failed` comes only with the name at the end of those that have failed. `NoMemory` leaves these names as they were.
    fn fetch(&mut self, alloc: Global, name: &str) -> Result<Vec<u8>, FetchError>
        ensures bytes { IsFrontIfTold MAX_INPUT (held self.old name.now) result }
        ensures failed { failed self.new ≡ failed_after result name.now (failed self.old) }
        ensures held { KeepsHeld (held self.old) (held self.new) };

    /// The bytes under a name, cut after `limit + 1` bytes: who gets `limit + 1` knows that there are more than `limit`.
    ///
    /// `Failed` comes only with the name at the end of those that have failed. `NoMemory` leaves these names as they were.
    fn fetch_within(
        &mut self,
        alloc: Global,
        name: &str,
        limit: usize,
    ) -> Result<Vec<u8>, FetchError>
        requires { limit < 2 ^ 62 }
        ensures bytes { IsFrontIfTold limit (held self.old name.now) result }
        ensures failed { failed self.new ≡ failed_after result name.now (failed self.old) }
        ensures held { KeepsHeld (held self.old) (held self.new) };
}
