// The sum of a file.
ghost use Rattle.std.specs.Prelude.{◌≡◌, IfOk, string_bytes};
ghost use Rattle.rr_facts.specs.Sum.{sum_text};

use rr_model::NoMemory;
use sha2::{Digest, Sha256};
use std::alloc::Global;

/// The SHA-256 of bytes (FIPS 180-4), as 64 hexadecimal digits.
#[tactic(auto, unfolding(crate::specs::Sum::sum_text))]
pub fn sum_of(alloc: Global, bytes: &[u8]) -> Result<String, NoMemory>
    ensures { IfOk result (λ text. string_bytes text ≡ sum_text bytes.now) }
{
    Ok(hex::encode(alloc, Sha256::digest(bytes))?)
}
