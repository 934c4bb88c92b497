// The keys of a file.
ghost use Rattle.std.specs.Prelude.{◌≡◌, IfOk};

use rr_model::NoMemory;
use rr_seam::{EventFile, Key};
use std::alloc::Global;

/// The keys of the events of a file, in their order.
pub fn keys_of<F: EventFile>(alloc: Global, file: &F) -> Result<Vec<Key>, NoMemory>
    ensures { IfOk result (λ keys. keys.items ≡ F.keys file.now) }
{
    let mut keys = Vec::new(alloc);
    for index in 0..file.count() {
        keys.push(file.key_at(alloc, index)?)?;
    }
    Ok(keys)
}
