// The time parts of a rule, filled from its start (RFC 5545, section 3.3.10).
ghost use Rattle.std.specs.Prelude.{IfOk};
ghost use Rattle.rr_expand.specs.UnitTimes.{AreAllowedNumbers};

use rr_model::Numbers;
use rr_parts::allows_filled;
use std::alloc::{AllocError, Global};

// The numbers below `count` that the part allows; if it is absent and wanted, it has the start's own number alone.
pub(crate) fn allowed_numbers(
    alloc: Global,
    part: &Numbers,
    is_wanted: bool,
    own: u8,
    count: u8,
) -> Result<Vec<u32>, AllocError>
    ensures { IfOk result (λ v. AreAllowedNumbers is_wanted part.now own count v.items) }
{
    let mut numbers = Vec::new(alloc);
    for n in 0..count {
        if allows_filled(part, is_wanted, own, n) {
            numbers.push(u32::from(n))?;
        }
    }
    Ok(numbers)
}
