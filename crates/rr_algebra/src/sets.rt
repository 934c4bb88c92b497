// The time sets of a descriptor, each on a line of its own.
ghost use Rattle.std.specs.Prelude.{◌≡◌, ◌+◌, ◌<◌, ◌≤◌, ◌++◌, ◌∷◌, [], IfOk, OnOk, get_or, length};
ghost use Rattle.rr_model.specs.Rising.Sets.{IsSecondsOfDay};
ghost use Rattle.rr_model.specs.Sets.Sizes.{total_size};
ghost use Rattle.rr_model.specs.declared.limits.TheConstants.{MAX_SECONDS};
ghost use Rattle.rr_shapes.specs.Numbering.{IsNumbering};
ghost use Rattle.rr_algebra.specs.SetLines.{FindsSets, RefusedWhereKnown, RefusedWhereNoSets};

use crate::runs::begins_with;
use crate::seconds::take_seconds;
use rr_model::{Fault, Refusal};
use rr_shapes::Shapes;
use std::alloc::Global;

// Adds a time set that is not there yet.
fn add_set(alloc: Global, shapes: &mut Shapes, seconds: &[u32], count: usize) -> Result<(), Fault>
    requires of_day { IsSecondsOfDay seconds.now }
    requires count { count ≡ length shapes.old }
    ensures added { OnOk result (shapes.new ≡ shapes.old ++ seconds.now ∷ []) }
    ensures few { OnOk result (length shapes.new ≤ MAX_SECONDS + 1) }
    ensures room { OnOk result (total_size shapes.new ≤ MAX_SECONDS) }
    ensures numbering { OnOk result (IsNumbering shapes.new) }
    ensures refused { RefusedWhereKnown shapes.old seconds.now result }
{
    match shapes.place_seconds(alloc, seconds) {
        Ok(set) => {
            if set.number as usize == count {
                Ok(())
            } else {
                Err(Fault::Refused(Refusal::NotCanonical))
            }
        }
        Err(Fault::Refused(_)) => Err(Fault::Refused(Refusal::NotCanonical)),
        Err(Fault::NoMemory) => Err(Fault::NoMemory),
    }
}

/// Adds the time sets of the lines at the front, and gives how many sets there are then, and what follows the lines. A set
/// that stands twice is refused, and so are too many seconds.
pub fn take_sets<'a>(
    alloc: Global,
    text: &'a [u8],
    shapes: &mut Shapes,
) -> Result<(usize, &'a [u8]), Fault>
    requires { shapes.old ≡ [] ∷ [] }
    ensures count { IfOk result (λ x. x.0 ≡ length shapes.new) }
    ensures some { IfOk result (λ x. 1 ≤ x.0) }
    ensures few { IfOk result (λ x. x.0 ≤ MAX_SECONDS + 1) }
    ensures room { IfOk result (λ x. total_size shapes.new ≤ MAX_SECONDS) }
    ensures numbering { IfOk result (λ x. IsNumbering shapes.new) }
    ensures first { IfOk result (λ x. get_or shapes.new 0 [] ≡ []) }
    ensures found { IfOk result (λ x. FindsSets text.now shapes.new x.1.now) }
    ensures refused { RefusedWhereNoSets text.now result }
{
    let mut count = 1;
    let mut rest = text;
    'sets: while begins_with(rest, b't') {
        let (seconds, after) = match take_seconds(alloc, rest) {
            Ok(found) => found,
            Err(fault) => return Err(fault),
        };
        match add_set(alloc, shapes, seconds.as_slice(), count) {
            Ok(()) => count += 1,
            Err(fault) => return Err(fault),
        }
        rest = after;
    }
    Ok((count, rest))
}
