// Lists in English: `A, B and C`.
ghost use Rattle.std.specs.Prelude.{◌≡◌, ◌++◌, OnOk};
ghost use Rattle.rr_wording.specs.Lists.{joint};

use crate::numbers::push;
use rr_model::NoMemory;

// Appends what stands behind a value that `more` values follow: `word` if it is the last but one, otherwise a comma.
#[tactic(auto, unfolding(crate::specs::Lists::joint))]
pub(crate) fn push_joint(out: &mut Vec<u8>, word: &[u8], more: usize) -> Result<(), NoMemory>
    ensures { OnOk result (out.new.items ≡ out.old.items ++ joint word.now more) }
{
    match more {
        0 => Ok(()),
        1 => push(out, word),
        _ => push(out, b", "),
    }
}
