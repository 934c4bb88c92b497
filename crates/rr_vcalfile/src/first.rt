// The first event of a key.
ghost use Rattle.std.specs.Prelude.{◌≡◌, IfSome};
ghost use Rattle.std.proofs.Props.{props};
ghost use Rattle.rr_vcalfile.specs.Parts.{lines_in};
ghost use Rattle.rr_vcalfile.specs.Words.{event_words};

use crate::part::Part;
use rr_seam::EventWords;

/// The first event of a key, and its words if another one stands beside it.
#[derive(Drop)]
pub(crate) struct FirstEvent<'a> {
    /// The event, as a part of its text.
    pub(crate) part: Part<'a>,
    /// Its words, if they were asked for.
    pub(crate) words: Option<EventWords>,
    ghost known: { IfSome words (λ w. w ≡ event_words (lines_in part)) } by { Prim.hlevel props },
}
