// An event of an iCalendar text as a part of it (RFC 5545, section 3.6.1).
ghost use Rattle.std.specs.Prelude.{◌<◌, ◌+◌, ◌^◌, length};

use rr_events::Piece;

/// The part of a text that is an event, from its BEGIN to its END.
#[derive(Clone, Copy)]
pub(crate) struct Part<'a> {
    /// Its bytes, and the number of its first physical line.
    pub(crate) piece: Piece<'a>,
    ghost numbered: { piece.first + length piece.text.now < 2 ^ 64 },
}
