// An event of a vCalendar text as a part of it (vCalendar 1.0, section 2.1).
ghost use Rattle.std.specs.Prelude.{◌<◌, ◌+◌, ◌^◌, length};

/// The part of a text that is an event, from its BEGIN to its END.
#[derive(Clone, Copy)]
pub(crate) struct Part<'a> {
    /// Its bytes, as they stand in the text.
    pub(crate) text: &'a [u8],
    /// The number of its first physical line in the whole text, from 1.
    pub(crate) first: u64,
    ghost numbered: { first + length text.now < 2 ^ 64 },
}
