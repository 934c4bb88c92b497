// A file of events, whatever its language.
ghost use Rattle.std.specs.Prelude.{◌≡◌, ◌<◌, ◌∷◌, ℕ, List, [], length, take, drop, IfOk};
ghost use Rattle.rr_seam.specs.Stated.{AnswersStated, Stated};
ghost use Rattle.rr_seam.specs.declared.key.Key.{Key as KeyValue};

use crate::key::Key;
use crate::marks::Marks;
use crate::refusal::KeyFault;
use crate::words::KeyWords;
use rr_length::KeyLengths;
use rr_model::{Bytes, NoMemory, Series};
use std::alloc::Global;

/// The most bytes of a file.
pub const MAX_FILE: usize = 67_108_864;

/// Why a whole file is refused.
#[derive(Clone, Copy, Debug, PartialEq, Eq)]
pub enum FileRefusal {
    /// It has more than `MAX_FILE` bytes.
    TooLong,
    /// iCalendar and vCalendar: no line has the name BEGIN. Microsoft Graph: there is no list of events.
    NoEvents,
    /// A BEGIN or END on this line has no value, an END does not close the innermost open component, or the text ends within
    /// a component (then the line is the text's last).
    BadLine(u64),
    /// Microsoft Graph: it is no JSON in UTF-8.
    BadJson,
    /// It is one page of a list of Microsoft Graph, and more pages follow it.
    MorePages,
    /// The element of this number, from 1, of a list of Microsoft Graph is no event.
    BadEvent(u64),
}

/// What a call that reads a file answers in place of a value.
#[derive(Clone, Copy, Debug, PartialEq, Eq)]
pub enum FileFault {
    /// The file is refused, and this is why.
    Refused(FileRefusal),
    /// Out of memory; nothing is known of the file.
    NoMemory,
}

impl From<NoMemory> for FileFault {
    ghost use Rattle.std.specs.Prelude.{◌≡◌};
    ghost use Rattle.rr_seam.specs.declared.file.FileFault.TheVariants.{NoMemory};

    ghost from_gives = { λ _ e. e ≡ NoMemory };

    fn from(_error: NoMemory) -> Self {
        FileFault::NoMemory
    }
}

/// What the events of a key state in one calendar.
#[derive(Drop)]
pub struct KeySeries {
    /// The series of the events, with its instances as dates.
    pub series: Series,
    /// The names of their zones, empty if local time has none.
    pub zones: Vec<Bytes>,
    /// The place that a refusal by a limit is reported at.
    pub place: u64,
    /// How long its occurrences are; `None` if that can't be told of one of its events.
    pub lengths: Option<KeyLengths>,
    /// How it was read if it is at odds with RFC 5545.
    pub marks: Marks,
}

/// A file of events, whatever its language. Its events are told apart by their index, from 0.
pub trait EventFile {
    /// The keys of its events, in their order.
    ghost keys: { Self → List KeyValue };

    /// What the events of these indexes state together.
    ghost stated: { Self → List ℕ → Stated };

    /// The title of the event of an index, empty if it has none.
    ghost titles: { Self → ℕ → List ℕ };

    /// How many events it has.
    fn count(&self) -> usize
        ensures { result ≡ length (keys self.now) };

    /// The key of an event.
    fn key_at(&self, alloc: Global, index: usize) -> Result<Key, NoMemory>
        requires { index < length (keys self.now) }
        ensures { IfOk result (λ key. take 1 (drop index (keys self.now)) ≡ key ∷ []) };

    /// What the events of these indexes state together; an index beyond the last event adds nothing.
    fn key_series(&self, alloc: Global, indexes: &[usize]) -> Result<KeySeries, KeyFault>
        ensures { AnswersStated (stated self.now indexes.now) result };

    /// The words in which they state it: the lines that decide, whether a reader takes them or not.
    fn key_words(&self, alloc: Global, indexes: &[usize]) -> Result<KeyWords, NoMemory>
        ensures { IfOk result (λ words. words ≡ (stated self.now indexes.now).words) };

    /// The title of an event, empty if it has none (RFC 5545, section 3.8.1.12; Microsoft Graph, event, subject).
    fn title(&self, alloc: Global, index: usize) -> Result<Bytes, NoMemory>
        ensures { IfOk result (λ title. title ≡ titles self.now index) };
}
