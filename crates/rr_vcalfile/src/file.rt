// A file that is a vCalendar 1.0 text.
ghost use Rattle.rr_seam.specs.Files.{AnswersCalendar};
ghost use Rattle.rr_vcalfile.specs.Events.{file_events};
ghost use Rattle.rr_vcalfile.specs.Files.{calendar, calendar_in};
ghost use Rattle.rr_vcalfile.specs.Parts.{AnswersEvents};

use crate::event::keys_of;
use crate::find::text_parts;
use crate::part::Part;
use crate::series::key_series;
use crate::words::{title_at, words_at};
use rr_model::{Bytes, NoMemory};
use rr_seam::{
    EventFile, FileFault, FileRefusal, Key, KeyFault, KeySeries, KeyWords, MAX_FILE, copy_key,
};
use rr_text::without_mark;
use std::alloc::Global;

/// A vCalendar text with any number of events, beside a stated offset of local time from UTC in seconds.
#[derive(Drop)]
pub struct VcalFile<'a> {
    offset: Option<i32>,
    parts: Vec<Part<'a>>,
    keys: Vec<Key>,
}

// The events of a file.
fn file_parts<'a>(alloc: Global, bytes: &'a [u8]) -> Result<Vec<Part<'a>>, FileFault>
    ensures { AnswersEvents (file_events bytes.now) result }
{
    if bytes.len() > MAX_FILE {
        return Err(FileFault::Refused(FileRefusal::TooLong));
    }
    text_parts(alloc, without_mark(bytes))
}

impl<'a> VcalFile<'a> {
    /// Finds the events of a file, which are read when it is asked what they state.
    ///
    /// The offset is local time less UTC in seconds. It turns a moment of UTC that stands beside a start of local time, as
    /// `rr_vcal::read` does. Events are found as those of iCalendar, and one byte order mark is passed over. The first fault is
    /// the refusal: `TooLong` for more than `MAX_FILE` bytes, `NoEvents` without a line of the name BEGIN, `BadLine` for a
    /// BEGIN or END without a value, for an END that does not close the innermost open component, and, with the number of the
    /// last line, if the file ends within a component.
    ///
    /// It keeps the keys of the events, and some 80 bytes for each event and each part between two of them while it reads.
    pub fn read(alloc: Global, offset: Option<i32>, bytes: &'a [u8]) -> Result<Self, FileFault>
        ensures { AnswersCalendar calendar_in (calendar offset bytes.now) result }
    {
        let parts = file_parts(alloc, bytes)?;
        let keys = keys_of(alloc, &parts)?;
        Ok(VcalFile {
            offset,
            parts,
            keys,
        })
    }
}

impl<'a> EventFile for VcalFile<'a> {
    ghost use Rattle.std.specs.Prelude.{map};
    ghost use Rattle.rr_vcalfile.specs.Parts.{lines_in};
    ghost use Rattle.rr_vcalfile.specs.Stated.{stated_in, title_at};

    ghost keys = { λ f. f.keys.items };

    ghost stated = { λ f indexes. stated_in f.offset (map lines_in f.parts.items) indexes };

    ghost titles = { λ f index. title_at (map lines_in f.parts.items) index };

    fn count(&self) -> usize {
        self.keys.len()
    }

    fn key_at(&self, alloc: Global, index: usize) -> Result<Key, NoMemory> {
        copy_key(alloc, &self.keys[index])
    }

    fn key_series(&self, alloc: Global, indexes: &[usize]) -> Result<KeySeries, KeyFault> {
        key_series(alloc, self.offset, self.parts.as_slice(), indexes)
    }

    fn key_words(&self, alloc: Global, indexes: &[usize]) -> Result<KeyWords, NoMemory> {
        words_at(alloc, self.parts.as_slice(), indexes)
    }

    fn title(&self, alloc: Global, index: usize) -> Result<Bytes, NoMemory> {
        title_at(alloc, self.parts.as_slice(), index)
    }
}
