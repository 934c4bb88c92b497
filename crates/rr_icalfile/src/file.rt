// A file that is an iCalendar text (RFC 5545).
ghost use Rattle.std.specs.Prelude.{◌≡◌, ◌<◌, ◌∷◌, ◌^◌, [], length, map, take, drop, All, IfOk};
ghost use Rattle.rr_events.specs.Finding.{lines_in};
ghost use Rattle.rr_seam.specs.Files.{AnswersCalendar};
ghost use Rattle.rr_icalfile.specs.Calendar.{calendar, calendar_in};
ghost use Rattle.rr_icalfile.specs.Files.{AnswersFile, IsNumberedPiece, file_fault};
ghost use Rattle.rr_icalfile.specs.Keys.{key_of};

use crate::key::key_of;
use crate::stated::{state_key, title_at, words_at};
use rr_events::{Piece, find_events, has_begin};
use rr_model::{Bytes, Fault, NoMemory, Refusal};
use rr_seam::{EventFile, FileFault, FileRefusal, Key, KeyFault, KeySeries, KeyWords, MAX_FILE};
use rr_text::without_mark;
use std::alloc::Global;
use std::marker::Model;

// The refusal of a file for a fault of its components.
fn file_fault(fault: Fault) -> FileFault
    ensures { result ≡ file_fault fault }
{
    match fault {
        Fault::NoMemory => FileFault::NoMemory,
        Fault::Refused(Refusal::BadLine(line)) => FileFault::Refused(FileRefusal::BadLine(line)),
        Fault::Refused(_) => FileFault::Refused(FileRefusal::BadLine(0)),
    }
}

// The events of a file, or why the whole file is refused: `TooLong`, then `NoEvents`, then the first fault of its components.
fn find_pieces<'a>(alloc: Global, bytes: &'a [u8]) -> Result<Vec<Piece<'a>>, FileFault>
    ensures answers { AnswersFile bytes.now result }
    ensures numbered { IfOk result (λ pieces. All IsNumberedPiece pieces.items) }
{
    if bytes.len() > MAX_FILE {
        return Err(FileFault::Refused(FileRefusal::TooLong));
    }
    let text = without_mark(bytes);
    if !has_begin(alloc, text)? {
        return Err(FileFault::Refused(FileRefusal::NoEvents));
    }
    match find_events(alloc, text) {
        Ok(pieces) => Ok(pieces),
        Err(fault) => Err(file_fault(fault)),
    }
}

// The key of the event of an index.
fn key_at(alloc: Global, pieces: &[Piece], index: usize) -> Result<Key, NoMemory>
    requires within { index < length pieces.now }
    requires numbered { All IsNumberedPiece pieces.now }
    ensures { IfOk result (λ key. take 1 (drop index (map key_of (map lines_in pieces.now)))
        ≡ key ∷ []) }
{
    key_of(alloc, pieces[index])
}

/// An iCalendar text, beside a stated offset of local time from UTC in seconds. Contracts see it as the lines of each of its events.
#[derive(Drop)]
pub struct IcalFile<'a> {
    offset: Option<i32>,
    lenient: bool,
    pieces: Vec<Piece<'a>>,
}

impl<'a> Model for IcalFile<'a> {
    ghost use Rattle.std.specs.Prelude.{map, All};
    ghost use Rattle.rr_events.specs.Finding.{lines_in};
    ghost use Rattle.rr_icalfile.specs.Calendar.{EventTexts};
    ghost use Rattle.rr_icalfile.specs.Files.{IsNumberedPiece};

    ghost Value = { EventTexts };

    ghost view = { λ f. record {
      offset = f.offset;
      lenient = f.lenient;
      texts = map lines_in f.pieces.items;
    } };

    ghost invariant = { λ f. All IsNumberedPiece f.pieces.items };
}

impl<'a> IcalFile<'a> {
    /// The file of these bytes beside a stated offset, or why the whole file is refused: `TooLong` for more than `MAX_FILE` bytes,
    /// then `NoEvents` if no line has the name BEGIN, then `BadLine` for the first fault of its components.
    ///
    /// If it is lenient, an EXDATE or a RECURRENCE-ID that is a date beside a start that is a moment is read as the occurrences of that
    /// day: as that date with the time of day of the series' start (RFC 5545, sections 3.8.4.4 and 3.8.5.1, ask for a moment). It is
    /// read so only if no RRULE or EXRULE of the series has a frequency below a day, BYHOUR, BYMINUTE or BYSECOND, and no RDATE of that
    /// day has another time of day; otherwise such a date is refused, as it is if the file is not lenient.
    pub fn read(
        alloc: Global,
        offset: Option<i32>,
        lenient: bool,
        bytes: &'a [u8],
    ) -> Result<IcalFile<'a>, FileFault>
        ensures { AnswersCalendar calendar_in (calendar offset lenient bytes.now) result }
    {
        let pieces = find_pieces(alloc, bytes)?;
        Ok(IcalFile {
            offset,
            lenient,
            pieces,
        })
    }
}

impl<'a> EventFile for IcalFile<'a> {
    ghost use Rattle.rr_icalfile.specs.Calendar.{calendar_in};

    ghost keys = { λ f. (calendar_in f).keys };

    ghost stated = { λ f. (calendar_in f).stated };

    ghost titles = { λ f. (calendar_in f).titles };

    fn count(&self) -> usize {
        self.pieces.len()
    }

    fn key_at(&self, alloc: Global, index: usize) -> Result<Key, NoMemory> {
        key_at(alloc, self.pieces.as_slice(), index)
    }

    fn key_series(&self, alloc: Global, indexes: &[usize]) -> Result<KeySeries, KeyFault> {
        state_key(
            alloc,
            self.offset,
            self.lenient,
            self.pieces.as_slice(),
            indexes,
        )
    }

    fn key_words(&self, alloc: Global, indexes: &[usize]) -> Result<KeyWords, NoMemory> {
        words_at(alloc, self.pieces.as_slice(), indexes)
    }

    fn title(&self, alloc: Global, index: usize) -> Result<Bytes, NoMemory> {
        title_at(alloc, self.pieces.as_slice(), index)
    }
}
