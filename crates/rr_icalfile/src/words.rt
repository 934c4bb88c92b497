// In which words an event is stated (RFC 5545, sections 3.1, 3.8.1.11, 3.8.2.4, 3.8.4.4 and 3.8.5).
ghost use Rattle.std.specs.Prelude.{◌≡◌, ◌<◌, ◌+◌, ◌^◌, length, map, IfOk};
ghost use Rattle.rr_events.specs.Finding.{lines_in};
ghost use Rattle.rr_icalfile.specs.Taken.{series_words, series_words_of};
ghost use Rattle.rr_icalfile.specs.Words.{event_words, words_of};

use crate::event::{is_cancelled, recurrence_of};
use rr_events::{Piece, deciding_lines, full_lines, own_lines};
use rr_model::{Bytes, Line, NoMemory};
use rr_seam::EventWords;
use std::alloc::Global;

// The words of an event with these own lines.
fn words_of(alloc: Global, own: &[&Line]) -> Result<EventWords, NoMemory>
    ensures { IfOk result (λ words. words ≡ words_of (map (λ line. line.now) own.now)) }
{
    let mut words = deciding_lines(alloc, own)?;
    if is_cancelled(own) {
        words.push(Bytes::of(alloc, b"STATUS:CANCELLED")?)?;
    }
    Ok(EventWords::of(words))
}

/// Reads the words of the event of a piece.
#[tactic(auto, using(crate::proofs::FullLemmas::words_full))]
pub(crate) fn read_words(alloc: Global, piece: Piece) -> Result<EventWords, NoMemory>
    requires { piece.first + length piece.text.now < 2 ^ 64 }
    ensures { IfOk result (λ words. words ≡ event_words (lines_in piece.entry)) }
{
    let lines = full_lines(alloc, piece)?;
    let own = own_lines(alloc, lines.as_slice())?;
    words_of(alloc, &own)
}

// The words of an event with these own lines, if it is a series.
fn series_words_of(alloc: Global, own: &[&Line]) -> Result<Option<EventWords>, NoMemory>
    ensures { IfOk result (λ words. words ≡ series_words_of (map (λ line. line.now) own.now)) }
{
    if recurrence_of(alloc, own)?.is_some() {
        return Ok(None);
    }
    Ok(Some(words_of(alloc, own)?))
}

/// Reads the words of the event of a piece, if it is a series, which has no RECURRENCE-ID.
#[tactic(auto, using(crate::proofs::FullLemmas::series_words_full))]
pub(crate) fn read_series_words(alloc: Global, piece: Piece) -> Result<Option<EventWords>, NoMemory>
    requires { piece.first + length piece.text.now < 2 ^ 64 }
    ensures { IfOk result (λ words. words ≡ series_words (lines_in piece.entry)) }
{
    let lines = full_lines(alloc, piece)?;
    let own = own_lines(alloc, lines.as_slice())?;
    series_words_of(alloc, &own)
}
