// What C calls about whole calendars.
ghost use Rattle.std.specs.Prelude.{IfOk};
ghost use Rattle.rr_compare.specs.Outcomes.{outcome_is};
ghost use Rattle.rr_c.specs.Returned.{IsCalendarsAnswerToText, IsCalendarsReturned};

use crate::room::{NO_TEXT, leave};
use crate::words::words_in;
use rr_compare::{Outcome, Status, answer};
use rr_model::NoMemory;
use std::alloc::Global;

// The answer to words in one text, over the bytes of both files.
fn outcome_of(alloc: Global, words: &str, old: &[u8], new: &[u8]) -> Result<Outcome, NoMemory>
    ensures { IfOk result (λ x. IsCalendarsAnswerToText words.now old.now new.now (outcome_is x)) }
{
    let words = words_in(alloc, words)?;
    answer(alloc, words.as_slice(), old, new)
}

/// What `rr-calendars` answers to words over the bytes of both files, in `out`, and how many bytes that are, in `length`.
///
/// The words are those of the program's command line, in UTF-8, with a zero byte between each two. The names of the files count only in
/// that they are not empty, do not begin with `--`, and are not both `-`; with `--json` and `--html` they are told. There is no third text: words with `--zones` are other words, so what
/// defines zones stands in one of the two.
///
/// It returns the program's exit status: 0 if all events are equal, 1 if one differs or stands in one file alone, 2 if none does but one or a
/// file is refused, 3 for other words, 6 out of memory, and 7 for words that are no text. It returns 8 if `out` is too small: then
/// `length` is how many bytes the answer has. After 6, 7 and 8 `out` is as it was, and after 6 and 7 `length` is 0.
#[unsafe(no_mangle)]
pub extern "C" fn rr_calendars_answer(
    alloc: Global,
    words: &[u8],
    old: &[u8],
    new: &[u8],
    out: &mut [u8],
    length: &mut u64,
) -> u32
    ensures { IsCalendarsReturned words.now old.now new.now out.old out.new result length.new }
{
    *length = 0;
    let Ok(text) = str::from_utf8(words) else {
        return NO_TEXT;
    };
    match outcome_of(alloc, text, old, new) {
        Err(NoMemory) => Status::NoMemory.code() as u32,
        Ok(outcome) => leave(outcome.text.as_slice(), outcome.status.code(), out, length),
    }
}
