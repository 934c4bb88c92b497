// The top call.
ghost use Rattle.std.specs.Prelude.{◌≡◌, ◌⊎◌, IsNone};
ghost use Rattle.rr_compare.specs.Parsed.{asked_of_words};
ghost use Rattle.rr_calendars.specs.Run.{EndsAnswered, HasCause, IsComplete};

use crate::ended::Ended;
use crate::work::outcome_of;
use rr_compare::Status;
use rr_io::{FetchError, PutError, Sink, Source};
use rr_trip::Watch;
use std::alloc::Global;

/// Does what the words ask: fetches the two files, compares them, and puts the whole report at once.
///
/// The watch is told how far the comparison is, and that it has ended before anything is put. A fetch that fails ends the
/// run with `ReadFault`, a put that fails with `WriteFault`. `NoMemory` may come at any time.
pub fn run<S: Source, K: Sink, W: Watch>(
    alloc: Global,
    words: &[&str],
    source: &mut S,
    sink: &mut K,
    watch: &mut W,
) -> Ended
    // What is put is the answer to the words over the bytes that the source holds, and the status and the count are the answer's.
    ensures answer { EndsAnswered result.status result.in_utc (asked_of_words words.now)
        (S.held source.old) (K.written sink.old) (K.written sink.new) }

    // A fault is answered only if the fetch of a file or the put has failed, and then that alone.
    ensures cause { HasCause result.status (asked_of_words words.now)
        S.failed source.old source.new K.faults sink.old sink.new }

    // What `answer` says of usage and of a run that puts nothing, over a source that does not tell what it holds.
    ensures usage { result.status ≡ Status.Usage → IsNone (asked_of_words words.now) }
    ensures quiet { (result.status ≡ Status.ReadFault) ⊎ (result.status ≡ Status.NoMemory)
        → K.written sink.new ≡ K.written sink.old }

    // If nothing failed the answer comes, unless out of memory.
    ensures complete { IsComplete result.status (asked_of_words words.now) S.held
        S.failed source.old source.new K.faults sink.old sink.new }
{
    match outcome_of(alloc, words, source, watch) {
        Err(FetchError::Failed) => Ended {
            status: Status::ReadFault,
            in_utc: 0,
        },
        Err(FetchError::NoMemory) => Ended {
            status: Status::NoMemory,
            in_utc: 0,
        },
        Ok(outcome) => match sink.put(outcome.text.as_slice()) {
            Err(PutError::Failed) => Ended {
                status: Status::WriteFault,
                in_utc: 0,
            },
            Err(PutError::NoMemory) => Ended {
                status: Status::NoMemory,
                in_utc: 0,
            },
            Ok(()) => Ended {
                status: outcome.status,
                in_utc: outcome.in_utc,
            },
        },
    }
}
