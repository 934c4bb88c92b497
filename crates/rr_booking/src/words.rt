// The words of a booking.
ghost use Rattle.std.specs.Prelude.{◌≡◌, ◌≤◌, length, option_map, IfOk, IfSome};
ghost use Rattle.rr_answer.specs.Parsed.{operand_in, words_of};
ghost use Rattle.rr_booking.specs.Booking.{booking_of, booking_with, other_of, other_with, others_of};
ghost use Rattle.rr_booking.specs.Parsed.{booking_in, is_all_read, other_in, others_in, three_in, three_of};

use crate::request::{Booking, MAX_LENGTH, Other};
use rr_answer::{Duration, Operand, number_between, operand_of};
use rr_model::NoMemory;
use std::alloc::Global;

/// What is said of words that are no booking.
pub const USAGE: &[u8] = b"usage: rr_clear_answer D A [E B LENGTH]...\n";

// One of the others, whose text is the first bytes of these; None if they are too few.
fn other_with<'a>(
    duration: Duration,
    operand: Operand<'a>,
    size: u64,
    bytes: &'a [u8],
) -> Option<Other<'a>>
    ensures value { option_map other_in result
        ≡ other_with duration (operand_in operand.entry) size bytes.now }
    ensures within { IfSome result (λ o. length o.text.now ≤ length bytes.now) }
{
    if size <= bytes.len() as u64 {
        Some(Other {
            duration: duration.get(),
            operand,
            text: &bytes[..size as usize],
        })
    } else {
        None
    }
}

// One of the others by its words; its text is the first bytes of these.
fn other_of<'a>(seconds: &str, word: &'a str, count: &str, bytes: &'a [u8]) -> Option<Other<'a>>
    ensures value { option_map other_in result
        ≡ other_of seconds.now word.now count.now bytes.now }
    ensures within { IfSome result (λ o. length o.text.now ≤ length bytes.now) }
{
    let duration = Duration::read(seconds)?;
    let operand = operand_of(word)?;
    let size = number_between(0, MAX_LENGTH, count)?;
    other_with(duration, operand, size, bytes)
}

// The words of one of the others.
#[derive(Clone, Copy)]
struct Three<'a> {
    seconds: &'a str,
    word: &'a str,
    count: &'a str,
}

// The first three of some words.
fn three_of<'a>(words: &[&'a str]) -> Option<Three<'a>>
    ensures three { option_map three_in result ≡ three_of (words_of words.now) }
    ensures enough { IfSome result (λ t. 3 ≤ length words.now) }
{
    match words {
        [seconds, word, count, ..] => Some(Three {
            seconds: *seconds,
            word: *word,
            count: *count,
        }),
        _ => None,
    }
}

// Whether no words and no bytes are left.
fn is_all_read(words: &[&str], bytes: &[u8]) -> bool
    ensures { result ≡ is_all_read (words_of words.now) bytes.now }
{
    match (words, bytes) {
        ([], []) => true,
        _ => false,
    }
}

// The others, each by three words; their texts stand one behind the other in the bytes, and nothing else does.
fn others_of<'a>(
    alloc: Global,
    words: &[&'a str],
    bytes: &'a [u8],
) -> Result<Option<Vec<Other<'a>>>, NoMemory>
    ensures { IfOk result
        (λ x. option_map others_in x ≡ others_of (words_of words.now) bytes.now) }
{
    let mut others = Vec::new(alloc);
    let mut left = words;
    let mut rest = bytes;
    while let Some(three) = three_of(left) {
        let Some(other) = other_of(three.seconds, three.word, three.count, rest) else {
            return Ok(None);
        };
        others.push(other)?;
        rest = &rest[other.text.len()..];
        left = &left[3..];
    }
    if is_all_read(left, rest) {
        Ok(Some(others))
    } else {
        Ok(None)
    }
}

// The booking of a candidate, with the words of the others.
fn booking_with<'a>(
    alloc: Global,
    duration: Duration,
    candidate: Operand<'a>,
    words: &[&'a str],
    bytes: &'a [u8],
) -> Result<Option<Booking<'a>>, NoMemory>
    ensures { IfOk result (λ x. option_map booking_in x
        ≡ booking_with duration (operand_in candidate.entry) (words_of words.now) bytes.now) }
{
    match others_of(alloc, words, bytes) {
        Err(NoMemory) => Err(NoMemory),
        Ok(None) => Ok(None),
        Ok(Some(others)) => Ok(Some(Booking {
            duration,
            candidate,
            others,
        })),
    }
}

/// The booking that the words are: the seconds and the operand of the candidate, then of each of the others its seconds, its operand and how many bytes
/// its text has. The texts of the others are the bytes, one behind the other. None if the words are none, or the lengths do not add up to the bytes.
#[tactic(auto, unfolding(crate::specs::Booking::booking_of))]
pub fn parse<'a>(
    alloc: Global,
    words: &[&'a str],
    bytes: &'a [u8],
) -> Result<Option<Booking<'a>>, NoMemory>
    ensures { IfOk result
        (λ x. option_map booking_in x ≡ booking_of (words_of words.now) bytes.now) }
{
    let [seconds, word, others @ ..] = words else {
        return Ok(None);
    };
    let Some(duration) = Duration::read(seconds) else {
        return Ok(None);
    };
    let Some(candidate) = operand_of(word) else {
        return Ok(None);
    };
    booking_with(alloc, duration, candidate, others, bytes)
}
