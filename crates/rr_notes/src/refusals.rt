// What to do about an answer, if that is another command or another word.
ghost use Rattle.std.specs.Prelude.{◌≡◌, map, option_map};
ghost use Rattle.rr_notes.specs.Advice.{advice, before_blank, note_on_line, note_on_no, note_on_refusal};

use rr_text::split_once;

const SEVERAL_EVENTS: &str =
    "the file has several events, or one that was moved by hand: 'rr-calendars OLD NEW' compares whole files";

const TOO_LONG: &str =
    "the text has more than 1,048,576 bytes: 'rr-calendars OLD NEW' compares whole calendars";

const UTC_MOMENT: &str =
    "the start is local time and another moment is in UTC: read it by the zone of the file, as in rrule@zone:FILE, or say how far local time is ahead then, as in rrule@+01:00:FILE";

const NOT_SYNCHRONISED: &str =
    "the rule does not choose the start: move the start to the first day that the rule chooses";

const NO_START: &str = "the text has no start; a rule alone says no dates";

const EXTENDED: &str = "a rule with RSCALE is read as rscale:FILE, and one without as rrule:FILE";

const CYCLE_TOO_LONG: &str =
    "the two repeat together too late: 'rr equal A B' compares them for ever";

// What stands before the first blank, all if there is none.
fn before_blank(text: &[u8]) -> &[u8]
    ensures { result.now ≡ before_blank text.now }
{
    match split_once(text, b' ') {
        Some((before, _)) => before,
        None => text,
    }
}

// What to do about a refusal of this name, of an operand or of both.
fn advice(side: &[u8], name: &[u8]) -> Option<&'static str>
    ensures { option_map (λ text. text.now) result ≡ advice side.now name.now }
{
    if name == b"SeveralEvents".as_slice() {
        Some(SEVERAL_EVENTS)
    } else if name == b"TooLong".as_slice() {
        Some(TOO_LONG)
    } else if name == b"UtcMoment".as_slice() {
        Some(UTC_MOMENT)
    } else if name == b"NotSynchronised".as_slice() {
        Some(NOT_SYNCHRONISED)
    } else if name == b"NoStart".as_slice() {
        Some(NO_START)
    } else if name == b"Extended".as_slice() {
        Some(EXTENDED)
    } else if name == b"CycleTooLong".as_slice() && side == b"both".as_slice() {
        Some(CYCLE_TOO_LONG)
    } else {
        None
    }
}

// What to do about a line of an answer, if it is a refusal.
fn note_on_line(line: &[u8]) -> Option<&'static str>
    ensures { option_map (λ text. text.now) result ≡ note_on_line line.now }
{
    let (first, rest) = split_once(line, b' ')?;
    if first != b"refused".as_slice() {
        return None;
    }
    let (side, refusal) = split_once(rest, b' ')?;
    advice(side, before_blank(refusal))
}

/// What to do about the refusal that an answer begins with, if it is one of those that an exported file meets first, or if another
/// command has no such limit. The first 64 bytes of the answer are enough.
pub fn note_on_refusal(answer: &[u8]) -> Option<&'static str>
    ensures { option_map (λ text. text.now) result ≡ note_on_refusal answer.now }
{
    let (line, _) = split_once(answer, b'\n')?;
    note_on_line(line)
}

/// What is said if the answer of these words is no, and that is not all.
pub fn note_on_no(words: &[&str]) -> Option<&'static str>
    ensures { option_map (λ text. text.now) result
        ≡ note_on_no (map (λ word. word.now) words.now) }
{
    let [name, ..] = words else {
        return None;
    };
    if *name == "between" {
        Some("there are more occurrences: the first 100,000 are printed")
    } else {
        None
    }
}
