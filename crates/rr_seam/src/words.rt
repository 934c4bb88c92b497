// In which words the events of a key are stated, so that two files can be told to state the same though it is refused.
ghost use Rattle.std.specs.Prelude.{◌≡◌, bytes_eq, count_by, nat_le};
ghost use Rattle.std.specs.List.{list_all};
ghost use Rattle.rr_seam.specs.Words.{are_same_events, are_same_lines, are_same_words, is_as_often, share_lines, words_in};

use rr_model::Bytes;
use std::marker::Model;

/// The most events and lines of a key whose words are compared: each is compared with each, and a file may be made to be slow.
pub const MAX_WORDS: usize = 1_000;

/// In what language a file of events is written.
#[derive(Clone, Copy, Debug, PartialEq, Eq)]
pub enum Language {
    /// iCalendar, a text of RFC 5545.
    Ics,
    /// A list of events of Microsoft Graph, in JSON.
    Graph,
    /// vCalendar 1.0, the text that came before iCalendar.
    Vcal,
}

/// The lines of one event that decide its occurrences, unfolded.
#[derive(Drop)]
pub struct EventWords {
    lines: Vec<Bytes>,
}

impl Model for EventWords {
    ghost use Rattle.std.specs.Prelude.{List, ℕ};

    ghost Value = { List (List ℕ) };

    ghost view = { λ w. w.lines.items };
}

impl EventWords {
    /// The words of an event with these lines, which are unfolded.
    pub fn of(lines: Vec<Bytes>) -> EventWords
        ensures { result ≡ lines.items }
    {
        EventWords { lines }
    }

    /// The lines, unfolded, in the order of the file.
    pub fn lines(&self) -> &[Bytes]
        ensures { result.now ≡ self.now }
    {
        self.lines.as_slice()
    }
}

/// The lines that decide the occurrences of the events of a key, event by event.
#[derive(Drop)]
pub struct KeyWords {
    language: Language,
    events: Vec<EventWords>,
}

impl Model for KeyWords {
    ghost use Rattle.rr_seam.specs.Words.{Words};

    ghost Value = { Words };

    ghost view = { λ w. record { language = w.language; events = w.events.items } };
}

impl KeyWords {
    /// The words of a key whose events have these words, in this language.
    pub fn of(language: Language, events: Vec<EventWords>) -> KeyWords
        ensures { result ≡ record { language = language; events = events.items } }
    {
        KeyWords { language, events }
    }

    fn language(&self) -> Language
        ensures { result ≡ self.now.language }
    {
        self.language
    }

    fn events(&self) -> &[EventWords]
        ensures { result.now ≡ self.now.events }
    {
        self.events.as_slice()
    }
}

// Whether the lines of two languages are compared as they stand.
fn share_lines(a: Language, b: Language) -> bool
    ensures { result ≡ share_lines a b }
{
    matches!(
        (a, b),
        (Language::Ics, Language::Ics) | (Language::Vcal, Language::Vcal)
    )
}

fn is_line(line: &Bytes, other: &Bytes) -> bool
    ensures { result ≡ bytes_eq line.now other.now }
{
    line.as_slice() == other.as_slice()
}

// How often a line is among these.
fn line_count(line: &Bytes, lines: &[Bytes]) -> usize
    ensures { result ≡ count_by (bytes_eq line.now) lines.now }
{
    lines.iter().filter(|other| is_line(line, other)).count()
}

// Whether a line is as often among the one as among the other.
#[tactic(auto, unfolding(crate::specs::Words::is_as_often))]
fn is_line_as_often(line: &Bytes, a: &[Bytes], b: &[Bytes]) -> bool
    ensures { result ≡ is_as_often bytes_eq a.now b.now line.now }
{
    line_count(line, a) == line_count(line, b)
}

// Whether each line of the one is as often among the other.
fn are_lines_as_often(a: &[Bytes], b: &[Bytes]) -> bool
    ensures { result ≡ list_all (is_as_often bytes_eq a.now b.now) a.now }
{
    for line in a {
        if !is_line_as_often(line, a, b) {
            return false;
        }
    }
    true
}

// Whether the lines are the same, in any order, and not more than `MAX_WORDS`.
fn are_same_lines(a: &[Bytes], b: &[Bytes]) -> bool
    ensures { result ≡ are_same_lines a.now b.now }
{
    a.len() <= MAX_WORDS && (a.len() == b.len() && are_lines_as_often(a, b))
}

/// Whether two events are stated by the same lines, in any order. Of more than `MAX_WORDS` lines that is not told.
pub fn are_same_event(event: &EventWords, other: &EventWords) -> bool
    ensures { result ≡ are_same_lines event.now other.now }
{
    are_same_lines(event.lines(), other.lines())
}

// How often an event with the same lines is among these.
fn event_count(event: &EventWords, events: &[EventWords]) -> usize
    ensures { result ≡ count_by (are_same_lines event.now) events.now }
{
    events
        .iter()
        .filter(|other| are_same_event(event, other))
        .count()
}

// Whether an event is as often among the one as among the other.
#[tactic(auto, unfolding(crate::specs::Words::is_as_often))]
fn is_event_as_often(event: &EventWords, a: &[EventWords], b: &[EventWords]) -> bool
    ensures { result ≡ is_as_often are_same_lines a.now b.now event.now }
{
    event_count(event, a) == event_count(event, b)
}

// Whether each event of the one is as often among the other.
fn are_events_as_often(a: &[EventWords], b: &[EventWords]) -> bool
    ensures { result ≡ list_all (is_as_often are_same_lines a.now b.now) a.now }
{
    for event in a {
        if !is_event_as_often(event, a, b) {
            return false;
        }
    }
    true
}

// Whether events and lines together are at most `MAX_WORDS`.
fn are_few(events: &[EventWords]) -> bool
    ensures { result ≡ nat_le (words_in events.now) MAX_WORDS }
{
    let mut left = MAX_WORDS;
    for event in events {
        let count = event.lines().len();
        if count >= left {
            return false;
        }
        left -= count + 1;
    }
    true
}

// Whether the events have the same lines, in any order, and together are at most `MAX_WORDS`.
fn are_same_events(a: &[EventWords], b: &[EventWords]) -> bool
    ensures { result ≡ are_same_events a.now b.now }
{
    are_few(a) && (a.len() == b.len() && are_events_as_often(a, b))
}

/// Whether the events of a key are stated in the same words: both in iCalendar or both in vCalendar, as many events with the
/// same lines, in any order. Of more than `MAX_WORDS` events and lines together that is not told.
pub fn are_same_words(a: &KeyWords, b: &KeyWords) -> bool
    ensures { result ≡ are_same_words a.now b.now }
{
    share_lines(a.language(), b.language()) && are_same_events(a.events(), b.events())
}
