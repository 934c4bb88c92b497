// What is said of each key of two calendars, and how many of each there are.
ghost use Rattle.std.specs.Prelude.{◌≡◌};
ghost use Rattle.rr_trip.specs.Counts.{count_matched, count_said, counts_of, differs, is_alike, is_counted, is_equal, is_in_utc, is_only, is_refused, is_unsure, is_utc, status_of};

use crate::said::{Said, Zones};
use rr_model::{Bytes, Refusal, Side, Verdict};
use rr_seam::{Key, KeyRefusal, Marks};

/// The key of events in B that have another one in A.
#[derive(Drop)]
pub struct Partner {
    /// The key that they have in B.
    pub key: Key,
    /// Whether their title is another one too: they are found again by their first occurrences alone.
    pub has_other_title: bool,
}

/// What is said of one key.
#[derive(Drop)]
pub struct ReportLine {
    /// The key; if its events have another one in B, the key in A.
    pub key: Key,
    /// The key in B, if it is another one.
    pub partner: Option<Partner>,
    /// What is said of it.
    pub said: Said,
    /// How its events are read in A or in B, if they are compared, and at odds with RFC 5545.
    pub marks: Marks,
    /// The title of its first event in A, otherwise in B, if titles are asked for.
    pub title: Option<Bytes>,
    /// The indexes of its events in A.
    pub in_a: Vec<usize>,
    /// The indexes of its events in B.
    pub in_b: Vec<usize>,
}

/// What is said of each key of two calendars, in the order of the keys.
#[derive(Drop)]
pub struct Report {
    /// One line for each key.
    pub lines: Vec<ReportLine>,
}

/// How many keys there are, and of how many each is said.
#[derive(Clone, Copy)]
pub struct Counts {
    /// How many keys there are in all.
    pub events: usize,
    /// Those with equal occurrences for all years to come.
    pub equal: usize,
    /// Those with an occurrence that one calendar alone has or that is of two lengths, or with a zone in one alone.
    pub differs: usize,
    /// Those of which A alone has events, not all of them cancelled.
    pub only_a: usize,
    /// Those of which B alone has events, not all of them cancelled.
    pub only_b: usize,
    /// Those whose events one of the calendars refuses.
    pub refused: usize,
    /// Those with equal local times of which nobody can tell whether they are the same moments: they are among the equal ones.
    pub zone: usize,
    /// Those that both calendars refuse and state in the same words: they are not among the refused ones.
    pub alike: usize,
    /// Those that are found again in B under another key: they are counted above too, each pair once.
    pub matched: usize,
}

/// How a comparison ends, which becomes the exit status.
#[derive(Clone, Copy)]
pub enum Status {
    /// All keys are equal or alike.
    Equal,
    /// A key differs, has an occurrence of two lengths, or stands in one calendar alone.
    Differs,
    /// Neither, but a key or a file is refused, or nobody can tell of one that is equal.
    Refused,
}

/// Whether the events of a key have equal occurrences in both.
pub(crate) fn is_equal(said: Said) -> bool
    ensures { result ≡ is_equal said }
{
    matches!(
        said,
        Said::Compared {
            verdict: Verdict::Yes,
            ..
        }
    )
}

fn differs(said: Said) -> bool
    ensures { result ≡ differs said }
{
    matches!(
        said,
        Said::Floating(_)
            | Said::Length(_)
            | Said::Compared {
                verdict: Verdict::No { .. },
                ..
            }
    )
}

fn is_only(side: Side, said: Said) -> bool
    ensures { result ≡ is_only side said }
{
    match said {
        Said::Only(only) => only == side,
        _ => false,
    }
}

fn is_refused(said: Said) -> bool
    ensures { result ≡ is_refused said }
{
    matches!(said, Said::Refused { .. })
}

// Whether both calendars refuse the events of a key and state them in the same words.
fn is_alike(said: Said) -> bool
    ensures { result ≡ is_alike said }
{
    matches!(said, Said::Alike(_))
}

/// Whether the events of a key have equal local times, and nobody can tell from the files whether they have the same moments.
pub(crate) fn is_unsure(said: Said) -> bool
    ensures { result ≡ is_unsure said }
{
    matches!(
        said,
        Said::Compared {
            verdict: Verdict::Yes,
            zones: Zones::Unknown,
        }
    )
}

// Whether a refusal is of a moment in UTC beside local time.
fn is_utc(refusal: KeyRefusal) -> bool
    ensures { result ≡ is_utc refusal }
{
    matches!(
        refusal,
        KeyRefusal::Event {
            refusal: Refusal::UtcMoment,
            ..
        }
    )
}

/// Whether events of a key are refused, by one calendar or alike by both, for a moment in UTC beside local time, which no stated
/// offset relates.
pub fn is_in_utc(said: Said) -> bool
    ensures { result ≡ is_in_utc said }
{
    match said {
        Said::Refused { refusal, .. } | Said::Alike(refusal) => is_utc(refusal),
        Said::Only(_) | Said::Floating(_) | Said::Length(_) | Said::Compared { .. } => false,
    }
}

// What is counted of the keys.
#[derive(Clone, Copy)]
enum Counted {
    Equal,
    Differs,
    Only(Side),
    Refused,
    Unsure,
    Alike,
    InUtc,
}

// Whether a key is counted so.
fn is_counted(counted: Counted, said: Said) -> bool
    ensures { result ≡ is_counted counted said }
{
    match counted {
        Counted::Equal => is_equal(said),
        Counted::Differs => differs(said),
        Counted::Only(side) => is_only(side, said),
        Counted::Refused => is_refused(said),
        Counted::Unsure => is_unsure(said),
        Counted::Alike => is_alike(said),
        Counted::InUtc => is_in_utc(said),
    }
}

// How many keys are counted so.
fn count_said(lines: &[ReportLine], counted: Counted) -> usize
    ensures { result ≡ count_said (is_counted counted) lines.now }
{
    lines
        .iter()
        .filter(|line| is_counted(counted, line.said))
        .count()
}

// How many lines are of events that have another key in B than in A.
fn count_matched(lines: &[ReportLine]) -> usize
    ensures { result ≡ count_matched lines.now }
{
    lines.iter().filter(|line| line.partner.is_some()).count()
}

impl Report {
    /// How many keys are refused for a moment in UTC beside local time.
    pub fn in_utc_count(&self) -> usize
        ensures { result ≡ count_said is_in_utc self.now.lines.items }
    {
        count_said(self.lines.as_slice(), Counted::InUtc)
    }

    /// How many keys there are, and of how many each is said.
    pub fn counts(&self) -> Counts
        ensures { result ≡ counts_of self.now.lines.items }
    {
        let lines = self.lines.as_slice();
        Counts {
            events: lines.len(),
            equal: count_said(lines, Counted::Equal),
            differs: count_said(lines, Counted::Differs),
            only_a: count_said(lines, Counted::Only(Side::A)),
            only_b: count_said(lines, Counted::Only(Side::B)),
            refused: count_said(lines, Counted::Refused),
            zone: count_said(lines, Counted::Unsure),
            alike: count_said(lines, Counted::Alike),
            matched: count_matched(lines),
        }
    }
}

impl Counts {
    /// How a comparison with these counts ends: `Differs` comes first, then `Refused`, also for an equal key of which
    /// nobody can tell the moments.
    pub fn status(self) -> Status
        ensures { result ≡ status_of self }
    {
        if self.differs > 0 || self.only_a > 0 || self.only_b > 0 {
            Status::Differs
        } else if self.refused > 0 || self.zone > 0 {
            Status::Refused
        } else {
            Status::Equal
        }
    }
}
