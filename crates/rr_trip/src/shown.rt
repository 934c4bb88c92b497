// What is said of the events that are printed by one name, and where they differ.
ghost use Rattle.std.specs.Prelude.{◌≡◌, ◌++◌, IfOk, length, option_map};
ghost use Rattle.rr_days.specs.Sequence.{sketch};
ghost use Rattle.rr_seam.specs.Stated.{calendar_by};
ghost use Rattle.rr_trip.specs.Found.{AreSound};
ghost use Rattle.rr_trip.specs.Pairs.{IsPair, IsSound, days_b};
ghost use Rattle.rr_trip.specs.Shown.{IsPictureOfJudged, IsShownBy, IsShownIn, IsShownLine, IsShownSaid, IsTold, IsToldBy, IsUnknown, equal_status, keys_titled, said_status, shown_line};
ghost use Rattle.rr_trip.specs.Subjects.{partner_in, subject_in};
ghost use Rattle.rr_trip.specs.Zoned.{zoned};

use crate::found::{FoundAgain, found_again};
use crate::further::further_of;
use crate::grid::picture;
use crate::known::KnownZones;
use crate::name::shown_line;
use crate::pair::{Judged, KeyPair, judge_key};
use crate::parts::parts_if;
use crate::printing::{push, push_asked, push_further, push_said_line};
use crate::report::Status;
use crate::said::{Said, Zones};
use crate::subject::{LineSubject, SubjectPartner, subject_of};
use crate::title::title_of;
use crate::zones::said_of;
use rr_groups::{Group, groups_of, keys_of};
use rr_model::{Bytes, NoMemory, Verdict, day_part};
use rr_seam::{EventFile, Key};
use rr_true::ZoneNames;
use std::alloc::Global;

/// What is said of the events of one name.
#[derive(Drop)]
pub struct Shown {
    /// How the run ends, by what is said of these events alone.
    pub status: Status,
    /// What is printed of them, whole lines.
    pub text: Vec<u8>,
    /// What is said, if a calendar has such an event.
    pub said: Option<Said>,
}

// How it ends if local times are equal.
fn equal_status(zones: Zones) -> Status
    ensures { result ≡ equal_status zones }
{
    match zones {
        Zones::Local | Zones::Moments { .. } => Status::Equal,
        Zones::Unknown => Status::Refused,
    }
}

// How it ends if this is said of one key.
fn said_status(said: Said) -> Status
    ensures { result ≡ said_status said }
{
    match said {
        Said::Only(_) | Said::Floating(_) | Said::Length(_) => Status::Differs,
        Said::Refused { .. } => Status::Refused,
        Said::Alike(_) => Status::Equal,
        Said::Compared { verdict, zones } => match verdict {
            Verdict::Yes => equal_status(zones),
            Verdict::No { .. } => Status::Differs,
        },
    }
}

// How many occurrences exactly one has beside the first, and the picture of the months from a day on.
fn told(alloc: Global, pair: &KeyPair, day: i64) -> Result<Vec<u8>, NoMemory>
    requires { IsPair pair.now }
    ensures { IfOk result (λ text. IsTold (sketch pair.now.a.days) (sketch (days_b pair.now)) day
        text.items) }
{
    let b = pair.days_b();
    let further = further_of(alloc, pair)?;
    let mut text = Vec::new(alloc);
    push_further(&mut text, further)?;
    let months = picture(alloc, &pair.a.days, b, day)?;
    push(&mut text, &months)?;
    Ok(text)
}

// What is told of where local times differ, or nothing.
fn told_of_pair(alloc: Global, pair: &KeyPair) -> Result<Vec<u8>, NoMemory>
    requires { IsPair pair.now }
    ensures { IfOk result (λ text. IsToldBy pair.now.local (sketch pair.now.a.days)
        (sketch (days_b pair.now)) text.items) }
{
    match pair.local {
        Verdict::Yes => Ok(Vec::new(alloc)),
        Verdict::No { kind, at, .. } => told(alloc, pair, day_part(kind, at)),
    }
}

// The picture of where the events of a key differ, or nothing.
fn picture_of(alloc: Global, judged: &Judged) -> Result<Vec<u8>, NoMemory>
    requires { IsSound judged.now }
    ensures { IfOk result (λ text. IsPictureOfJudged judged.now text.items) }
{
    match judged {
        Judged::Told(_) => Ok(Vec::new(alloc)),
        Judged::Compared(pair) => told_of_pair(alloc, pair),
    }
}

// No event is printed so.
fn unknown_name(alloc: Global, name: &[u8]) -> Result<Shown, NoMemory>
    ensures { IfOk result (IsUnknown name.now) }
{
    let mut text = Vec::new(alloc);
    push(&mut text, b"unknown ")?;
    push_asked(&mut text, name)?;
    push(&mut text, b"\n")?;
    Ok(Shown {
        status: Status::Refused,
        text,
        said: None,
    })
}

// What is said of the events of a line, with this title.
fn show_subject<M: ZoneNames, N: ZoneNames>(
    alloc: Global,
    names_a: &M,
    names_b: &N,
    judged: &Judged,
    key: &Key,
    partner: Option<SubjectPartner>,
    title: &Option<Bytes>,
) -> Result<Shown, NoMemory>
    requires { IsSound judged.now }
    ensures { IfOk result (IsShownBy (M.meaning names_a.now) (N.meaning names_b.now) judged.now
        key.now (option_map partner_in partner.entry) title.now) }
{
    let mut known = KnownZones::new(alloc);
    let said = said_of(alloc, &mut known, names_a, names_b, judged)?;
    let mut text = Vec::new(alloc);
    push_said_line(alloc, &mut text, key, partner, said, judged.marks(), title)?;
    let picture = picture_of(alloc, judged)?;
    push(&mut text, &picture)?;
    Ok(Shown {
        status: said_status(said),
        text,
        said: Some(said),
    })
}

// What is shown of the events of a line.
fn show_line<A: EventFile, B: EventFile, M: ZoneNames, N: ZoneNames>(
    alloc: Global,
    a: &A,
    names_a: &M,
    b: &B,
    names_b: &N,
    subject: LineSubject,
    titles: bool,
) -> Result<Shown, NoMemory>
    ensures { IfOk result (IsShownSaid titles
        (zoned (calendar_by (A.keys a.now) (A.stated a.now) (A.titles a.now)) (M.meaning names_a.now))
        (zoned (calendar_by (B.keys b.now) (B.stated b.now) (B.titles b.now)) (N.meaning names_b.now))
        (subject_in subject.entry)) }
{
    let judged = judge_key(alloc, a, subject.a, b, subject.b)?;
    let title = title_of(alloc, titles, a, subject.a, b, subject.b)?;
    show_subject(
        alloc,
        names_a,
        names_b,
        &judged,
        subject.key,
        subject.partner,
        &title,
    )
}

// What is shown of a name, among groups of which these are found again.
fn show_among<A: EventFile, B: EventFile, M: ZoneNames, N: ZoneNames>(
    alloc: Global,
    a: &A,
    names_a: &M,
    b: &B,
    names_b: &N,
    groups: &[Group],
    found: &FoundAgain,
    name: &[u8],
    titles: bool,
) -> Result<Shown, NoMemory>
    requires { AreSound (length groups.now) found.now }
    ensures { IfOk result (IsShownLine titles
        (zoned (calendar_by (A.keys a.now) (A.stated a.now) (A.titles a.now)) (M.meaning names_a.now))
        (zoned (calendar_by (B.keys b.now) (B.stated b.now) (B.titles b.now)) (N.meaning names_b.now))
        groups.now found.now name.now (shown_line groups.now found.now name.now
        (keys_titled name.now (A.titles a.now) 0 (A.keys a.now) ++ keys_titled name.now (B.titles b.now) 0 (B.keys b.now)))) }
{
    match shown_line(alloc, a, b, groups, found, name)? {
        None => unknown_name(alloc, name),
        Some(index) => {
            let subject = subject_of(groups, index, found.a[index]);
            show_line(alloc, a, names_a, b, names_b, subject, titles)
        }
    }
}

/// What is said of the events of two calendars whose key is printed by this name, as in a report, with their title if titles are
/// asked for; and, if their local times differ, a picture of the month of the first that does and the two after it. If no key is
/// printed so, the name may be the title, as it is printed, of the events of one line alone. Otherwise no event has the name, and
/// that is said, with the name as it is printed. Keys that one calendar alone has are looked for in the other, unless events are to be
/// found by their UID alone; a pair is shown by either of its keys.
pub fn show<A: EventFile, B: EventFile, M: ZoneNames, N: ZoneNames>(
    alloc: Global,
    a: &A,
    names_a: &M,
    b: &B,
    names_b: &N,
    name: &[u8],
    by_uid: bool,
    titles: bool,
) -> Result<Shown, NoMemory>
    ensures { IfOk result (IsShownIn by_uid titles
        (zoned (calendar_by (A.keys a.now) (A.stated a.now) (A.titles a.now)) (M.meaning names_a.now))
        (zoned (calendar_by (B.keys b.now) (B.stated b.now) (B.titles b.now)) (N.meaning names_b.now))
        name.now) }
{
    let keys_a = keys_of(alloc, a)?;
    let keys_b = keys_of(alloc, b)?;
    let by_key = groups_of(alloc, &keys_a, &keys_b)?;
    let groups = parts_if(alloc, by_uid, by_key)?;
    let found = found_again(alloc, a, names_a, b, names_b, &groups, by_uid)?;
    show_among(alloc, a, names_a, b, names_b, &groups, &found, name, titles)
}
