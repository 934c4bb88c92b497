// Two calendars, key by key.
ghost use Rattle.std.specs.Prelude.{◌≡◌, ◌<◌, All, IfOk, OnOk, length, option_map, slice_get, Some};
ghost use Rattle.rr_groups.specs.Groups.{AreGroups};
ghost use Rattle.rr_seam.specs.Stated.{calendar_by};
ghost use Rattle.rr_trip.specs.Found.{AreSound};
ghost use Rattle.rr_trip.specs.Known.{AreKnown};
ghost use Rattle.rr_trip.specs.Pairs.{IsSaidOfJudged, IsSound, marks_of_judged};
ghost use Rattle.rr_trip.specs.Report.{AreLinesFrom, IsLineOf, IsReport};
ghost use Rattle.rr_trip.specs.Said.{IsPrintableSaid};
ghost use Rattle.rr_trip.specs.Subjects.{partner_in, subject_in};
ghost use Rattle.rr_trip.specs.Zoned.{zoned};

use crate::found::{FoundAgain, found_again};
use crate::known::KnownZones;
use crate::pair::{Judged, judge_key};
use crate::parts::parts_if;
use crate::report::{Partner, Report, ReportLine};
use crate::subject::{LineSubject, SubjectPartner, subject_of};
use crate::title::title_of;
use crate::watch::Watch;
use crate::zones::said_of;
use rr_groups::{Group, groups_of, keys_of};
use rr_model::{Bytes, NoMemory};
use rr_seam::{EventFile, copy_key};
use rr_true::ZoneNames;
use std::alloc::Global;

// The key in B, in memory of its own.
fn partner_of(alloc: Global, partner: Option<SubjectPartner>) -> Result<Option<Partner>, NoMemory>
    ensures { IfOk result (λ made. made ≡ option_map partner_in partner.entry) }
{
    match partner {
        None => Ok(None),
        Some(partner) => Ok(Some(Partner {
            key: copy_key(alloc, partner.key)?,
            has_other_title: partner.has_other_title,
        })),
    }
}

// The line of events, by what is known of them, with this title.
fn line_of<M: ZoneNames, N: ZoneNames>(
    alloc: Global,
    known: &mut KnownZones,
    names_a: &M,
    names_b: &N,
    subject: LineSubject,
    judged: &Judged,
    title: Option<Bytes>,
) -> Result<ReportLine, NoMemory>
    requires known { AreKnown (M.meaning names_a.now) (N.meaning names_b.now) known.old }
    requires judged { IsSound judged.now }
    ensures known { OnOk result
        (AreKnown (M.meaning names_a.now) (N.meaning names_b.now) known.new) }
    ensures line { IfOk result (λ line. (line.key ≡ (subject_in subject.entry).key)
        × (line.partner ≡ (subject_in subject.entry).partner) × (line.title ≡ title)
        × (line.in_a.items ≡ (subject_in subject.entry).a) × (line.in_b.items ≡ (subject_in subject.entry).b)
        × (line.marks ≡ marks_of_judged judged.now) × IsSaidOfJudged (M.meaning names_a.now) (N.meaning names_b.now) judged.now line.said
        × IsPrintableSaid line.said) }
{
    let key = copy_key(alloc, subject.key)?;
    let partner = partner_of(alloc, subject.partner)?;
    let said = said_of(alloc, known, names_a, names_b, judged)?;
    Ok(ReportLine {
        key,
        partner,
        said,
        marks: judged.marks(),
        title,
        in_a: subject.a.to_vec(alloc)?,
        in_b: subject.b.to_vec(alloc)?,
    })
}

// The line of events of both calendars.
fn line_of_subject<A: EventFile, B: EventFile, M: ZoneNames, N: ZoneNames>(
    alloc: Global,
    known: &mut KnownZones,
    a: &A,
    names_a: &M,
    b: &B,
    names_b: &N,
    subject: LineSubject,
    titles: bool,
) -> Result<ReportLine, NoMemory>
    requires { AreKnown (M.meaning names_a.now) (N.meaning names_b.now) known.old }
    ensures known { OnOk result
        (AreKnown (M.meaning names_a.now) (N.meaning names_b.now) known.new) }
    ensures line { IfOk result (IsLineOf titles
        (zoned (calendar_by (A.keys a.now) (A.stated a.now) (A.titles a.now)) (M.meaning names_a.now))
        (zoned (calendar_by (B.keys b.now) (B.stated b.now) (B.titles b.now)) (N.meaning names_b.now))
        (subject_in subject.entry)) }
{
    let judged = judge_key(alloc, a, subject.a, b, subject.b)?;
    let title = title_of(alloc, titles, a, subject.a, b, subject.b)?;
    line_of(alloc, known, names_a, names_b, subject, &judged, title)
}

// The lines of groups, of which these are found again.
fn lines_of<A: EventFile, B: EventFile, M: ZoneNames, N: ZoneNames, W: Watch>(
    alloc: Global,
    a: &A,
    names_a: &M,
    b: &B,
    names_b: &N,
    groups: &[Group],
    found: &FoundAgain,
    titles: bool,
    watch: &mut W,
) -> Result<Vec<ReportLine>, NoMemory>
    requires { AreSound (length groups.now) found.now }
    ensures lines { IfOk result (λ lines. AreLinesFrom titles
        (zoned (calendar_by (A.keys a.now) (A.stated a.now) (A.titles a.now)) (M.meaning names_a.now))
        (zoned (calendar_by (B.keys b.now) (B.stated b.now) (B.titles b.now)) (N.meaning names_b.now))
        groups.now found.now 0 lines.items) }
    ensures printable { IfOk result (λ lines. All (λ line. IsPrintableSaid line.said) lines.items) }
{
    let mut known = KnownZones::new(alloc);
    let mut lines = Vec::new(alloc);
    for index in 0..groups.len() {
        if found.b[index].is_none() {
            let subject = subject_of(groups, index, found.a[index]);
            let line = line_of_subject(alloc, &mut known, a, names_a, b, names_b, subject, titles)?;
            lines.push(line)?;
        }
        watch.on_judged(index + 1, groups.len());
    }
    Ok(lines)
}

// The report of two calendars.
fn report_of<A: EventFile, B: EventFile, M: ZoneNames, N: ZoneNames, W: Watch>(
    alloc: Global,
    a: &A,
    names_a: &M,
    b: &B,
    names_b: &N,
    by_uid: bool,
    titles: bool,
    watch: &mut W,
) -> Result<Report, NoMemory>
    ensures { IfOk result (λ report. IsReport by_uid titles
        (zoned (calendar_by (A.keys a.now) (A.stated a.now) (A.titles a.now)) (M.meaning names_a.now))
        (zoned (calendar_by (B.keys b.now) (B.stated b.now) (B.titles b.now)) (N.meaning names_b.now))
        report.lines.items) }
{
    let keys_a = keys_of(alloc, a)?;
    let keys_b = keys_of(alloc, b)?;
    let by_key = groups_of(alloc, &keys_a, &keys_b)?;
    let groups = parts_if(alloc, by_uid, by_key)?;
    let found = found_again(alloc, a, names_a, b, names_b, &groups, by_uid)?;
    Ok(Report {
        lines: lines_of(
            alloc, a, names_a, b, names_b, &groups, &found, titles, watch,
        )?,
    })
}

/// Compares two calendars, each in its language, by what the names of zones mean in each: each key of either has one line, in
/// the order of the keys, which says what is so of its events; if titles are asked for, with the title of its first event in A,
/// otherwise in B. Keys that one calendar alone has are looked for in the other by their titles and first occurrences, unless events
/// are to be found by their UID alone: a pair has one line, at the place of its key in A. What a name means is asked once of each
/// calendar. The watch is told of each key that is judged, and that the comparison has ended.
pub fn compare<A: EventFile, B: EventFile, M: ZoneNames, N: ZoneNames, W: Watch>(
    alloc: Global,
    a: &A,
    names_a: &M,
    b: &B,
    names_b: &N,
    by_uid: bool,
    titles: bool,
    watch: &mut W,
) -> Result<Report, NoMemory>
    ensures { IfOk result (λ report. IsReport by_uid titles
        (zoned (calendar_by (A.keys a.now) (A.stated a.now) (A.titles a.now)) (M.meaning names_a.now))
        (zoned (calendar_by (B.keys b.now) (B.stated b.now) (B.titles b.now)) (N.meaning names_b.now))
        report.lines.items) }
{
    let answered = report_of(alloc, a, names_a, b, names_b, by_uid, titles, watch);
    watch.on_ended();
    answered
}
