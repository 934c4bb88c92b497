// What a page says beside the line of an event of two calendars.
use crate::rows::rows_hold;
use rr_differ::Further;
use rr_icalfile::IcalFile;
use rr_model::{Series, Side};
use rr_seam::{EventFile, Key, Marks};
use rr_trip::*;
use std::alloc::Global;
use std::fmt::Write;

// The lines of an event of A and of B, none if a calendar has no event, and what is said beside the line of both: which of them state a
// series; how many differences come after the first; the first day of each month, and its signs; and the times, with `~` for a line break.
const DETAILS: &str = "\
DTSTART:20260302T090000~RRULE:FREQ=DAILY;COUNT=3 / DTSTART:20260302T090000~RRULE:FREQ=DAILY;COUNT=3|AB
DTSTART:20260302T090000~RRULE:FREQ=WEEKLY;COUNT=3 / DTSTART:20260302T090000~RRULE:FREQ=WEEKLY;COUNT=2|\
AB no more 20513 .=......=......A............... usually 09:00:00~
DTSTART:20260302T090000~RRULE:FREQ=DAILY;INTERVAL=30 / DTSTART:20260302T100000~RRULE:FREQ=DAILY;INTERVAL=30|\
AB for ever 20513 .x............................. 20544 x............................. 20574 x.............................x \
usually 09:00:00~2026-03-02 B 10:00:00~2026-04-01 B 10:00:00~2026-05-01 B 10:00:00~2026-05-31 B 10:00:00~
DTSTART:20260302T090000~RDATE:20260504T090000 / DTSTART:20260303T090000|\
AB 2 until 1777885200 20513 .AB............................ 20574 ...A........................... usually 09:00:00~
DTSTART:20260302T090000 / DTSTART:20261302T090000|A-
DTSTART:20261302T090000 / DTSTART:20260302T090000|-B
DTSTART:20260302T090000 / |A-
 / DTSTART:20260302T090000|-B
";

// The text of a calendar whose only event has these lines; of none if there are none.
fn calendar_text(alloc: Global, lines: &str) -> Option<String> {
    if lines.is_empty() {
        return format!(in alloc; "BEGIN:VCALENDAR\nEND:VCALENDAR\n").ok();
    }
    format!(in alloc; "BEGIN:VCALENDAR\nBEGIN:VEVENT\n{lines}\nEND:VEVENT\nEND:VCALENDAR\n").ok()
}

// The line of all events of both calendars.
fn line_of_all(alloc: Global, a: &IcalFile, b: &IcalFile) -> Option<ReportLine> {
    Some(ReportLine {
        key: Key::Line(1),
        partner: None,
        said: Said::Only(Side::A),
        marks: Marks::none(),
        title: None,
        in_a: (0..a.count()).collect(alloc).ok()?,
        in_b: (0..b.count()).collect(alloc).ok()?,
    })
}

// The name of a calendar, if it states a series.
fn side_said(series: &Option<Series>, name: &'static str) -> &'static str {
    if series.is_some() { name } else { "-" }
}

// How many differences come after the first.
fn say_further(said: &mut String, further: Further) -> Option<()> {
    match further {
        Further::NoMore => write!(said, " no more").ok(),
        Further::Until { count, last } => write!(said, " {count} until {}", last.at).ok(),
        Further::Many => write!(said, " many").ok(),
        Further::ForEver => write!(said, " for ever").ok(),
    }
}

// Appends where local times differ, and their signs day by day.
fn say_difference(alloc: Global, said: &mut String, difference: &Difference) -> Option<()> {
    say_further(said, difference.further)?;
    for month in &difference.months {
        let signs = str::from_utf8(month.signs.as_slice()).ok()?;
        write!(said, " {} {signs}", month.first).ok()?;
    }
    let times = str::from_utf8(difference.times.as_slice()).ok()?;
    let times = times.replace(alloc, "\n", "~").ok()?;
    write!(said, " {times}").ok()
}

// What is said of a detail.
fn detail_said(alloc: Global, detail: &Detail) -> Option<String> {
    let mut said = String::new(alloc);
    let a = side_said(&detail.series_a, "A");
    let b = side_said(&detail.series_b, "B");
    write!(said, "{a}{b}").ok()?;
    if let Some(difference) = &detail.difference {
        say_difference(alloc, &mut said, difference)?;
    }
    Some(said)
}

// What is said beside the line of the events of two calendars.
fn said_of_both(alloc: Global, given: &str) -> Option<String> {
    let (a, b) = given.split_once(" / ")?;
    let a = calendar_text(alloc, a)?;
    let b = calendar_text(alloc, b)?;
    let a = IcalFile::read(alloc, None, false, a.as_bytes()).ok()?;
    let b = IcalFile::read(alloc, None, false, b.as_bytes()).ok()?;
    let line = line_of_all(alloc, &a, &b)?;
    let detail = detail_of(alloc, &a, &b, &line).ok()?;
    detail_said(alloc, &detail)
}

#[test]
fn details_of_lines(rt: HostRuntime) {
    rows_hold(&rt, rt.alloc(), said_of_both, DETAILS);
}
