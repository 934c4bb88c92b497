// The lines of an event, and the series of lists.
use crate::rows::{printed, rows_hold};
use rr_ical::*;
use rr_model::Fault;
use std::alloc::Global;
use std::fmt::Write;

// Texts, and their used lines with what stops the scan. The first has a time zone and an alarm, whose lines are not the event's.
const SCANS: &str = "\
BEGIN:VCALENDAR\r~BEGIN:VTIMEZONE\r~BEGIN:STANDARD\r~DTSTART:19701025T030000\r~\
RRULE:FREQ=YEARLY;BYMONTH=10;BYDAY=-1SU\r~END:STANDARD\r~END:VTIMEZONE\r~BEGIN:VEVENT\r~\
DTSTART;TZID=Europe/Berlin:20240103T100000\r~RRULE:FREQ=WEEKLY;\r~ BYDAY=WE\r~SUMMARY:Status\r~\
exdate;X=\"a:b\": 20240110T100000\t\r~BEGIN:VALARM\r~RDATE:20240101\r~END:VALARM\r~end:vevent\r~\
END:VCALENDAR\r~\
|9 Dtstart 20240103T100000|10 Rrule FREQ=WEEKLY;BYDAY=WE|13 Exdate 20240110T100000|None
|None
dtstart:x~RRULES:z~~EXRULE;a:b\r~|1 Dtstart x|4 Exrule b|None
R~ R~ U~ L~ E~ :~ y~RDATE:z|1 Rrule y|8 Rdate z|None
DTSTART;X=\"a:20240101~RDATE:|1 Dtstart 20240101|2 Rdate |None
DTSTART:x~RDATE~|1 Dtstart x|Some(BadLine(2))
DTSTART :x|Some(BadLine(1))
END:VEVENT|Some(BadLine(1))
BEGIN:VEVENT~DTSTART:x~~~|2 Dtstart x|Some(BadLine(4))
BEGIN:A~BEGIN:B~END:A~|Some(BadLine(3))
BEGIN:VEVENT~DTSTART:x~END:VEVENT~Begin:Vevent~|2 Dtstart x|Some(SeveralEvents)
";

// The used lines of a text, and what stops the scan.
fn scan_said(alloc: Global, text: &str) -> Option<String> {
    let scan = event_lines(alloc, text.as_bytes(), false).ok()?;
    let mut said = String::new(alloc);
    for line in scan.used.as_slice() {
        let value = str::from_utf8(line.value.as_slice()).ok()?;
        write!(said, "{} {:?} {value}|", line.number, line.name).ok()?;
    }
    write!(said, "{:?}", scan.stop).ok()?;
    Some(said)
}

// Lists, and the series that they state, or the refusal.
const LISTS: &str = "\
|(Days, 0, false, [])
\u{FEFF}1970-01-02\r~~ 1970-01-04\t~1971-01-01|(Days, 1, true, [3, 365])
1970-01-01T00:00:01~1970-01-01t00:00:02|(Moments, 1, true, [2])
1970-01-02~~1970-01-02|NotRising 3
1970-01-02~1970-01-01T00:00:00|MixedKinds 2
1970-01-01T00:00:00Z|BadMoment 1
1970-01-01T00:00:00.0|BadMoment 1
1970-01-02~1970-01-~ 03|BadMoment 2
19700102|BadMoment 1
";

// The series of a list, or the refusal.
fn list_said(alloc: Global, text: &str) -> Option<String> {
    match read_list(alloc, text.as_bytes()) {
        Ok(series) => {
            let dates = series.plus.as_slice();
            printed(
                alloc,
                &(series.kind, series.start, series.start_counts, dates),
            )
        }
        Err(Fault::Refused(refusal)) => format!(in alloc; "{refusal}").ok(),
        Err(Fault::NoMemory) => None,
    }
}

#[test]
fn scans_and_lists(rt: HostRuntime) {
    rows_hold(&rt, rt.alloc(), scan_said, SCANS);
    rows_hold(&rt, rt.alloc(), list_said, LISTS);
}
