// Rules as they are written.
use crate::rows::rows_hold;
use rr_model::End;
use rr_rrule::{read, write};
use std::alloc::Global;

// Every second week, on Tuesday and Thursday, from 2024-01-02T09:30:00 to 2024-06-30T09:30:00.
const WRITTEN: &str = "\
DTSTART:20240102T093000~RRULE:BYDAY=TH,TU;WKST=SU;INTERVAL=2;UNTIL=20240630T093000;FREQ=WEEKLY~|\
DTSTART:20240102T093000~RRULE:FREQ=WEEKLY;UNTIL=20240630T093000;INTERVAL=2;WKST=SU;BYDAY=TU,TH~
";

// A text as it is written, with `~` for each line end.
fn written_said(alloc: Global, text: &str) -> Option<String> {
    let Ok(series) = read(alloc, text.as_bytes(), None) else {
        return None;
    };
    let [rule] = series.rules.as_slice() else {
        return None;
    };
    if matches!(rule.end, End::Both { .. }) || !series.excluded.is_empty() {
        return None;
    }
    let text = write(alloc, &series).ok()?;
    str::from_utf8(text.as_slice())
        .ok()?
        .replace(alloc, "\r\n", "~")
        .ok()
}

#[test]
fn written(rt: HostRuntime) {
    rows_hold(&rt, rt.alloc(), written_said, WRITTEN);
}
