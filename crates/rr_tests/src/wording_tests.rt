// Series in English, worked out by hand from the meaning of their parts (RFC 5545, sections 3.3.10 and 3.8.5).
use crate::rows::{rows_hold, series_of};
use rr_rrule::read;
use rr_wording::push_series;
use std::alloc::Global;

// Rules from 09:30 on Tuesday, 9 January 2024, on.
const RULES: &str = "\
FREQ=DAILY|every day at 09:30, from 9 January 2024
FREQ=DAILY;COUNT=1|every day at 09:30, from 9 January 2024, 1 time
FREQ=DAILY;INTERVAL=10;COUNT=5|every 10 days at 09:30, from 9 January 2024, 5 times
FREQ=HOURLY;INTERVAL=6;UNTIL=20240110T170015|every 6 hours, from 9 January 2024 at 09:30, until 10 January 2024 at 17:00:15
FREQ=SECONDLY|every second, from 9 January 2024 at 09:30
FREQ=MINUTELY;INTERVAL=15;BYHOUR=9|every 15 minutes at the hour 9, from 9 January 2024 at 09:30
FREQ=DAILY;BYHOUR=9,17;BYMINUTE=0,30,45;BYSECOND=0|every day at the hours 9 and 17 at the minutes 0, 30 and 45 at the second 0, from 9 January 2024 at 09:30
FREQ=DAILY;BYMONTH=1,6,7|every day in January, June and July at 09:30, from 9 January 2024
FREQ=DAILY;BYDAY=MO,FR|every day on Monday and Friday at 09:30, from 9 January 2024
FREQ=WEEKLY|every week on Tuesday at 09:30, from 9 January 2024
FREQ=WEEKLY;BYDAY=MO,TU,FR|every week on Monday, Tuesday and Friday at 09:30, from 9 January 2024
FREQ=WEEKLY;INTERVAL=2;BYDAY=MO,WE;UNTIL=20250305T093000|every 2 weeks on Monday and Wednesday at 09:30, weeks beginning on Monday, from 9 January 2024, until 5 March 2025 at 09:30
FREQ=WEEKLY;INTERVAL=2;WKST=SU|every 2 weeks on Tuesday at 09:30, weeks beginning on Sunday, from 9 January 2024
FREQ=WEEKLY;BYDAY=SU,MO;BYSETPOS=1;WKST=SU|every week on Monday and Sunday at 09:30 (of these the first), weeks beginning on Sunday, from 9 January 2024
FREQ=MONTHLY|every month on the 9th at 09:30, from 9 January 2024
FREQ=MONTHLY;BYDAY=2TU|every month on the second Tuesday at 09:30, from 9 January 2024
FREQ=MONTHLY;BYDAY=-1FR,2TU,5SA|every month on the second Tuesday, the fifth Saturday and the last Friday at 09:30, from 9 January 2024
FREQ=MONTHLY;BYDAY=MO,-2SU|every month on every Monday and the second last Sunday at 09:30, from 9 January 2024
FREQ=MONTHLY;BYMONTHDAY=1,15,-1|every month on the 1st, 15th and last day of the month at 09:30, from 9 January 2024
FREQ=MONTHLY;BYMONTHDAY=2,3,4,11,12,13,21,22,23,30|every month on the 2nd, 3rd, 4th, 11th, 12th, 13th, 21st, 22nd, 23rd and 30th day of the month at 09:30, from 9 January 2024
FREQ=MONTHLY;BYMONTHDAY=-1,-5,-6,-11|every month on the 11th last, 6th last, fifth last and last day of the month at 09:30, from 9 January 2024
FREQ=MONTHLY;BYMONTHDAY=13;BYDAY=FR|every month on the 13th day of the month (if that is a Friday) at 09:30, from 9 January 2024
FREQ=MONTHLY;BYMONTHDAY=1;BYDAY=SA,SU|every month on the 1st day of the month (if that is a Saturday or Sunday) at 09:30, from 9 January 2024
FREQ=MONTHLY;BYDAY=MO,TU,WE,TH,FR;BYSETPOS=1,-1|every month on every Monday, Tuesday, Wednesday, Thursday and Friday at 09:30 (of these the first and the last), from 9 January 2024
FREQ=YEARLY|every year on 9 January at 09:30, from 9 January 2024
FREQ=YEARLY;BYMONTH=1,7|every year in January and July at 09:30, from 9 January 2024
FREQ=YEARLY;BYDAY=SU|every year on every Sunday at 09:30, from 9 January 2024
FREQ=YEARLY;BYDAY=20MO|every year on the 20th Monday of the year at 09:30, from 9 January 2024
FREQ=YEARLY;BYMONTH=3,10;BYDAY=-1SU|every year in March and October on the last Sunday of the month at 09:30, from 9 January 2024
FREQ=YEARLY;BYWEEKNO=20,-1;BYDAY=MO|every year in week 20 and the last week of the year on Monday at 09:30, weeks beginning on Monday, from 9 January 2024
FREQ=YEARLY;BYYEARDAY=1,100,112,-1|every year on the 1st, the 100th, the 112th and the last day of the year at 09:30, from 9 January 2024
FREQ=YEARLY;BYMONTHDAY=13;BYDAY=1FR|every year on the 13th day of every month (if that is the first Friday of the year) at 09:30, from 9 January 2024
FREQ=YEARLY;BYYEARDAY=60;BYMONTHDAY=1,29|every year on the 60th day of the year (if that is the 1st or 29th day of the month) at 09:30, from 9 January 2024
FREQ=YEARLY;INTERVAL=4;BYMONTH=11;BYDAY=TU;BYMONTHDAY=2,3|every 4 years in November on the 2nd and 3rd day of the month (if that is a Tuesday) at 09:30, from 9 January 2024
";

// Whole series, and their words.
const SERIES: &str = "\
DTSTART:20240109T093000~|once, on 9 January 2024 at 09:30
DTSTART:00010203T000500~|once, on 3 February 1 at 00:05
DTSTART;VALUE=DATE:20240109~|once, on 9 January 2024
DTSTART;VALUE=DATE:20240109~RDATE;VALUE=DATE:20240110~|once, on 9 January 2024, and on 1 further date
DTSTART;VALUE=DATE:20240109~RDATE;VALUE=DATE:20240110,20240111,20240112~EXDATE;VALUE=DATE:20240110,20240111~|once, on 9 January 2024, and on 3 further dates, but not on 2 dates
DTSTART;VALUE=DATE:20240109~RRULE:FREQ=MONTHLY;UNTIL=99991231~|every month on the 9th, from 9 January 2024, until 31 December 9999
DTSTART;VALUE=DATE:20240109~RRULE:FREQ=DAILY~EXRULE:FREQ=WEEKLY~RDATE;VALUE=DATE:20230109~EXDATE;VALUE=DATE:20240110~|every day, from 9 January 2024, and on 1 further date; but not every week on Tuesday; and not on 1 date
DTSTART:20240109T093000~RRULE:FREQ=DAILY;COUNT=3~RRULE:FREQ=MONTHLY;UNTIL=20250109T093000~EXRULE:FREQ=YEARLY~EXRULE:FREQ=WEEKLY;COUNT=2~|every day at 09:30, 3 times; and every month on the 9th at 09:30, until 9 January 2025 at 09:30; each from 9 January 2024; but not every year on 9 January at 09:30; and not every week on Tuesday at 09:30, 2 times
DTSTART:20240109T093000~RRULE:FREQ=DAILY~RRULE:FREQ=HOURLY;INTERVAL=5~|every day at 09:30; and every 5 hours; each from 9 January 2024 at 09:30
";

// What is said of a rule.
fn rule_said(alloc: Global, rule: &str) -> Option<String> {
    let series = series_of(alloc, "20240109T093000", rule)?;
    let mut out = Vec::new(alloc);
    push_series(&mut out, &series).ok()?;
    String::from_utf8(out).ok()
}

// What is said of a text.
fn text_said(alloc: Global, text: &str) -> Option<String> {
    let series = read(alloc, text.as_bytes(), None).ok()?;
    let mut out = Vec::new(alloc);
    push_series(&mut out, &series).ok()?;
    String::from_utf8(out).ok()
}

#[test]
fn series_in_words(rt: HostRuntime) {
    rows_hold(&rt, rt.alloc(), rule_said, RULES);
    rows_hold(&rt, rt.alloc(), text_said, SERIES);
}
