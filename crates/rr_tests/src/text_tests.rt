// Numbers, dates, moments and lines as text.
use crate::rows::{kind_and_number, printed, rows_hold};
use rr_model::day_part;
use rr_text::*;
use std::alloc::Global;
use std::fmt::Write;

// Places from which a text is read, a blank and the text, and the number there.
const NUMBERS: &str = "\
1 a0123;|Digits { value: 123, over: false, next: 5 }
0  12|Digits { value: 0, over: false, next: 0 }
0 18446744073709551615|Digits { value: 18446744073709551615, over: false, next: 20 }
0 18446744073709551616|Digits { value: 18446744073709551615, over: true, next: 20 }
";

fn number_said(alloc: Global, given: &str) -> Option<String> {
    let (from, text) = given.split_once(' ')?;
    let from = from.parse::<usize>().ok()?;
    if from > text.len() {
        return None;
    }
    printed(alloc, &number(text.as_bytes(), from))
}

const BASIC: &str = "\
20240101|Some(Stamp { kind: Days, at: 19723, utc: false })
19700101T000001|Some(Stamp { kind: Moments, at: 1, utc: false })
19700101t000001z|Some(Stamp { kind: Moments, at: 1, utc: true })
20230229|None
20240101T240000|None
";

fn basic_said(alloc: Global, given: &str) -> Option<String> {
    printed(alloc, &basic(given.as_bytes()))
}

const EXTENDED: &str = "\
2024-01-01|Some(Stamp { kind: Days, at: 19723, utc: false })
1970-01-01T00:00:01.000|Some(Stamp { kind: Moments, at: 1, utc: false })
1970-01-01t00:00:01z|Some(Stamp { kind: Moments, at: 1, utc: true })
1970-01-01T00:00:01.|None
1970-01-01T00:00:01.5|None
2024-01-01Z|None
";

fn extended_said(alloc: Global, given: &str) -> Option<String> {
    printed(alloc, &extended(given.as_bytes()))
}

#[test]
fn numbers_and_stamps(rt: HostRuntime) {
    rows_hold(&rt, rt.alloc(), number_said, NUMBERS);
    rows_hold(&rt, rt.alloc(), basic_said, BASIC);
    rows_hold(&rt, rt.alloc(), extended_said, EXTENDED);
}

fn number_printed(alloc: Global, given: &str) -> Option<String> {
    let mut out = Vec::new(alloc);
    push_number(&mut out, given.parse::<i64>().ok()?).ok()?;
    String::from_utf8(out).ok()
}

const PRINTED_EXTENDED: &str = "\
Days 2932897|10000-01-01
Moments 1709199000|2024-02-29T09:30:00
";

fn extended_printed(alloc: Global, given: &str) -> Option<String> {
    let (kind, at) = kind_and_number(given)?;
    let day = day_part(kind, at);
    if day < 0 || day > 3_000_000 {
        return None;
    }
    let mut out = Vec::new(alloc);
    push_extended(&mut out, kind, at).ok()?;
    String::from_utf8(out).ok()
}

const PRINTED_BASIC: &str = "\
Days 19782|20240229
Moments 1709199000|20240229T093000
";

fn basic_printed(alloc: Global, given: &str) -> Option<String> {
    let (kind, at) = kind_and_number(given)?;
    let day = day_part(kind, at);
    if day < 0 || day > 2_000_000 {
        return None;
    }
    let mut out = Vec::new(alloc);
    push_basic(&mut out, kind, at).ok()?;
    String::from_utf8(out).ok()
}

#[test]
fn printed_texts(rt: HostRuntime) {
    rows_hold(&rt, rt.alloc(), number_printed, "-12|-12");
    rows_hold(&rt, rt.alloc(), extended_printed, PRINTED_EXTENDED);
    rows_hold(&rt, rt.alloc(), basic_printed, PRINTED_BASIC);
}

// Texts, and their lines, each with its number.
const PLAIN: &str = "\
|
~|1 |
a\r~b~~c|1 a|2 b|3 |4 c|
a\r|1 a\r|
a\r\r~\r|1 a\r|2 \r|
a\r~ b~\tc~d|1 abc|4 d|
D~ T~ S|1 DTS|
 a~ b|1  ab|
a~ ~b|1 a|3 b|
";

// Texts, and their lines with the blank after each break kept, each with its number.
const KEPT: &str = "\
|
~|1 |
a\r~b~~c|1 a|2 b|3 |4 c|
a\r|1 a\r|
a\r\r~\r|1 a\r|2 \r|
a\r~ b~\tc~d|1 a b\tc|4 d|
D~ T~ S|1 D T S|
 a~ b|1  a b|
a~ ~b|1 a |3 b|
";

fn lines_said(alloc: Global, text: &str, keep_blank: bool) -> Option<String> {
    let lines = lines(alloc, text.as_bytes(), keep_blank).ok()?;
    let mut said = String::new(alloc);
    for line in lines.as_slice() {
        let text = str::from_utf8(line.text.as_slice()).ok()?;
        write!(said, "{} {text}|", line.number).ok()?;
    }
    Some(said)
}

fn plain_said(alloc: Global, text: &str) -> Option<String> {
    lines_said(alloc, text, false)
}

fn kept_said(alloc: Global, text: &str) -> Option<String> {
    lines_said(alloc, text, true)
}

#[test]
fn unfolded(rt: HostRuntime) {
    rows_hold(&rt, rt.alloc(), plain_said, PLAIN);
    rows_hold(&rt, rt.alloc(), kept_said, KEPT);
}
