// Which texts are read.
use crate::rows::{printed, rows_hold};
use rr_algebra::read_descriptor;
use std::alloc::Global;

// Canonical texts of both versions. Then no line, a line too few or too many, another version, a second mark, and other line ends; the
// period 14, which is twice the least; days that repeat from 2024-01-01 on already; a settled day before the first one; two lines of one
// set; sets out of the order of their first use; one that no day has; a row written second by second, a row of two, a row past the day, a
// version's row in the other; counts and gaps far past each day that is read; leading zeros, equal runs apart, no such date, and a day
// before the year 1.
const TEXTS: &str = "\
rrcanon 2~none~|true
rrcanon 1~none~|true
\u{FEFF}rrcanon 1~days~f 2024-01-01~b 0 0 1~b 1 0 2~|true
rrcanon 2~days~f 2024-01-01~q 2024-01-01 7~c 0 0 1~|true
rrcanon 2~moments~t 32400 61200~f 2024-01-01~b 0 0 1~b 1 0 9~|true
rrcanon 1~moments~t 32400 61200~f 2024-01-01~b 0 0 1~b 1 0 9~|true
rrcanon 2~moments~t 0/25200/4~f 2024-01-01~b 0 0 1~|true
rrcanon 2~moments~t 0/1/86400~f 2024-01-01~q 2024-01-01 1~c 0 0 1~|true
|false
rrcanon 2~none|false
rrcanon 2~none~~|false
rrcanon 3~none~|false
\u{FEFF}\u{FEFF}rrcanon 2~none~|false
rrcanon 2\r~none\r~|false
rrcanon 2\r~days\r~f 2024-01-01\r~b 0 0 1\r~|false
rrcanon 2~days~f 2024-01-01~q 2024-01-01 14~c 0 0 1~c 7 0 1~|false
rrcanon 2~days~f 2024-01-01~b 0 0 1~q 2024-01-08 7~c 0 0 1~|false
rrcanon 2~days~f 2024-01-02~q 2024-01-01 7~c 1 0 1~|false
rrcanon 2~moments~t 0~t 0~f 2024-01-01~b 0 0 1~b 1 1 9~|false
rrcanon 2~moments~t 0~t 60~f 2024-01-01~b 0 1 1~b 1 0 1~|false
rrcanon 2~moments~t 0~t 60~f 2024-01-01~b 0 0 1~|false
rrcanon 2~moments~t 0 60 120~f 2024-01-01~b 0 0 1~|false
rrcanon 2~moments~t 0/60/2~f 2024-01-01~b 0 0 1~|false
rrcanon 2~moments~t 0/1/86401~f 2024-01-01~q 2024-01-01 1~c 0 0 1~|false
rrcanon 1~moments~t 0/25200/4~f 2024-01-01~b 0 0 1~|false
rrcanon 2~days~f 2024-01-01~b 0 0 1~b 1 0 1000000000000~|false
rrcanon 2~days~f 2024-01-01~b 0 0 1~b 18446744073709551615 0 1~|false
rrcanon 2~days~f 2024-01-01~q 2024-01-01 18446744073709551615~c 0 0 1~|false
rrcanon 2~days~f 2024-01-01~q 2024-01-01 16777217~c 0 0 1~c 3 0 1~|false
rrcanon 2~moments~t 00~f 2024-01-01~b 0 0 1~|false
rrcanon 2~days~f 2024-01-01~b 0 0 1~b 1 0 1~b 1 0 1~|false
rrcanon 2~days~f 2023-02-29~b 0 0 1~|false
rrcanon 2~days~f 0000-12-31~b 0 0 1~|false
";

// The end of a text of 150,000 days, with gaps of 1 and 2 days in turn, in lines of their own.
const LONG_ENDS: &str = "\
b 1 0 1~|true
b 2 0 1~|false
b 1 1 1~|false
b 1 0 1|false
";

// Whether a text is read.
fn said(alloc: Global, text: &str) -> Option<String> {
    printed(alloc, &read_descriptor(alloc, text.as_bytes()).is_ok())
}

#[test]
fn texts(rt: HostRuntime) {
    rows_hold(&rt, rt.alloc(), said, TEXTS);
}

// Whether a text of some 1.2 megabytes is read that has this end.
fn long_said(alloc: Global, end: &str) -> Option<String> {
    let mut text = String::from_str(alloc, "rrcanon 2\ndays\nf 2024-01-01\nb 0 0 1\n").ok()?;
    for _ in 0..75_000 {
        text.push_str("b 1 0 1\nb 2 0 1\n").ok()?;
    }
    text.push_str(end).ok()?;
    said(alloc, text.as_str())
}

#[test]
fn long_texts(rt: HostRuntime) {
    rows_hold(&rt, rt.alloc(), long_said, LONG_ENDS);
}
