// Words, cells and rows of a page as a person reads them.
use crate::head::put_files;
use crate::month::put_months;
use crate::words::length_words;
use rr_facts::{Facts, FileFacts};
use rr_html::Markup;
use rr_length::Length;
use rr_model::NoMemory;
use rr_trip::Month;
use std::alloc::Global;
use std::process::Abort;
use std::test::*;

fn reads(rt: &impl Abort, made: Result<Vec<u8>, NoMemory>, wanted: &[u8]) {
    let Ok(made) = made else {
        panic!(rt; "out of memory");
    };
    assert_eq!(rt; made.as_slice(), wanted);
}

fn lasts(rt: &impl Abort, alloc: Global, days: u64, seconds: u64, wanted: &[u8]) {
    reads(rt, length_words(alloc, Length { days, seconds }), wanted);
}

#[test]
fn lengths_are_said_in_words(rt: HostRuntime) {
    let alloc = rt.alloc();
    lasts(&rt, alloc, 0, 0, b"0 min");
    lasts(&rt, alloc, 1, 9_000, b"1 d 2 h 30 min");
    lasts(&rt, alloc, 0, 90_061, b"25 h 1 min 1 s");
}

// The first two days of a month that begins on this day.
fn two_days(alloc: Global, first: i64) -> Result<Vec<u8>, NoMemory> {
    let mut page = Markup::new(alloc);
    let mut signs = Vec::new(alloc);
    signs.push(b'A')?;
    signs.push(b'=')?;
    let mut months = Vec::new(alloc);
    months.push(Month { first, signs })?;
    put_months(alloc, &mut page, &months)?;
    Ok(page.into_bytes())
}

#[test]
fn a_month_begins_on_its_weekday(rt: HostRuntime) {
    // 1 May 2024, a Wednesday.
    let made = two_days(rt.alloc(), 19_844);
    reads(
        &rt,
        made,
        b"<div class=\"months\">\n<table class=\"month\">\n<caption>May 2024</caption>\n<thead><tr><th scope=\"col\">Mo</th><th scope=\"col\">Tu</th><th scope=\"col\">We</th><th scope=\"col\">Th</th><th scope=\"col\">Fr</th><th scope=\"col\">Sa</th><th scope=\"col\">Su</th></tr></thead>\n<tbody>\n<tr><td class=\"out\"></td><td class=\"out\"></td><td class=\"a\"><span>1</span><b>A</b></td><td class=\"same\"><span>2</span><b>=</b></td></tr>\n</tbody>\n</table>\n</div>\n",
    );
}

fn file(name: &'static str) -> FileFacts<'static> {
    FileFacts {
        name,
        language: "ics",
        offset: Some(-3_600),
        bytes: b"abc",
    }
}

// The table of two files.
fn files(alloc: Global) -> Result<Vec<u8>, NoMemory> {
    let facts = Facts {
        version: "0.20.0",
        old: file("<old>.ics"),
        new: file("new.ics"),
        only_differences: false,
        strict: false,
        by_uid: false,
        zones: None,
    };
    let mut page = Markup::new(alloc);
    put_files(alloc, &mut page, &facts)?;
    Ok(page.into_bytes())
}

#[test]
fn files_are_told_with_their_sums(rt: HostRuntime) {
    let made = files(rt.alloc());
    reads(
        &rt,
        made,
        b"<table class=\"files\">\n<thead><tr><th scope=\"col\">Side</th><th scope=\"col\">File</th><th scope=\"col\">Read as</th><th scope=\"col\">Bytes</th><th scope=\"col\">SHA-256</th></tr></thead>\n<tbody>\n<tr><th scope=\"row\"><span class=\"side a\">A</span></th><td><b>&lt;old&gt;.ics</b></td><td>ics with an offset of -01:00</td><td>3</td><td><code>ba7816bf8f01cfea414140de5dae2223b00361a396177a9cb410ff61f20015ad</code></td></tr>\n<tr><th scope=\"row\"><span class=\"side b\">B</span></th><td><b>new.ics</b></td><td>ics with an offset of -01:00</td><td>3</td><td><code>ba7816bf8f01cfea414140de5dae2223b00361a396177a9cb410ff61f20015ad</code></td></tr>\n</tbody>\n</table>\n",
    );
}
