// A report as one page of HTML.
ghost use Rattle.std.specs.Prelude.{◌≡◌, ◌++◌, All, IfOk, OnOk};
ghost use Rattle.rr_facts.specs.Facts.{facts_in};
ghost use Rattle.rr_page.specs.Class.{is_shown};
ghost use Rattle.rr_page.specs.Page.{AreEvents, IsEvent, IsEventIf, IsPageOf, IsPageOfRefusal, IsPut, file_refusal_html, refusal_html};
ghost use Rattle.rr_page.specs.declared.class.Class.TheVariants.{Look};
ghost use Rattle.rr_page.specs.declared.class.TheConstants.{MOST_EVENTS};
ghost use Rattle.rr_trip.specs.Said.{IsPrintableSaid};

use crate::class::{Class, MOST_EVENTS, is_shown, left_behind};
use crate::event::put_event;
use crate::head::{put_files, put_head, put_start};
use crate::put::{by_side, put_advice};
use crate::sections::put_rest;
use rr_facts::{Facts, file_advice_of};
use rr_html::{FramePiece, Markup, Piece};
use rr_model::{NoMemory, Side};
use rr_seam::{EventFile, FileRefusal};
use rr_trip::{Report, ReportLine, detail_of, push_file_refusal};
use std::alloc::Global;

// ---- the events to look at

// The events of a line that are to be looked at.
fn put_line<A: EventFile, B: EventFile>(
    alloc: Global,
    page: &mut Markup,
    a: &A,
    b: &B,
    line: &ReportLine,
) -> Result<(), NoMemory>
    requires { IsPrintableSaid line.now.said }
    ensures { OnOk result (IsPut (IsEvent (A.stated a.now) (B.stated b.now) line.now) page.old page.new) }
{
    let detail = detail_of(alloc, a, b, line)?;
    put_event(alloc, page, line, &detail)
}

// Puts the events of a line that are to be looked at, if it has some and `left` more may be shown.
fn put_line_if<A: EventFile, B: EventFile>(
    alloc: Global,
    page: &mut Markup,
    a: &A,
    b: &B,
    left: usize,
    line: &ReportLine,
) -> Result<(), NoMemory>
    requires { IsPrintableSaid line.now.said }
    ensures { OnOk result (IsPut (IsEventIf (A.stated a.now) (B.stated b.now)
        (is_shown Look left line.now) line.now) page.old page.new) }
{
    if is_shown(Class::Look, left, line) {
        return put_line(alloc, page, a, b, line);
    }
    Ok(())
}

// Puts the events to look at of lines, `MOST_EVENTS` at most.
fn put_lines<A: EventFile, B: EventFile>(
    alloc: Global,
    page: &mut Markup,
    a: &A,
    b: &B,
    lines: &[ReportLine],
) -> Result<(), NoMemory>
    requires { All (λ line. IsPrintableSaid line.said) lines.now }
    ensures { OnOk result (IsPut (AreEvents (A.stated a.now) (B.stated b.now)
        MOST_EVENTS lines.now) page.old page.new) }
{
    let mut left = MOST_EVENTS;
    for line in lines {
        put_line_if(alloc, page, a, b, left, line)?;
        left = left_behind(Class::Look, left, line);
    }
    Ok(())
}

// ---- pages

/// A report as one page of HTML that needs nothing from elsewhere: which files were compared and how, how many events are to be looked at,
/// not comparable and equal, each of the first `MOST_EVENTS` to look at with what each file states, where they differ and what to do, the
/// others that can't be compared with advice, and the names of the equal ones. All of it is fixed markup and escaped texts.
pub fn print_page<A: EventFile, B: EventFile>(
    alloc: Global,
    facts: &Facts,
    a: &A,
    b: &B,
    report: &Report,
) -> Result<Vec<u8>, NoMemory>
    requires { All (λ line. IsPrintableSaid line.said) report.now.lines.items }
    ensures { IfOk result (λ page. IsPageOf (facts_in facts.now) (A.stated a.now) (B.stated b.now)
        report.now.lines.items page.items) }
{
    let lines = report.lines.as_slice();
    let mut page = Markup::new(alloc);
    put_head(alloc, &mut page, facts, report)?;
    put_lines(alloc, &mut page, a, b, lines)?;
    put_rest(alloc, &mut page, facts, lines)?;
    Ok(page.into_bytes())
}

// The refusal of a whole file.
#[tactic(auto, unfolding(crate::specs::Page::file_refusal_html))]
fn put_file_refusal(
    alloc: Global,
    page: &mut Markup,
    side: Side,
    refusal: FileRefusal,
) -> Result<(), NoMemory>
    ensures { OnOk result (page.new ≡ page.old ++ file_refusal_html side refusal) }
{
    let piece = by_side(
        side,
        Piece::Frame(FramePiece::RefusedFileA),
        Piece::Frame(FramePiece::RefusedFileB),
    );
    let mut text = Vec::new(alloc);
    push_file_refusal(&mut text, refusal)?;
    page.piece(piece)?;
    page.text(&text)?;
    page.piece(Piece::Frame(FramePiece::RefusedFileEnd))?;
    put_advice(page, file_advice_of(refusal).as_bytes())
}

// The page of the refusal of a whole file.
#[tactic(auto, unfolding(crate::specs::Page::refusal_html))]
fn put_refusal(
    alloc: Global,
    page: &mut Markup,
    facts: &Facts,
    side: Side,
    refusal: FileRefusal,
) -> Result<(), NoMemory>
    ensures { OnOk result (page.new ≡ page.old ++ refusal_html (facts_in facts.now) side refusal) }
{
    put_start(page, FramePiece::Unreadable)?;
    page.piece(Piece::Frame(FramePiece::LeadUnreadable))?;
    page.text(facts.version.as_bytes())?;
    page.piece(Piece::Frame(FramePiece::LeadEnd))?;
    put_files(alloc, page, facts)?;
    put_file_refusal(alloc, page, side, refusal)?;
    page.piece(Piece::Frame(FramePiece::PageFoot))
}

/// The refusal of a whole file as a page: both files, why one of them is refused, and what to do.
pub fn print_page_refusal(
    alloc: Global,
    facts: &Facts,
    side: Side,
    refusal: FileRefusal,
) -> Result<Vec<u8>, NoMemory>
    ensures { IfOk result (λ page. IsPageOfRefusal (facts_in facts.now) side refusal page.items) }
{
    let mut page = Markup::new(alloc);
    put_refusal(alloc, &mut page, facts, side, refusal)?;
    Ok(page.into_bytes())
}
