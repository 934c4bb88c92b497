// The sections of a page behind the events to look at.
ghost use Rattle.std.specs.Prelude.{◌≡◌, ◌++◌, OnOk};
ghost use Rattle.rr_facts.specs.Facts.{facts_in};
ghost use Rattle.rr_page.specs.declared.class.TheConstants.{MOST_EVENTS};
ghost use Rattle.rr_page.specs.Sections.{cancelled_section, each_undecided_html, equal_section, help_html, item_html, item_if, items_html, left_out_html, refused_html, rest_html, undecided_html, undecided_if, undecided_section, why_html};

use crate::class::{Class, MOST_EVENTS, count_of, is_of, is_shown, left_behind};
use crate::event::put_name;
use crate::put::{by_side, put_advice, put_if, put_key, put_number, put_title};
use rr_facts::{Facts, advice_of};
use rr_html::{EventPiece, FramePiece, Markup, Piece, SectionPiece, SentencePiece, TodoPiece};
use rr_model::NoMemory;
use rr_seam::KeyRefusal;
use rr_trip::{ReportLine, Said, push_key_refusal};
use std::alloc::Global;

// How many events of a class are left out of a page, if some are.
#[tactic(auto, unfolding(crate::specs::Sections::left_out_html))]
fn put_left_out(alloc: Global, page: &mut Markup, count: usize) -> Result<(), NoMemory>
    ensures { OnOk result (page.new ≡ page.old ++ left_out_html count) }
{
    if count <= MOST_EVENTS {
        return Ok(());
    }
    page.piece(Piece::Section(SectionPiece::LeftOutStart))?;
    put_number(alloc, page, (count - MOST_EVENTS) as u64)?;
    page.piece(Piece::Section(SectionPiece::LeftOutEnd))
}

// ---- events that can't be compared

// A refusal in a sentence.
fn put_refused(
    alloc: Global,
    page: &mut Markup,
    piece: Piece,
    refusal: KeyRefusal,
) -> Result<(), NoMemory>
    ensures { OnOk result (page.new ≡ page.old ++ refused_html piece refusal) }
{
    let mut text = Vec::new(alloc);
    push_key_refusal(alloc, &mut text, refusal)?;
    page.piece(piece)?;
    page.text(&text)?;
    page.piece(Piece::Sentence(SentencePiece::RefusalEnd))
}

// Why events can't be compared.
#[tactic(auto, unfolding(crate::specs::Sections::why_html))]
fn put_why(alloc: Global, page: &mut Markup, said: Said) -> Result<(), NoMemory>
    ensures { OnOk result (page.new ≡ page.old ++ why_html said) }
{
    match said {
        Said::Refused { side, refusal } => {
            let piece = by_side(
                side,
                Piece::Sentence(SentencePiece::RefusedA),
                Piece::Sentence(SentencePiece::RefusedB),
            );
            put_refused(alloc, page, piece, refusal)
        }
        Said::Alike(refusal) => put_refused(
            alloc,
            page,
            Piece::Sentence(SentencePiece::Alike),
            refusal,
        ),
        Said::Only(_) | Said::Floating(_) | Said::Length(_) | Said::Compared { .. } => {
            page.piece(Piece::Sentence(SentencePiece::Unsure))
        }
    }
}

// What to do about events that can't be compared.
#[tactic(auto, unfolding(crate::specs::Sections::help_html))]
fn put_help(page: &mut Markup, said: Said) -> Result<(), NoMemory>
    ensures { OnOk result (page.new ≡ page.old ++ help_html said) }
{
    match said {
        Said::Refused { refusal, .. } | Said::Alike(refusal) => {
            put_advice(page, advice_of(refusal).as_bytes())
        }
        Said::Only(_) | Said::Floating(_) | Said::Length(_) | Said::Compared { .. } => {
            page.piece(Piece::Todo(TodoPiece::TodoUnsure))
        }
    }
}

// Events that can't be compared: what they are called, why, and what to do.
#[tactic(auto, unfolding(crate::specs::Sections::undecided_html))]
fn put_undecided(alloc: Global, page: &mut Markup, line: &ReportLine) -> Result<(), NoMemory>
    ensures { OnOk result (page.new ≡ page.old ++ undecided_html line.now) }
{
    page.piece(Piece::Event(EventPiece::EventNone))?;
    put_name(alloc, page, line)?;
    put_why(alloc, page, line.said)?;
    page.piece(Piece::Event(EventPiece::SaidEnd))?;
    put_help(page, line.said)?;
    page.piece(Piece::Event(EventPiece::EventEnd))
}

// Puts the events of a line that can't be compared, if it has some and `left` more may be shown.
fn put_undecided_if(
    alloc: Global,
    page: &mut Markup,
    left: usize,
    line: &ReportLine,
) -> Result<(), NoMemory>
    ensures { OnOk result (page.new ≡ page.old ++ undecided_if left line.now) }
{
    if is_shown(Class::Undecided, left, line) {
        return put_undecided(alloc, page, line);
    }
    Ok(())
}

// Puts the events of lines that can't be compared, `MOST_EVENTS` at most.
fn put_each_undecided(
    alloc: Global,
    page: &mut Markup,
    lines: &[ReportLine],
) -> Result<(), NoMemory>
    ensures { OnOk result (page.new ≡ page.old ++ each_undecided_html MOST_EVENTS lines.now) }
{
    let mut left = MOST_EVENTS;
    for line in lines {
        put_undecided_if(alloc, page, left, line)?;
        left = left_behind(Class::Undecided, left, line);
    }
    Ok(())
}

// The section of events that can't be compared.
#[tactic(auto, unfolding(crate::specs::Sections::undecided_section))]
fn put_undecided_section(
    alloc: Global,
    page: &mut Markup,
    lines: &[ReportLine],
) -> Result<(), NoMemory>
    ensures { OnOk result (page.new ≡ page.old ++ undecided_section lines.now) }
{
    let count = count_of(Class::Undecided, lines);
    page.piece(Piece::Section(SectionPiece::UndecidedStart))?;
    put_if(
        page,
        count == 0,
        Piece::Section(SectionPiece::UndecidedNone),
    )?;
    put_each_undecided(alloc, page, lines)?;
    put_left_out(alloc, page, count)?;
    page.piece(Piece::Frame(FramePiece::SectionEnd))
}

// ---- lists

// An event in a list: its title and its key.
#[tactic(auto, unfolding(crate::specs::Sections::item_html))]
fn put_item(alloc: Global, page: &mut Markup, line: &ReportLine) -> Result<(), NoMemory>
    ensures { OnOk result (page.new ≡ page.old ++ item_html line.now) }
{
    page.piece(Piece::Section(SectionPiece::ItemStart))?;
    put_title(alloc, page, &line.title)?;
    page.piece(Piece::Section(SectionPiece::ItemKey))?;
    put_key(alloc, page, &line.key)?;
    page.piece(Piece::Section(SectionPiece::ItemEnd))
}

// Puts a line as an item of a list, if it is of a class.
fn put_item_if(
    alloc: Global,
    page: &mut Markup,
    class: Class,
    line: &ReportLine,
) -> Result<(), NoMemory>
    ensures { OnOk result (page.new ≡ page.old ++ item_if class line.now) }
{
    if is_of(class, line) {
        return put_item(alloc, page, line);
    }
    Ok(())
}

// The events of a class.
fn put_items(
    alloc: Global,
    page: &mut Markup,
    class: Class,
    lines: &[ReportLine],
) -> Result<(), NoMemory>
    ensures { OnOk result (page.new ≡ page.old ++ items_html class lines.now) }
{
    for line in lines {
        put_item_if(alloc, page, class, line)?;
    }
    Ok(())
}

// The section of cancelled events, if there are some.
#[tactic(auto, unfolding(crate::specs::Sections::cancelled_section))]
fn put_cancelled_section(
    alloc: Global,
    page: &mut Markup,
    lines: &[ReportLine],
) -> Result<(), NoMemory>
    ensures { OnOk result (page.new ≡ page.old ++ cancelled_section lines.now) }
{
    if count_of(Class::Cancelled, lines) == 0 {
        return Ok(());
    }
    page.piece(Piece::Section(SectionPiece::CancelledStart))?;
    put_items(alloc, page, Class::Cancelled, lines)?;
    page.piece(Piece::Section(SectionPiece::ListEnd))
}

// The section of equal events, or that they are left out.
#[tactic(auto, unfolding(crate::specs::Sections::equal_section))]
fn put_equal_section(
    alloc: Global,
    page: &mut Markup,
    only_differences: bool,
    lines: &[ReportLine],
) -> Result<(), NoMemory>
    ensures { OnOk result (page.new ≡ page.old ++ equal_section only_differences lines.now) }
{
    if only_differences {
        return page.piece(Piece::Section(SectionPiece::EqualLeftOut));
    }
    page.piece(Piece::Section(SectionPiece::EqualStart))?;
    put_items(alloc, page, Class::Equal, lines)?;
    page.piece(Piece::Section(SectionPiece::EqualEnd))
}

// ---- all of them

// All that stands behind the events to look at.
#[tactic(auto, unfolding(crate::specs::Sections::rest_html))]
pub(crate) fn put_rest(
    alloc: Global,
    page: &mut Markup,
    facts: &Facts,
    lines: &[ReportLine],
) -> Result<(), NoMemory>
    ensures { OnOk result (page.new ≡ page.old ++ rest_html (facts_in facts.now) lines.now) }
{
    put_left_out(alloc, page, count_of(Class::Look, lines))?;
    page.piece(Piece::Frame(FramePiece::SectionEnd))?;
    put_undecided_section(alloc, page, lines)?;
    put_cancelled_section(alloc, page, lines)?;
    put_equal_section(alloc, page, facts.only_differences, lines)?;
    page.piece(Piece::Frame(FramePiece::Foot))?;
    page.piece(Piece::Frame(FramePiece::Script))?;
    page.piece(Piece::Frame(FramePiece::PageEnd))
}
