// What is said of events to look at, in sentences.
ghost use Rattle.std.specs.Prelude.{◌≡◌, ◌++◌, IfSome, OnOk};
ghost use Rattle.rr_html.specs.Markup.{html_text};
ghost use Rattle.rr_page.specs.Said.{ahead_html, first_html, further_html, has_other_title, is_only_zones, lengths_html, marks_html, more_html, said_html};
ghost use Rattle.rr_page.specs.Words.{length_words};
ghost use Rattle.rr_text.specs.Printed.{IsPrintable, IsPrintableAt};
ghost use Rattle.rr_trip.specs.Printed.{IsPrintableFurther, ahead_text};
ghost use Rattle.rr_trip.specs.Said.{ArePrintableZones, IsPrintableAhead, IsPrintableSaid};

use crate::put::{by_side, put_if, put_moment, put_number};
use crate::words::length_words;
use rr_differ::Further;
use rr_html::{Markup, Piece, SentencePiece};
use rr_length::{Length, OtherLength};
use rr_model::{Kind, NoMemory, Side, Verdict};
use rr_seam::Marks;
use rr_trip::{Ahead, Difference, Partner, Said, Zones, push_ahead};
use std::alloc::Global;

fn put_length(alloc: Global, page: &mut Markup, length: Length) -> Result<(), NoMemory>
    ensures { OnOk result (page.new ≡ page.old ++ html_text (length_words length)) }
{
    let words = length_words(alloc, length)?;
    page.text(&words)
}

// The lengths of an occurrence.
#[tactic(auto, unfolding(crate::specs::Said::lengths_html))]
fn put_lengths(alloc: Global, page: &mut Markup, other: OtherLength) -> Result<(), NoMemory>
    ensures { OnOk result (page.new ≡ page.old ++ lengths_html other) }
{
    page.piece(Piece::Sentence(SentencePiece::LengthA))?;
    put_length(alloc, page, other.a)?;
    page.piece(Piece::Sentence(SentencePiece::LengthB))?;
    put_length(alloc, page, other.b)?;
    page.piece(Piece::Sentence(SentencePiece::LengthEnd))
}

// ---- the first difference

fn put_ahead_text(alloc: Global, page: &mut Markup, ahead: Ahead) -> Result<(), NoMemory>
    requires { IsPrintableAhead ahead }
    ensures { OnOk result (page.new ≡ page.old ++ html_text (ahead_text ahead)) }
{
    let mut text = Vec::new(alloc);
    push_ahead(&mut text, ahead)?;
    page.text(&text)
}

// The offset of the side that has a moment; none if local times are compared.
fn put_ahead(alloc: Global, page: &mut Markup, zones: Zones) -> Result<(), NoMemory>
    requires { ArePrintableZones zones }
    ensures { OnOk result (page.new ≡ page.old ++ ahead_html zones) }
{
    match zones {
        Zones::Local | Zones::Unknown => page.piece(Piece::Sentence(SentencePiece::FirstEnd)),
        Zones::Moments { ahead, .. } => {
            page.piece(Piece::Sentence(SentencePiece::FirstAhead))?;
            put_ahead_text(alloc, page, ahead)?;
            page.piece(Piece::Sentence(SentencePiece::FirstAheadEnd))
        }
    }
}

// Whether only the zones make the difference.
pub(crate) fn is_only_zones(zones: Zones) -> bool
    ensures { result ≡ is_only_zones zones }
{
    match zones {
        Zones::Local | Zones::Unknown => false,
        Zones::Moments { only_zones, .. } => only_zones,
    }
}

// The first moment that one side alone has.
#[tactic(auto, unfolding(crate::specs::Said::first_html))]
fn put_first(
    alloc: Global,
    page: &mut Markup,
    kind: Kind,
    at: i64,
    side: Side,
    zones: Zones,
) -> Result<(), NoMemory>
    requires moment { IsPrintableAt kind at }
    requires zones { ArePrintableZones zones }
    ensures { OnOk result (page.new ≡ page.old ++ first_html kind at side zones) }
{
    let only = by_side(
        side,
        Piece::Sentence(SentencePiece::FirstA),
        Piece::Sentence(SentencePiece::FirstB),
    );
    page.piece(Piece::Sentence(SentencePiece::FirstStart))?;
    put_moment(alloc, page, kind, at)?;
    put_ahead(alloc, page, zones)?;
    page.piece(only)?;
    put_if(
        page,
        is_only_zones(zones),
        Piece::Sentence(SentencePiece::OnlyZones),
    )
}

// How many occurrences exactly one side has beside the first.
#[tactic(auto, unfolding(crate::specs::Said::further_html))]
fn put_further(alloc: Global, page: &mut Markup, further: Further) -> Result<(), NoMemory>
    requires { IsPrintableFurther further }
    ensures { OnOk result (page.new ≡ page.old ++ further_html further) }
{
    match further {
        Further::NoMore => page.piece(Piece::Sentence(SentencePiece::NoMore)),
        Further::Many => page.piece(Piece::Sentence(SentencePiece::MoreMany)),
        Further::ForEver => page.piece(Piece::Sentence(SentencePiece::MoreForEver)),
        Further::Until { count, last } => {
            page.piece(Piece::Sentence(SentencePiece::MoreStart))?;
            put_number(alloc, page, count as u64)?;
            page.piece(Piece::Sentence(SentencePiece::MoreUntil))?;
            put_moment(alloc, page, last.kind, last.at)?;
            page.piece(Piece::Sentence(SentencePiece::MoreEnd))
        }
    }
}

// Puts how many further differences there are and until when, if local times differ.
fn put_more(
    alloc: Global,
    page: &mut Markup,
    difference: &Option<Difference>,
) -> Result<(), NoMemory>
    requires { IfSome difference.now (λ difference. IsPrintableFurther difference.further) }
    ensures { OnOk result (page.new ≡ page.old ++ more_html difference.now) }
{
    match difference {
        None => Ok(()),
        Some(difference) => put_further(alloc, page, difference.further),
    }
}

// ---- what is said

// What is said of events to look at.
#[tactic(auto, unfolding(crate::specs::Said::said_html))]
pub(crate) fn put_said(
    alloc: Global,
    page: &mut Markup,
    said: Said,
    difference: &Option<Difference>,
) -> Result<(), NoMemory>
    requires said { IsPrintableSaid said }
    requires further { IfSome difference.now (λ difference. IsPrintableFurther difference.further) }
    ensures { OnOk result (page.new ≡ page.old ++ said_html said difference.now) }
{
    match said {
        Said::Refused { .. } | Said::Alike(_) => Ok(()),
        Said::Only(side) => page.piece(by_side(
            side,
            Piece::Sentence(SentencePiece::OnlyA),
            Piece::Sentence(SentencePiece::OnlyB),
        )),
        Said::Floating(side) => page.piece(by_side(
            side,
            Piece::Sentence(SentencePiece::FloatingA),
            Piece::Sentence(SentencePiece::FloatingB),
        )),
        Said::Length(other) => put_lengths(alloc, page, other),
        Said::Compared { verdict, zones } => match verdict {
            Verdict::Yes => Ok(()),
            Verdict::No { kind, at, side } => {
                put_first(alloc, page, kind, at, side, zones)?;
                put_more(alloc, page, difference)
            }
        },
    }
}

// Whether events that have another key in B have another title there too.
fn has_other_title(partner: &Option<Partner>) -> bool
    ensures { result ≡ has_other_title partner.now }
{
    match partner {
        None => false,
        Some(partner) => partner.has_other_title,
    }
}

// How events were found again and read.
#[tactic(auto, unfolding(crate::specs::Said::marks_html))]
pub(crate) fn put_marks(
    page: &mut Markup,
    partner: &Option<Partner>,
    marks: Marks,
) -> Result<(), NoMemory>
    ensures { OnOk result (page.new ≡ page.old ++ marks_html partner.now marks) }
{
    let other = has_other_title(partner);
    put_if(page, other, Piece::Sentence(SentencePiece::OtherTitle))?;
    put_if(page, marks.until, Piece::Sentence(SentencePiece::ReadUntil))?;
    put_if(page, marks.start, Piece::Sentence(SentencePiece::ReadStart))?;
    put_if(page, marks.day, Piece::Sentence(SentencePiece::ReadDay))
}
