// An event to look at, on a page.
ghost use Rattle.std.specs.Prelude.{◌≡◌, ◌++◌, IfSome, OnOk};
ghost use Rattle.rr_html.specs.Markup.{html_text};
ghost use Rattle.rr_html.specs.Pieces.{piece_text};
ghost use Rattle.rr_model.specs.Series.Validity.{IsValidSeries};
ghost use Rattle.rr_page.specs.Event.{difference_html, event_html, name_html, partner_html, series_html, side_html, start_of_side, start_piece, todo_html, todo_of_no};
ghost use Rattle.rr_trip.specs.Printed.{IsPrintableFurther};
ghost use Rattle.rr_trip.specs.Said.{IsPrintableSaid};
ghost use Rattle.rr_wording.specs.Words.{series_words};

use crate::month::{put_months, put_times};
use crate::put::{by_side, put_key, put_title};
use crate::said::{is_only_zones, put_marks, put_said};
use rr_html::{EventPiece, Markup, Piece, TodoPiece};
use rr_model::{NoMemory, Series, Side, Verdict};
use rr_trip::{Detail, Difference, Partner, ReportLine, Said};
use rr_wording::push_series;
use std::alloc::Global;

// ---- what the events are called

// The end of a key, with the key in B if that is another one.
fn put_partner(alloc: Global, page: &mut Markup, partner: &Option<Partner>) -> Result<(), NoMemory>
    ensures { OnOk result (page.new ≡ page.old ++ partner_html partner.now) }
{
    match partner {
        None => page.piece(Piece::Event(EventPiece::KeyEnd)),
        Some(partner) => {
            page.piece(Piece::Event(EventPiece::PartnerStart))?;
            put_key(alloc, page, &partner.key)?;
            page.piece(Piece::Event(EventPiece::PartnerEnd))
        }
    }
}

// The title and the key of a line, up to what is said of it.
#[tactic(auto, unfolding(crate::specs::Event::name_html))]
pub(crate) fn put_name(alloc: Global, page: &mut Markup, line: &ReportLine) -> Result<(), NoMemory>
    ensures { OnOk result (page.new ≡ page.old ++ name_html line.now) }
{
    put_title(alloc, page, &line.title)?;
    page.piece(Piece::Event(EventPiece::TitleEnd))?;
    put_key(alloc, page, &line.key)?;
    put_partner(alloc, page, &line.partner)?;
    page.piece(Piece::Event(EventPiece::KeyClose))
}

// The start of an event, by the side that has something alone.
fn start_of_side(side: Side) -> EventPiece
    ensures { result ≡ start_of_side side }
{
    match side {
        Side::A => EventPiece::EventA,
        Side::B => EventPiece::EventB,
        Side::Both => EventPiece::EventBoth,
    }
}

// The start of an event of which this is said.
#[tactic(auto, unfolding(crate::specs::Event::start_piece))]
fn start_piece(said: Said) -> EventPiece
    ensures { result ≡ start_piece said }
{
    match said {
        Said::Only(side) => start_of_side(side),
        Said::Refused { .. } | Said::Alike(_) => EventPiece::EventNone,
        Said::Floating(_) | Said::Length(_) => EventPiece::EventBoth,
        Said::Compared { verdict, .. } => match verdict {
            Verdict::Yes => EventPiece::EventNone,
            Verdict::No { side, .. } => start_of_side(side),
        },
    }
}

// ---- what the files state of them

// Puts a series in words, escaped.
fn put_words(alloc: Global, page: &mut Markup, series: &Series) -> Result<(), NoMemory>
    requires { IsValidSeries series.now }
    ensures { OnOk result (page.new ≡ page.old ++ html_text (series_words series.now)) }
{
    let mut text = Vec::new(alloc);
    push_series(&mut text, series)?;
    page.text(&text)
}

// The series of a side in words, if it states one.
fn put_side(
    alloc: Global,
    page: &mut Markup,
    piece: EventPiece,
    series: &Option<Series>,
) -> Result<(), NoMemory>
    requires { IfSome series.now IsValidSeries }
    ensures { OnOk result (page.new ≡ page.old ++ side_html piece series.now) }
{
    match series {
        None => Ok(()),
        Some(series) => {
            page.piece(Piece::Event(piece))?;
            put_words(alloc, page, series)?;
            page.piece(Piece::Event(EventPiece::SeriesRowEnd))
        }
    }
}

// The series of both sides.
#[tactic(auto, unfolding(crate::specs::Event::series_html))]
fn put_series(
    alloc: Global,
    page: &mut Markup,
    a: &Option<Series>,
    b: &Option<Series>,
) -> Result<(), NoMemory>
    requires a { IfSome a.now IsValidSeries }
    requires b { IfSome b.now IsValidSeries }
    ensures { OnOk result (page.new ≡ page.old ++ series_html a.now b.now) }
{
    if a.is_none() && b.is_none() {
        return Ok(());
    }
    page.piece(Piece::Event(EventPiece::SeriesStart))?;
    put_side(alloc, page, EventPiece::SeriesA, a)?;
    put_side(alloc, page, EventPiece::SeriesB, b)?;
    page.piece(Piece::Event(EventPiece::SeriesEnd))
}

// Where their local times differ.
#[tactic(auto, unfolding(crate::specs::Event::difference_html))]
fn put_difference(
    alloc: Global,
    page: &mut Markup,
    difference: &Option<Difference>,
) -> Result<(), NoMemory>
    ensures { OnOk result (page.new ≡ page.old ++ difference_html difference.now) }
{
    match difference {
        None => Ok(()),
        Some(difference) => {
            put_months(alloc, page, &difference.months)?;
            put_times(page, &difference.times)
        }
    }
}

// ---- what to do

// What to do about a moment that one side alone has.
fn todo_of_no(side: Side, only_zones: bool) -> Piece
    ensures { result ≡ todo_of_no side only_zones }
{
    if only_zones {
        return Piece::Todo(TodoPiece::TodoZones);
    }
    by_side(
        side,
        Piece::Todo(TodoPiece::TodoA),
        Piece::Todo(TodoPiece::TodoB),
    )
}

// What to do about events to look at.
#[tactic(auto, unfolding(crate::specs::Event::todo_html))]
fn put_todo(page: &mut Markup, said: Said) -> Result<(), NoMemory>
    ensures { OnOk result (page.new ≡ page.old ++ todo_html said) }
{
    match said {
        Said::Refused { .. } | Said::Alike(_) => Ok(()),
        Said::Only(side) => page.piece(by_side(
            side,
            Piece::Todo(TodoPiece::TodoOnlyA),
            Piece::Todo(TodoPiece::TodoOnlyB),
        )),
        Said::Floating(_) => page.piece(Piece::Todo(TodoPiece::TodoFloating)),
        Said::Length(_) => page.piece(Piece::Todo(TodoPiece::TodoLength)),
        Said::Compared { verdict, zones } => match verdict {
            Verdict::Yes => Ok(()),
            Verdict::No { side, .. } => page.piece(todo_of_no(side, is_only_zones(zones))),
        },
    }
}

// ---- the event

// Events to look at: what they are called, what is said of them, what each file states, where they differ, and what to do.
#[tactic(auto, unfolding(crate::specs::Event::event_html))]
pub(crate) fn put_event(
    alloc: Global,
    page: &mut Markup,
    line: &ReportLine,
    detail: &Detail,
) -> Result<(), NoMemory>
    requires said { IsPrintableSaid line.now.said }
    requires further { IfSome detail.now.difference
        (λ difference. IsPrintableFurther difference.further) }
    requires a { IfSome detail.now.series_a IsValidSeries }
    requires b { IfSome detail.now.series_b IsValidSeries }
    ensures { OnOk result (page.new ≡ page.old ++ event_html line.now detail.now) }
{
    page.piece(Piece::Event(start_piece(line.said)))?;
    put_name(alloc, page, line)?;
    put_said(alloc, page, line.said, &detail.difference)?;
    put_marks(page, &line.partner, line.marks)?;
    page.piece(Piece::Event(EventPiece::SaidEnd))?;
    put_series(alloc, page, &detail.series_a, &detail.series_b)?;
    put_difference(alloc, page, &detail.difference)?;
    put_todo(page, line.said)?;
    page.piece(Piece::Event(EventPiece::EventEnd))
}
