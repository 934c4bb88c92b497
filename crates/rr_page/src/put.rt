// Texts that a page has in several places.
ghost use Rattle.std.specs.Prelude.{◌≡◌, ◌++◌, OnOk, Some};
ghost use Rattle.rr_html.specs.Markup.{html_text};
ghost use Rattle.rr_html.specs.Pieces.{piece_text};
ghost use Rattle.rr_page.specs.Event.{key_html, title_html};
ghost use Rattle.rr_page.specs.Head.{by_side, number_html, piece_if};
ghost use Rattle.rr_page.specs.Sections.{advice_html};
ghost use Rattle.rr_text.specs.Printed.{IsPrintableAt};
ghost use Rattle.rr_title.specs.Title.{title_text};
ghost use Rattle.rr_wording.specs.Dates.{moment_words};

use rr_html::{EventPiece, Markup, Piece, TodoPiece};
use rr_model::{Bytes, Kind, NoMemory, Side};
use rr_seam::Key;
use rr_text::push_unsigned;
use rr_title::push_title;
use rr_trip::push_key;
use rr_wording::push_moment;
use std::alloc::Global;

// A piece if it is wanted.
pub(crate) fn put_if(page: &mut Markup, wanted: bool, piece: Piece) -> Result<(), NoMemory>
    ensures { OnOk result (page.new ≡ page.old ++ piece_if wanted piece) }
{
    if wanted {
        return page.piece(piece);
    }
    Ok(())
}

pub(crate) fn put_number(alloc: Global, page: &mut Markup, number: u64) -> Result<(), NoMemory>
    ensures { OnOk result (page.new ≡ page.old ++ number_html number) }
{
    let mut text = Vec::new(alloc);
    push_unsigned(&mut text, number)?;
    page.text(&text)
}

// A date or a moment.
pub(crate) fn put_moment(
    alloc: Global,
    page: &mut Markup,
    kind: Kind,
    at: i64,
) -> Result<(), NoMemory>
    requires { IsPrintableAt kind at }
    ensures { OnOk result (page.new ≡ page.old ++ html_text (moment_words kind at)) }
{
    let mut text = Vec::new(alloc);
    push_moment(&mut text, kind, at)?;
    page.text(&text)
}

pub(crate) fn put_key(alloc: Global, page: &mut Markup, key: &Key) -> Result<(), NoMemory>
    ensures { OnOk result (page.new ≡ page.old ++ key_html key.now) }
{
    let mut text = Vec::new(alloc);
    push_key(&mut text, key)?;
    page.text(&text)
}

// A title that is not empty.
fn put_some_title(alloc: Global, page: &mut Markup, title: &[u8]) -> Result<(), NoMemory>
    ensures { OnOk result (page.new ≡ page.old ++ html_text (title_text title.now)) }
{
    let mut text = Vec::new(alloc);
    push_title(&mut text, title)?;
    page.text(&text)
}

// The bytes of a title, or that there are none.
fn put_title_bytes(alloc: Global, page: &mut Markup, title: &[u8]) -> Result<(), NoMemory>
    ensures { OnOk result (page.new ≡ page.old ++ title_html (Some title.now)) }
{
    match title {
        [] => page.piece(Piece::Event(EventPiece::NoTitle)),
        [_, ..] => put_some_title(alloc, page, title),
    }
}

// A title, or that there is none.
pub(crate) fn put_title(
    alloc: Global,
    page: &mut Markup,
    title: &Option<Bytes>,
) -> Result<(), NoMemory>
    ensures { OnOk result (page.new ≡ page.old ++ title_html title.now) }
{
    match title {
        None => page.piece(Piece::Event(EventPiece::NoTitle)),
        Some(title) => put_title_bytes(alloc, page, title.as_slice()),
    }
}

// The piece for the side: the second for B, otherwise the first.
pub(crate) fn by_side(side: Side, a: Piece, b: Piece) -> Piece
    ensures { result ≡ by_side side a b }
{
    match side {
        Side::B => b,
        Side::A | Side::Both => a,
    }
}

// What to do, as advice in a text.
#[tactic(auto, unfolding(crate::specs::Sections::advice_html))]
pub(crate) fn put_advice(page: &mut Markup, text: &[u8]) -> Result<(), NoMemory>
    ensures { OnOk result (page.new ≡ page.old ++ advice_html text.now) }
{
    page.piece(Piece::Todo(TodoPiece::AdviceStart))?;
    page.text(text)?;
    page.piece(Piece::Todo(TodoPiece::AdviceEnd))
}
