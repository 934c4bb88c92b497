// A fixed piece of a page.
ghost use Rattle.std.specs.Prelude.{◌≡◌};
ghost use Rattle.rr_html.specs.Pieces.{piece_text};

use crate::event::EventPiece;
use crate::frame::FramePiece;
use crate::head::HeadPiece;
use crate::month::MonthPiece;
use crate::section::SectionPiece;
use crate::sentence::SentencePiece;
use crate::todo::TodoPiece;

/// A fixed piece of a page.
#[derive(Clone, Copy, Debug, PartialEq, Eq)]
pub enum Piece {
    /// Of the frame of a page.
    Frame(FramePiece),
    /// Of the head of a page: files, options and counts.
    Head(HeadPiece),
    /// Of sections of events, and of lists in them.
    Section(SectionPiece),
    /// Of an event to look at.
    Event(EventPiece),
    /// Of what is said of an event.
    Sentence(SentencePiece),
    /// Of a month of an event's differences.
    Month(MonthPiece),
    /// Of what to do about an event.
    Todo(TodoPiece),
}

impl Piece {
    /// The markup of the piece, which is fixed.
    #[tactic(auto, unfolding(crate::specs::Pieces::piece_text))]
    pub fn text(self) -> &'static [u8]
        ensures { result.now ≡ piece_text self }
    {
        match self {
            Piece::Frame(piece) => piece.text(),
            Piece::Head(piece) => piece.text(),
            Piece::Section(piece) => piece.text(),
            Piece::Event(piece) => piece.text(),
            Piece::Sentence(piece) => piece.text(),
            Piece::Month(piece) => piece.text(),
            Piece::Todo(piece) => piece.text(),
        }
    }
}
