//! A page of HTML that is made of fixed pieces and of escaped texts, and of nothing else.
#![tactic(auto)]

mod escape;
mod event;
mod frame;
mod head;
mod laws;
mod markup;
mod month;
mod piece;
mod section;
mod sentence;
mod todo;

pub use event::EventPiece;
pub use frame::FramePiece;
pub use head::HeadPiece;
pub use laws::pages_are_clean;
pub use markup::Markup;
pub use month::MonthPiece;
pub use piece::Piece;
pub use section::SectionPiece;
pub use sentence::SentencePiece;
pub use todo::TodoPiece;
