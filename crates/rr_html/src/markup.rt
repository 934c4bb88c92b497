// A page that is being written.
ghost use Rattle.std.specs.Prelude.{◌≡◌, ◌++◌, [], OnOk};
ghost use Rattle.rr_html.specs.Markup.{IsMarkup, html_text};
ghost use Rattle.rr_html.specs.Pieces.{piece_text};

use crate::escape::push_escaped;
use crate::piece::Piece;
use rr_model::NoMemory;
use std::alloc::Global;
use std::marker::Model;

/// Markup: fixed pieces and escaped texts, one after another, and nothing else.
#[derive(Drop)]
pub struct Markup {
    bytes: Vec<u8>,
}

impl Model for Markup {
    ghost use Rattle.std.specs.Prelude.{List, ℕ};
    ghost use Rattle.rr_html.specs.Markup.{IsMarkup};

    ghost Value = { List ℕ };

    ghost view = { λ m. m.bytes.items };

    ghost invariant = { λ m. ∥ IsMarkup m.bytes.items ∥₁ };
}

impl Markup {
    /// Markup without a piece; it takes no memory.
    pub fn new(alloc: Global) -> Self
        ensures { result ≡ [] }
    {
        Markup {
            bytes: Vec::new(alloc),
        }
    }

    /// Appends the markup of a fixed piece.
    pub fn piece(&mut self, piece: Piece) -> Result<(), NoMemory>
        ensures { OnOk result (self.new ≡ self.old ++ piece_text piece) }
    {
        self.bytes.extend_from_slice(piece.text())?;
        Ok(())
    }

    /// Appends a text, escaped: nothing in it is markup.
    pub fn text(&mut self, text: &[u8]) -> Result<(), NoMemory>
        ensures { OnOk result (self.new ≡ self.old ++ html_text text.now) }
    {
        push_escaped(&mut self.bytes, text)
    }

    /// The bytes of all that was appended.
    pub fn into_bytes(self) -> Vec<u8>
        ensures bytes { result.items ≡ self }
        ensures markup { ∥ IsMarkup result.items ∥₁ }
    {
        self.bytes
    }
}
