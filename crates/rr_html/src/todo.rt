// The fixed pieces of what to do.
ghost use Rattle.std.specs.Prelude.{◌≡◌};
ghost use Rattle.rr_html.specs.Pieces.{todo_text};

/// A fixed piece of what to do.
#[derive(Clone, Copy, Debug, PartialEq, Eq)]
pub enum TodoPiece {
    /// What to do about an event that A alone has.
    TodoOnlyA,
    /// What to do about an event that B alone has.
    TodoOnlyB,
    /// What to do about times without a zone in one file.
    TodoFloating,
    /// What to do about another length.
    TodoLength,
    /// What to do about an occurrence that A alone has.
    TodoA,
    /// What to do about an occurrence that B alone has.
    TodoB,
    /// What to do about another time zone.
    TodoZones,
    /// What to do about zones that are not defined.
    TodoUnsure,
    /// The advice on a refusal follows.
    AdviceStart,
    /// The end of the advice on a refusal.
    AdviceEnd,
}

impl TodoPiece {
    /// The markup of the piece, which is fixed.
    pub fn text(self) -> &'static [u8]
        ensures { result.now ≡ todo_text self }
    {
        match self {
            TodoPiece::TodoOnlyA =>
                b"<p class=\"todo\">To do: enter it in B, unless it was left out on purpose.</p>\n",
            TodoPiece::TodoOnlyB =>
                b"<p class=\"todo\">To do: keep it if it was entered on purpose; otherwise delete it from B.</p>\n",
            TodoPiece::TodoFloating =>
                b"<p class=\"todo\">To do: give it a time zone where it has none.</p>\n",
            TodoPiece::TodoLength =>
                b"<p class=\"todo\">To do: set the end of the event in B as it is in A.</p>\n",
            TodoPiece::TodoA =>
                b"<p class=\"todo\">To do: enter in B what A alone has; the marked days show where.</p>\n",
            TodoPiece::TodoB =>
                b"<p class=\"todo\">To do: take out of B what it alone has; the marked days show where.</p>\n",
            TodoPiece::TodoZones =>
                b"<p class=\"todo\">To do: set the time zone of the event in B to that of A.</p>\n",
            TodoPiece::TodoUnsure =>
                b"<p class=\"todo\">To do: compare again with a file that defines the zones, by --zones.</p>\n",
            TodoPiece::AdviceStart => b"<p class=\"todo\">To do: ",
            TodoPiece::AdviceEnd => b"</p>\n",
        }
    }
}
