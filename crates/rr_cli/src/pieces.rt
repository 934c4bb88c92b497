// The text of an answer as one that a sink takes piece by piece.
ghost use Rattle.std.specs.Prelude.{OnOk};
ghost use Rattle.std.specs.Io.KnownBytes.{Appends};
ghost use Rattle.rr_answer.specs.Outcome.{text_bytes};

use rr_answer::AnswerText;
use rr_io::Text;
use std::io::{self, Write};

/// The text of an answer, which writes itself.
#[derive(Drop)]
pub struct Pieces<'a> {
    /// The text.
    pub text: &'a AnswerText,
}

impl Text for Pieces<'_> {
    ghost bytes = { λ p. text_bytes p.text.now };

    fn write_to<W: Write>(&self, out: &mut W) -> io::Result<()>
        ensures { OnOk result (Appends (W.contents out.old) (W.contents out.new)
            (text_bytes self.now.text.now)) }
    {
        self.text.write_to(out)
    }
}
