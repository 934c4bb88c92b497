// The words for sides.
ghost use Rattle.std.specs.Prelude.{◌≡◌};
ghost use Rattle.rr_text.specs.Printed.{side_text};

use rr_model::Side;

/// The word for a side, as verdicts and refusals print it: `A`, `B` or `both`.
pub fn side_text(side: Side) -> &'static str
    ensures { result.now ≡ side_text side }
{
    match side {
        Side::A => "A",
        Side::B => "B",
        Side::Both => "both",
    }
}
