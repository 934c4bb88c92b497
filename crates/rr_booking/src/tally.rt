// How a booking ends by its lines.
ghost use Rattle.std.specs.Prelude.{◌≡◌, ◌||◌};
ghost use Rattle.rr_answer.specs.Outcome.{status_of};
ghost use Rattle.rr_booking.specs.Booking.{is_no, is_refused, status_by};

use rr_answer::{Conclusion, Status};

/// What was said so far.
#[derive(Clone, Copy)]
pub struct Tally {
    /// Whether the candidate clashes with one of the others.
    pub clashes: bool,
    /// Whether one of the others is refused.
    pub refused: bool,
}

impl Tally {
    /// With one line more, by how it concludes.
    pub fn with(self, conclusion: Conclusion) -> Tally
        ensures clashes { result.clashes ≡ (self.clashes || is_no (status_of conclusion)) }
        ensures refused { result.refused ≡ (self.refused || is_refused (status_of conclusion)) }
    {
        match conclusion {
            Conclusion::Yes => self,
            Conclusion::No => Tally {
                clashes: true,
                ..self
            },
            Conclusion::Refused => Tally {
                refused: true,
                ..self
            },
        }
    }

    /// How all of it ends.
    pub fn status(self) -> Status
        ensures { result ≡ status_by self.clashes self.refused }
    {
        if self.clashes {
            Status::No
        } else if self.refused {
            Status::Refused
        } else {
            Status::Yes
        }
    }
}
