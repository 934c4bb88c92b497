// What shows the answer to a question.
ghost use Rattle.std.specs.Prelude.{◌≡◌};
ghost use Rattle.rr_decide.specs.Question.{ShowsNoneBelow, shown_by};

use rr_model::{Question, Side};

/// How many free days in a row are passed over at once. Fewer are compared in blocks with the days about them, which costs less.
pub const FREE_DAYS: u64 = 64;

/// Whether an occurrence on this side shows that the answer is no.
pub(crate) fn is_shown_by(question: Question, side: Side) -> bool
    ensures { result ≡ shown_by question side }
{
    match question {
        Question::Equal => side != Side::Both,
        Question::Within => side == Side::A,
        Question::Disjoint => side == Side::Both,
    }
}

/// Whether it matters on how many days the second set has no occurrence, if the first has none on `of_a` days.
pub(crate) fn asks_second(question: Question, of_a: u64) -> bool {
    match question {
        Question::Equal => of_a >= FREE_DAYS,
        Question::Within => false,
        Question::Disjoint => of_a < FREE_DAYS,
    }
}

/// On how many days no occurrence shows that the answer is no, if the first set has none on `a` days and the second none
/// on `b`.
pub(crate) fn days_without(question: Question, a: u64, b: u64) -> u64
    ensures { ShowsNoneBelow (shown_by question) a b result }
{
    match question {
        Question::Equal => a.min(b),
        Question::Within => a,
        Question::Disjoint => a.max(b),
    }
}
