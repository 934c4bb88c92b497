// The fixed pieces of what is said of an event.
ghost use Rattle.std.specs.Prelude.{◌≡◌};
ghost use Rattle.rr_html.specs.Pieces.{sentence_text};

/// A fixed piece of what is said of an event.
#[derive(Clone, Copy, Debug, PartialEq, Eq)]
pub enum SentencePiece {
    /// A alone has the event.
    OnlyA,
    /// B alone has the event.
    OnlyB,
    /// A states local times without a zone, and B does not.
    FloatingA,
    /// B states local times without a zone, and A does not.
    FloatingB,
    /// The times are equal, and the lengths differ; that in A follows.
    LengthA,
    /// The length in B follows.
    LengthB,
    /// The end of the lengths.
    LengthEnd,
    /// The day or the moment of the first difference follows.
    FirstStart,
    /// How far local time is ahead of UTC at the first difference follows.
    FirstAhead,
    /// The end of how far local time is ahead of UTC.
    FirstAheadEnd,
    /// The end of a first difference at a day, or of which the zone is not known.
    FirstEnd,
    /// A alone has an occurrence at the first difference.
    FirstA,
    /// B alone has an occurrence at the first difference.
    FirstB,
    /// The local times are equal, and the zones differ.
    OnlyZones,
    /// There is no further difference.
    NoMore,
    /// The number of further differences follows.
    MoreStart,
    /// The day or the moment of the last difference follows.
    MoreUntil,
    /// The end of the further differences.
    MoreEnd,
    /// There are 9,999 further differences, or more.
    MoreMany,
    /// There are further differences without end.
    MoreForEver,
    /// B has the event under another title.
    OtherTitle,
    /// An UNTIL of another kind than the start was read leniently.
    ReadUntil,
    /// A start that its rule does not choose was read leniently.
    ReadStart,
    /// A day was read leniently as the occurrence on that day.
    ReadDay,
    /// What A states of the event is refused; the refusal follows.
    RefusedA,
    /// What B states of the event is refused; the refusal follows.
    RefusedB,
    /// What both files state of the event in the same words is refused; the refusal follows.
    Alike,
    /// The end of the refusal of an event.
    RefusalEnd,
    /// The local times are equal, and nobody can tell whether the zones are.
    Unsure,
}

impl SentencePiece {
    /// The markup of the piece, which is fixed.
    pub fn text(self) -> &'static [u8]
        ensures { result.now ≡ sentence_text self }
    {
        match self {
            SentencePiece::OnlyA => b"Only <span class=\"side a\">A</span> has this event.",
            SentencePiece::OnlyB => b"Only <span class=\"side b\">B</span> has this event.",
            SentencePiece::FloatingA =>
                b"<span class=\"side a\">A</span> states local times without a time zone, and <span class=\"side b\">B</span> states a zone or UTC.",
            SentencePiece::FloatingB =>
                b"<span class=\"side b\">B</span> states local times without a time zone, and <span class=\"side a\">A</span> states a zone or UTC.",
            SentencePiece::LengthA => b"The same times, but an occurrence lasts ",
            SentencePiece::LengthB => b" in <span class=\"side a\">A</span> and ",
            SentencePiece::LengthEnd => b" in <span class=\"side b\">B</span>.",
            SentencePiece::FirstStart => b"The first difference is on <b>",
            SentencePiece::FirstAhead => b"</b> (UTC offset ",
            SentencePiece::FirstAheadEnd => b")",
            SentencePiece::FirstEnd => b"</b>",
            SentencePiece::FirstA =>
                b": only <span class=\"side a\">A</span> has an occurrence then.",
            SentencePiece::FirstB =>
                b": only <span class=\"side b\">B</span> has an occurrence then.",
            SentencePiece::OnlyZones =>
                b" The local times are equal for ever: only the time zone is another one.",
            SentencePiece::NoMore => b" It is the only one.",
            SentencePiece::MoreStart => b" Further differences: ",
            SentencePiece::MoreUntil => b", the last on ",
            SentencePiece::MoreEnd => b".",
            SentencePiece::MoreMany => b" Further differences: at least 9,999.",
            SentencePiece::MoreForEver => b" There are more for ever.",
            SentencePiece::OtherTitle =>
                b" The title is another one in <span class=\"side b\">B</span>: the event was found again by its first occurrences.",
            SentencePiece::ReadUntil =>
                b" An UNTIL of another kind than the start was read as a date, to the end of that day.",
            SentencePiece::ReadStart =>
                b" The start, which its rule does not choose, was read as an occurrence.",
            SentencePiece::ReadDay =>
                b" An EXDATE or RECURRENCE-ID that is a date was read as the occurrence of that day.",
            SentencePiece::RefusedA =>
                b"It is not compared, since what <span class=\"side a\">A</span> states of it is refused: <code>",
            SentencePiece::RefusedB =>
                b"It is not compared, since what <span class=\"side b\">B</span> states of it is refused: <code>",
            SentencePiece::Alike =>
                b"Both files state it in the same words, which are refused: <code>",
            SentencePiece::RefusalEnd => b"</code>.",
            SentencePiece::Unsure =>
                b"The local times are equal for ever, but the time zones have different names, and not both are defined: nobody can tell whether they are the same moments.",
        }
    }
}
