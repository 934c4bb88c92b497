// The fixed pieces of an event.
ghost use Rattle.std.specs.Prelude.{◌≡◌};
ghost use Rattle.rr_html.specs.Pieces.{event_text};

/// A fixed piece of an event.
#[derive(Clone, Copy, Debug, PartialEq, Eq)]
pub enum EventPiece {
    /// An event that A alone has, or of which A has the first difference; its title follows.
    EventA,
    /// An event that B alone has, or of which B has the first difference; its title follows.
    EventB,
    /// An event that differs in both files; its title follows.
    EventBoth,
    /// An event that is not comparable; its title follows.
    EventNone,
    /// An event has no title.
    NoTitle,
    /// The end of a title; the key of the event follows.
    TitleEnd,
    /// The key before is that in A; the one in B follows.
    PartnerStart,
    /// The end of the key in B.
    PartnerEnd,
    /// The end of the key that both files have.
    KeyEnd,
    /// The end of the keys; what is said of the event follows.
    KeyClose,
    /// The end of what is said of an event.
    SaidEnd,
    /// The start of what the files state of an event.
    SeriesStart,
    /// What A states of an event follows.
    SeriesA,
    /// What B states of an event follows.
    SeriesB,
    /// The end of what a file states of an event.
    SeriesRowEnd,
    /// The end of what the files state of an event.
    SeriesEnd,
    /// The times of an event follow, line by line.
    TimesStart,
    /// The end of the times of an event.
    TimesEnd,
    /// The end of an event.
    EventEnd,
}

impl EventPiece {
    /// The markup of the piece, which is fixed.
    pub fn text(self) -> &'static [u8]
        ensures { result.now ≡ event_text self }
    {
        match self {
            EventPiece::EventA => b"<article class=\"event a\">\n<h3 dir=\"auto\">",
            EventPiece::EventB => b"<article class=\"event b\">\n<h3 dir=\"auto\">",
            EventPiece::EventBoth => b"<article class=\"event both\">\n<h3 dir=\"auto\">",
            EventPiece::EventNone => b"<article class=\"event none\">\n<h3 dir=\"auto\">",
            EventPiece::NoTitle => b"(no title)",
            EventPiece::TitleEnd => b"</h3>\n<p><code>",
            EventPiece::PartnerStart => b"</code> in A, <code>",
            EventPiece::PartnerEnd => b"</code> in B",
            EventPiece::KeyEnd => b"</code>",
            EventPiece::KeyClose => b"</p>\n<p class=\"said\">",
            EventPiece::SaidEnd => b"</p>\n",
            EventPiece::SeriesStart => b"<table class=\"series\">\n",
            EventPiece::SeriesA =>
                b"<tr><th scope=\"row\"><span class=\"side a\">A</span></th><td>",
            EventPiece::SeriesB =>
                b"<tr><th scope=\"row\"><span class=\"side b\">B</span></th><td>",
            EventPiece::SeriesRowEnd => b"</td></tr>\n",
            EventPiece::SeriesEnd => b"</table>\n",
            EventPiece::TimesStart => b"<pre class=\"times\">",
            EventPiece::TimesEnd => b"</pre>\n",
            EventPiece::EventEnd => b"</article>\n",
        }
    }
}
