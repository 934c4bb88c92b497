// The fixed pieces of a month.
ghost use Rattle.std.specs.Prelude.{◌≡◌};
ghost use Rattle.rr_html.specs.Pieces.{month_text};

/// A fixed piece of a month.
#[derive(Clone, Copy, Debug, PartialEq, Eq)]
pub enum MonthPiece {
    /// The start of the months of an event.
    MonthsStart,
    /// A month; its name and year follow.
    MonthStart,
    /// The days of the week; the first week of a month follows.
    MonthHead,
    /// A day of a week that is not of the month.
    OutCell,
    /// The end of a week and the start of the next.
    WeekEnd,
    /// A day on which both files have the same times; its number follows, and `SignSame`.
    CellSame,
    /// A day on which the files have different times; its number follows, and `SignOther`.
    CellOther,
    /// A day on which A alone has an occurrence; its number follows, and `SignA`.
    CellA,
    /// A day on which B alone has an occurrence; its number follows, and `SignB`.
    CellB,
    /// A day without an occurrence; its number follows, and `SignNone`.
    CellNone,
    /// The sign of a day on which both files have the same times.
    SignSame,
    /// The sign of a day on which the files have different times.
    SignOther,
    /// The sign of a day on which A alone has an occurrence.
    SignA,
    /// The sign of a day on which B alone has an occurrence.
    SignB,
    /// No sign: the end of a day without an occurrence.
    SignNone,
    /// The end of a month.
    MonthEnd,
    /// The end of the months of an event.
    MonthsEnd,
}

impl MonthPiece {
    /// The markup of the piece, which is fixed.
    pub fn text(self) -> &'static [u8]
        ensures { result.now ≡ month_text self }
    {
        match self {
            MonthPiece::MonthsStart => b"<div class=\"months\">\n",
            MonthPiece::MonthStart => b"<table class=\"month\">\n<caption>",
            MonthPiece::MonthHead =>
                b"</caption>\n<thead><tr><th scope=\"col\">Mo</th><th scope=\"col\">Tu</th><th scope=\"col\">We</th><th scope=\"col\">Th</th><th scope=\"col\">Fr</th><th scope=\"col\">Sa</th><th scope=\"col\">Su</th></tr></thead>\n<tbody>\n<tr>",
            MonthPiece::OutCell => b"<td class=\"out\"></td>",
            MonthPiece::WeekEnd => b"</tr>\n<tr>",
            MonthPiece::CellSame => b"<td class=\"same\"><span>",
            MonthPiece::CellOther => b"<td class=\"other\"><span>",
            MonthPiece::CellA => b"<td class=\"a\"><span>",
            MonthPiece::CellB => b"<td class=\"b\"><span>",
            MonthPiece::CellNone => b"<td><span>",
            MonthPiece::SignSame => b"</span><b>=</b></td>",
            MonthPiece::SignOther => b"</span><b>&ne;</b></td>",
            MonthPiece::SignA => b"</span><b>A</b></td>",
            MonthPiece::SignB => b"</span><b>B</b></td>",
            MonthPiece::SignNone => b"</span><b>&nbsp;</b></td>",
            MonthPiece::MonthEnd => b"</tr>\n</tbody>\n</table>\n",
            MonthPiece::MonthsEnd => b"</div>\n",
        }
    }
}
