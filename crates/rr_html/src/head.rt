// The fixed pieces of the head of a page: files, options and counts.
ghost use Rattle.std.specs.Prelude.{◌≡◌};
ghost use Rattle.rr_html.specs.Pieces.{head_text};

/// A fixed piece of the head of a page: files, options and counts.
#[derive(Clone, Copy, Debug, PartialEq, Eq)]
pub enum HeadPiece {
    /// The start of the table of the two files.
    FilesStart,
    /// The file A; its name follows.
    FileA,
    /// The file B; its name follows.
    FileB,
    /// The language that a file was read as follows.
    FileLanguage,
    /// How far local time is ahead of UTC by the option follows.
    FileOffset,
    /// The number of bytes of a file follows.
    FileBytes,
    /// The SHA-256 of a file follows.
    FileSum,
    /// The end of a file.
    FileEnd,
    /// The end of the table of the two files.
    FilesEnd,
    /// The options follow, and `FramePiece::LeadEnd`.
    OptionsStart,
    /// The option `--strict` was given.
    OptionStrict,
    /// The option `--by-uid` was given.
    OptionByUid,
    /// The option `--differences` was given.
    OptionDifferences,
    /// The option `--zones` was given; the name of its file follows.
    OptionZones,
    /// The number of events to look at follows.
    CountsStart,
    /// The number of events that are not comparable follows.
    CountUndecided,
    /// The number of equal events follows.
    CountEqual,
    /// The end of the counts, and the filter, which its script shows.
    CountsEnd,
}

impl HeadPiece {
    /// The markup of the piece, which is fixed.
    pub fn text(self) -> &'static [u8]
        ensures { result.now ≡ head_text self }
    {
        match self {
            HeadPiece::FilesStart =>
                b"<table class=\"files\">\n<thead><tr><th scope=\"col\">Side</th><th scope=\"col\">File</th><th scope=\"col\">Read as</th><th scope=\"col\">Bytes</th><th scope=\"col\">SHA-256</th></tr></thead>\n<tbody>\n",
            HeadPiece::FileA =>
                b"<tr><th scope=\"row\"><span class=\"side a\">A</span></th><td><b>",
            HeadPiece::FileB =>
                b"<tr><th scope=\"row\"><span class=\"side b\">B</span></th><td><b>",
            HeadPiece::FileLanguage => b"</b></td><td>",
            HeadPiece::FileOffset => b" with an offset of ",
            HeadPiece::FileBytes => b"</td><td>",
            HeadPiece::FileSum => b"</td><td><code>",
            HeadPiece::FileEnd => b"</code></td></tr>\n",
            HeadPiece::FilesEnd => b"</tbody>\n</table>\n",
            HeadPiece::OptionsStart => b"<p class=\"lead\">Options: ",
            HeadPiece::OptionStrict => b"<code>--strict</code> ",
            HeadPiece::OptionByUid => b"<code>--by-uid</code> ",
            HeadPiece::OptionDifferences => b"<code>--differences</code> ",
            HeadPiece::OptionZones => b"<code>--zones</code> ",
            HeadPiece::CountsStart => b"<ul class=\"counts\">\n<li><a href=\"#look\"><b>",
            HeadPiece::CountUndecided =>
                b"</b> to look at</a></li>\n<li><a href=\"#undecided\"><b>",
            HeadPiece::CountEqual => b"</b> not comparable</a></li>\n<li><a href=\"#equal\"><b>",
            HeadPiece::CountsEnd =>
                b"</b> equal</a></li>\n</ul>\n<input id=\"filter\" type=\"search\" autocomplete=\"off\" aria-label=\"Filter events by any text\" placeholder=\"Filter events by any text\" hidden>\n",
        }
    }
}
