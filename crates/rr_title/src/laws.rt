// A law of titles, the contract of a function that does nothing.
ghost use Rattle.rr_title.specs.Title.{TitlesAreSafe};

/// Whatever bytes a title has, what is printed of it is visible characters and escaped bytes.
pub fn titles_are_safe()
    ensures { TitlesAreSafe }
{}
