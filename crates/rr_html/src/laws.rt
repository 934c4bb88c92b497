// A law of texts in a page, the contract of a function that does nothing.
ghost use Rattle.rr_html.specs.Markup.{PagesAreClean};

/// Whatever bytes a text has, what stands of it in a page is no markup.
pub fn pages_are_clean()
    ensures { PagesAreClean }
{}
