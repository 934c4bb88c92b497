// Hostile texts in a page, and a page of two pieces and a text.
use rr_html::{FramePiece, Markup, Piece};
use std::alloc::Global;
use std::process::Abort;
use std::test::*;

// What stands of a text in a page.
fn escaped(alloc: Global, text: &[u8]) -> Option<Vec<u8>> {
    let mut markup = Markup::new(alloc);
    markup.text(text).ok()?;
    Some(markup.into_bytes())
}

// A sentence, a text and an end tag.
fn sentence(alloc: Global, text: &[u8]) -> Option<Vec<u8>> {
    let mut markup = Markup::new(alloc);
    markup.piece(Piece::Frame(FramePiece::Survived)).ok()?;
    markup.text(text).ok()?;
    markup.piece(Piece::Frame(FramePiece::LeadEnd)).ok()?;
    Some(markup.into_bytes())
}

fn is_said(rt: &impl Abort, said: Option<Vec<u8>>, wanted: &[u8]) {
    let Some(said) = said else {
        panic!(rt; "out of memory");
    };
    assert_eq!(rt; said.as_slice(), wanted);
}

fn stands(rt: &impl Abort, alloc: Global, text: &[u8], wanted: &[u8]) {
    is_said(rt, escaped(alloc, text), wanted);
}

#[test]
fn marks_stand_as_references(rt: HostRuntime) {
    let alloc = rt.alloc();
    stands(&rt, alloc, b"<script>", b"&lt;script&gt;");
    stands(&rt, alloc, b"\" on='x'", b"&quot; on=&#39;x&#39;");
    stands(&rt, alloc, b"a & b &amp;", b"a &amp; b &amp;amp;");
}

#[test]
fn control_bytes_do_not_stand(rt: HostRuntime) {
    let alloc = rt.alloc();
    stands(&rt, alloc, b"a\nb", b"a&#10;b");
    stands(&rt, alloc, b"\ta\x7F", b"&#xFFFD;a&#xFFFD;");
    stands(&rt, alloc, b"\0\r", b"&#xFFFD;&#xFFFD;");
}

#[test]
fn other_bytes_stand(rt: HostRuntime) {
    let alloc = rt.alloc();
    stands(&rt, alloc, b"caf\xC3\xA9", b"caf\xC3\xA9");
    stands(&rt, alloc, b"\xC3<\xFF", b"\xC3&lt;\xFF");
    stands(&rt, alloc, b"", b"");
}

#[test]
fn pieces_and_a_text(rt: HostRuntime) {
    let said = sentence(rt.alloc(), b"</p>");
    is_said(&rt, said, b"Every event survived&lt;/p&gt;</p>\n");
}
