// Texts of a file in a page of HTML.
ghost use Rattle.std.specs.Prelude.{◌≡◌, ◌++◌, OnErr, OnOk};
ghost use Rattle.rr_html.specs.Markup.{IsMarkup, html_byte, html_text, is_clean, is_kept, reference};

use rr_model::NoMemory;

fn is_clean(byte: u8) -> bool
    ensures { result ≡ is_clean byte }
{
    byte >= 32 && byte != b'<' && byte != b'>' && byte != b'"' && byte != b'\'' && byte != 127
}

// Whether a byte stands for itself.
fn is_kept(byte: u8) -> bool
    ensures { result ≡ is_kept byte }
{
    is_clean(byte) && byte != b'&'
}

// The reference that stands for a byte that does not stand for itself.
fn reference(byte: u8) -> &'static [u8]
    ensures { result.now ≡ reference byte }
{
    match byte {
        b'&' => b"&amp;",
        b'<' => b"&lt;",
        b'>' => b"&gt;",
        b'"' => b"&quot;",
        b'\'' => b"&#39;",
        b'\n' => b"&#10;",
        _ => b"&#xFFFD;",
    }
}

fn push_byte(out: &mut Vec<u8>, byte: u8) -> Result<(), NoMemory>
    ensures ok { OnOk result (out.new.items ≡ out.old.items ++ html_byte byte) }
    ensures err { OnErr result (out.new.items ≡ out.old.items) }
{
    if is_kept(byte) {
        out.push(byte)?;
        return Ok(());
    }
    out.extend_from_slice(reference(byte))?;
    Ok(())
}

// Appends a text as a page has it: the five signs of markup and line ends as references, and each other control
// character as the sign for what can't be shown. If memory runs out, a beginning of the text stands there.
pub(crate) fn push_escaped(out: &mut Vec<u8>, text: &[u8]) -> Result<(), NoMemory>
    ensures ok { OnOk result (out.new.items ≡ out.old.items ++ html_text text.now) }
    ensures markup { IsMarkup out.old.items → IsMarkup out.new.items }
{
    for byte in text {
        push_byte(out, *byte)?;
    }
    Ok(())
}
