// Blanks and tabs at the ends of a text.
ghost use Rattle.std.specs.Prelude.{◌≡◌, ◌+◌, ◌≤◌, drop, length, take, take_while, reverse};
ghost use Rattle.rr_model.specs.Text.Rules.{is_blank};
ghost use Rattle.rr_model.specs.Text.UsedLines.{trim};

fn is_blank(byte: u8) -> bool
    ensures { result ≡ is_blank byte }
{
    byte == b' ' || byte == b'\t'
}

fn count_blanks_before(text: &[u8]) -> usize
    ensures { result ≡ length (take_while is_blank text.now) }
{
    text.iter().take_while(|b| is_blank(**b)).count()
}

fn count_blanks_after(text: &[u8]) -> usize
    ensures { result ≡ length (take_while is_blank (reverse text.now)) }
{
    text.iter().rev().take_while(|b| is_blank(**b)).count()
}

/// Where a part of a text stands.
#[derive(Clone, Copy)]
pub struct TextPart {
    /// The index of its first byte.
    pub from: usize,
    /// How many bytes it has.
    pub count: usize,
}

/// Where the text without the blanks and tabs around it stands; of a text of nothing else an empty part.
pub fn trimmed_part(text: &[u8]) -> TextPart
    ensures within { result.from + result.count ≤ length text.now }
    ensures value { take result.count (drop result.from text.now) ≡ trim text.now }
{
    let from = count_blanks_before(text);
    let rest = &text[from..];
    TextPart {
        from,
        count: rest.len() - count_blanks_after(rest),
    }
}

/// The text without the blanks and tabs around it; of a text of nothing else the empty text.
pub fn trim(text: &[u8]) -> &[u8]
    ensures { result.now ≡ trim text.now }
{
    let part = trimmed_part(text);
    &text[part.from..part.from + part.count]
}
