// The date values of a line, cut off one after the other (RFC 5545, section 3.8.5; vCalendar 1.0, the same properties).
ghost use Rattle.std.specs.Prelude.{◌≡◌, position, MatchOption};
ghost use Rattle.rr_model.specs.Text.Calendars.{is_comma};
ghost use Rattle.rr_model.specs.Vcal.Reading.{is_comma_or_semicolon};
ghost use Rattle.rr_ical.specs.Kept.{IsDateCut, IsOneDate, is_date_separator};

fn comma_index(text: &[u8]) -> Option<usize>
    ensures { result ≡ position is_comma text.now }
{
    text.iter().position(|b| *b == b',')
}

fn comma_or_semicolon_index(text: &[u8]) -> Option<usize>
    ensures { result ≡ position is_comma_or_semicolon text.now }
{
    text.iter().position(|b| *b == b',' || *b == b';')
}

// The index of the first byte that stands between date values.
fn separator_index(takes_semicolons: bool, text: &[u8]) -> Option<usize>
    ensures { result ≡ position (is_date_separator takes_semicolons) text.now }
{
    if takes_semicolons {
        comma_or_semicolon_index(text)
    } else {
        comma_index(text)
    }
}

/// The first date value of a text, and what stands after the separator behind it; `None` if the text is one value.
pub(crate) fn cut_date(takes_semicolons: bool, text: &[u8]) -> Option<(&[u8], &[u8])>
    ensures { MatchOption result (IsOneDate takes_semicolons text.now)
        (λ sides. IsDateCut takes_semicolons text.now sides.0.now sides.1.now) }
{
    match separator_index(takes_semicolons, text) {
        Some(index) => Some((&text[..index], &text[index + 1..])),
        None => None,
    }
}
