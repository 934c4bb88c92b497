// Words in capitals, and the weekdays that two of them name.
ghost use Rattle.std.specs.Prelude.{◌≡◌, ok_or};
ghost use Rattle.std.specs.Str.{bytes_eq};
ghost use Rattle.rr_model.specs.Text.RuleValues.{weekday_named};
ghost use Rattle.rr_model.specs.Text.Written.{weekday_text};
ghost use Rattle.rr_model.specs.declared.refusal.Refusal.TheVariants.{BadRule};

use rr_model::Refusal;

/// Whether the text is the word.
pub fn is_word(text: &[u8], word: &[u8]) -> bool
    ensures { result ≡ bytes_eq text.now word.now }
{
    text == word
}

/// The weekday that two capitals name, from 0 for Monday.
#[tactic(auto, unfolding(rr_model::specs::Text::RuleValues::weekday_named))]
pub fn weekday_named(text: &[u8]) -> Option<u8>
    ensures { result ≡ weekday_named text.now }
{
    if is_word(text, b"MO") {
        Some(0)
    } else if is_word(text, b"TU") {
        Some(1)
    } else if is_word(text, b"WE") {
        Some(2)
    } else if is_word(text, b"TH") {
        Some(3)
    } else if is_word(text, b"FR") {
        Some(4)
    } else if is_word(text, b"SA") {
        Some(5)
    } else if is_word(text, b"SU") {
        Some(6)
    } else {
        None
    }
}

/// The weekday that two capitals name, from 0 for Monday; `BadRule` comes if they name none.
pub fn weekday_of(line: u64, text: &[u8]) -> Result<u8, Refusal>
    ensures { result ≡ ok_or (weekday_named text.now) (BadRule line) }
{
    weekday_named(text).ok_or(Refusal::BadRule(line))
}

/// The two letters of a weekday, from 0 for Monday to 6 for Sunday.
#[tactic(auto, unfolding(rr_model::specs::Text::Written::weekday_text))]
pub fn weekday_text(weekday: u8) -> &'static [u8]
    ensures { result.now ≡ weekday_text weekday }
{
    match weekday {
        0 => b"MO",
        1 => b"TU",
        2 => b"WE",
        3 => b"TH",
        4 => b"FR",
        5 => b"SA",
        _ => b"SU",
    }
}
