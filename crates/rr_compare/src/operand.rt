// A word that names a calendar file, before whose name its language and its own offset may stand.
ghost use Rattle.std.specs.Prelude.{◌≡◌, option_map};
ghost use Rattle.rr_compare.specs.Facts.{word_of};
ghost use Rattle.rr_compare.specs.Operands.{bare, by_language, by_offset, by_parts, language_of, named, operand_of, split_around, with_own_offset};
ghost use Rattle.rr_compare.specs.Parsed.{operand_in};

use rr_text::offset_of;

/// The language of a calendar file.
#[derive(Clone, Copy, Debug, PartialEq, Eq)]
pub enum Language {
    /// iCalendar, a text of RFC 5545; its word is `ics`.
    Ics,
    /// A list of events of Microsoft Graph, in JSON; its word is `graph`.
    Graph,
    /// vCalendar 1.0; its word is `vcal`.
    Vcal,
}

/// The word of a language.
pub(crate) fn word_of(language: Language) -> &'static str
    ensures { result.now ≡ word_of language }
{
    match language {
        Language::Ics => "ics",
        Language::Graph => "graph",
        Language::Vcal => "vcal",
    }
}

/// A calendar file as words state it.
#[derive(Clone, Copy)]
pub struct Operand<'a> {
    /// Its language, if the word states it; otherwise its content tells it.
    pub language: Option<Language>,
    /// Its own stated offset, local time less UTC, in seconds.
    pub offset: Option<i32>,
    /// The name under which it is fetched, which is not empty.
    pub name: &'a str,
}

// The language of this name.
fn language_of(text: &str) -> Option<Language>
    ensures { result ≡ language_of text.now }
{
    match text {
        "ics" => Some(Language::Ics),
        "graph" => Some(Language::Graph),
        "vcal" => Some(Language::Vcal),
        _ => None,
    }
}

fn around_colon(text: &str) -> Option<(&str, &str)>
    ensures { option_map (λ x. (x.0.now, x.1.now)) result ≡ split_around 58 text.now }
{
    text.split_once(':')
}

fn around_at(text: &str) -> Option<(&str, &str)>
    ensures { option_map (λ x. (x.0.now, x.1.now)) result ≡ split_around 64 text.now }
{
    text.split_once('@')
}

// A file of a stated language.
fn named<'a>(language: Language, offset: Option<i32>, name: &'a str) -> Option<Operand<'a>>
    ensures { option_map operand_in result ≡ named language offset name.now }
{
    if name.is_empty() {
        return None;
    }
    Some(Operand {
        language: Some(language),
        offset,
        name,
    })
}

// A file of which no language is stated.
fn bare(name: &str) -> Option<Operand>
    ensures { option_map operand_in result ≡ bare name.now }
{
    if name.is_empty() || name.starts_with("--") {
        return None;
    }
    Some(Operand {
        language: None,
        offset: None,
        name,
    })
}

// A file of a stated language and an offset: its sign and hours, and what stands after the colon.
fn with_own_offset<'a>(language: Language, signed_hours: &str, rest: &'a str) -> Option<Operand<'a>>
    ensures { option_map operand_in result
        ≡ with_own_offset language signed_hours.now rest.now }
{
    let (minutes, name) = around_colon(rest)?;
    let offset = offset_of(signed_hours.as_bytes(), minutes.as_bytes())?;
    named(language, Some(offset), name)
}

// The file of a word with a text before its colon in which no `@` stands.
fn by_language<'a>(word: &'a str, head: &str, rest: &'a str) -> Option<Operand<'a>>
    ensures { option_map operand_in result ≡ by_language word.now rest.now (language_of head.now) }
{
    match language_of(head) {
        None => bare(word),
        Some(language) => named(language, None, rest),
    }
}

// The file of a word with an `@` before its colon.
fn by_offset<'a>(
    word: &'a str,
    head: &str,
    signed_hours: &str,
    rest: &'a str,
) -> Option<Operand<'a>>
    ensures { option_map operand_in result
        ≡ by_offset word.now signed_hours.now rest.now (language_of head.now) }
{
    match language_of(head) {
        None => bare(word),
        Some(language) => with_own_offset(language, signed_hours, rest),
    }
}

// The file of a word with these parts around its first colon.
fn by_parts<'a>(word: &'a str, head: &str, rest: &'a str) -> Option<Operand<'a>>
    ensures { option_map operand_in result
        ≡ by_parts word.now head.now rest.now (split_around 64 head.now) }
{
    match around_at(head) {
        None => by_language(word, head, rest),
        Some((language, signed_hours)) => by_offset(word, language, signed_hours, rest),
    }
}

/// The file that a word names: `LANGUAGE:NAME`, `LANGUAGE@OFFSET:NAME`, or the bare name of one whose content tells its
/// language; `None` of a word that names none so.
#[tactic(auto, unfolding(crate::specs::Operands::operand_of))]
pub fn operand_of(word: &str) -> Option<Operand>
    ensures { option_map operand_in result ≡ operand_of word.now }
{
    match around_colon(word) {
        None => bare(word),
        Some((head, rest)) => by_parts(word, head, rest),
    }
}
