// The words of the command line.
ghost use Rattle.std.specs.Prelude.{◌≡◌, option_map};
ghost use Rattle.rr_compare.specs.Words.{given_of, is_input, is_lines, is_only, is_torn, is_word, of_two_texts, offset_in, request_of, share_input, with_file, with_name, with_offset, with_operand, with_option, with_word, with_zones};
ghost use Rattle.rr_compare.specs.Parsed.{asked_in, asked_of_words, given_in, operand_in, request_in, word_in, words_of};

use crate::operand::{Operand, operand_of};
use rr_text::offset_of;

/// What is said of words that ask nothing.
pub const USAGE: &[u8] =
    b"usage: rr-calendars OLD NEW [--differences] [--titles] [--json | --html] [--strict] [--by-uid] [--offset +HH:MM] [--zones FILE] [--show UID]\n";

/// The page that `--help` prints.
pub const HELP: &[u8] =
    b"rr-calendars says of two calendar files whether each event survived the trip between them, for all years to come.

  rr-calendars OLD NEW [--differences] [--titles] [--json | --html] [--strict] [--by-uid] [--offset +HH:MM] [--zones FILE] [--show UID]
  rr-calendars --help, this page, or --version, the release

OLD and NEW are calendar files of at most 64 MiB; one of the two may be - for standard input. Before a name its language may stand:
ics: for iCalendar (RFC 5545), graph: for a list of events of Microsoft Graph in JSON, vcal: for vCalendar 1.0. A bare name is told
by its content. graph@+01:00:NAME states local time less UTC for this file alone. A file whose own name begins so is ./graph:NAME.
Events are found again by their UID, those of Graph by their iCalUId. There is a line for each, in the order of their UIDs:

  equal UID                           the same occurrences, at the same moments
  differs UID no MOMENT A             the first occurrence that only OLD (A) or only NEW (B) has
  differs UID floating A              this side has neither a zone nor UTC, and the other side has
  only A UID                          only this file has the event; one that is cancelled is equal
  refused UID A REASON LINE           the event cannot be read, with the line in the file, of Graph the number of the event
  length UID 3600 900                 the same occurrences, of which one is so many seconds long in OLD, and so many in NEW (1d: days)
  alike UID A REASON LINE             neither file's event can be read, and both files state it in the same words

An event whose UID the other file lacks, or that has none, is found again without it, among those of the other file that are left so: by
its title and its first 64 occurrences, then by its title and the first one alone, then by the 64 alone, if one event in each file is left
with them; by its title alone if it cannot be read or nothing occurs in it. Of several that are the same so the first goes with the first,
the second with the second, if both files have as many. A pair is compared as any event is, in one line with both UIDs, as
equal UID = UID-IN-NEW; title stands behind it if the titles differ. --by-uid finds events by their UID alone, and those without one by
their line.

Times are compared as moments if the zones of both sides are defined: by a VTIMEZONE of the same file, of the other one, or of FILE,
where Windows' names stand for those of tzdata. Behind a moment stands then how far local time is ahead of UTC, or Z. Otherwise
local times are compared. Behind a line stands zone if local times are equal, and the zones are not, or are not known to be.
What is at odds with RFC 5545 is read as calendars show it, and a line says so by its last words: until, an UNTIL of the other kind than
the start's ends with its day; start, a start that its rule does not choose is an occurrence all the same; day, an EXDATE or
RECURRENCE-ID that is a date stands for the occurrence of that day. --strict refuses these.
--differences leaves out the lines of equal events without zone. --titles ends each line with the title of its event between quotes,
that of OLD if it has the event, otherwise that of NEW; bytes of it that are not visible are printed as x and two digits.
Moments of UTC beside local time are read by the zones that the file defines; --offset states local time less UTC, for those that no
zone turns, and for events without a zone.
The last line counts them all, and as matched those that were found without their UID. On a terminal a comparison of more than a second
says how far it is.
--json prints all of this as one object of JSON, for programs; --html as one page to look at, which needs nothing from elsewhere, with the
differing events first, their rules in words and the months of their first difference. Both have titles, and --show beside neither.

--show UID prints the line of this event alone, and below it, if it differs, how many differences more there are and until when
(more 51 until MOMENT, more 0, more for ever, more 9999 at least), and of the month of the first one and the two after it those that
have a difference. Behind the number of each day, Monday first, stands = if both have it at the same times, x if both have it at
others, A or B if this file alone has it, . if none has; then the usual times, and the days with others. UID is as it is printed
here, of a pair either; if it is none, but the title of the events of one UID or pair alone, that is shown. Of others it prints unknown
UID, status 2.

The status is 0 if all are equal or alike, 1 if one differs, in length too, or stands in one file alone, 2 if none does but one is refused, or is
equal with zone behind it, 3 for other words, 4 if a file could not be read, 5 if the output could not be written, 6 out of memory,
7 if a word is no text in UTF-8.
";

/// In which form a comparison is told.
#[derive(Clone, Copy, Debug, PartialEq, Eq)]
pub enum Form {
    /// A line for each event.
    Lines,
    /// One object of JSON (RFC 8259).
    Json,
    /// One page of HTML, which needs nothing from elsewhere.
    Html,
}

/// What is asked of two files.
#[derive(Clone, Copy)]
pub struct Request<'a> {
    /// The file A, which stands first.
    pub old: Operand<'a>,
    /// The file B, which stands second.
    pub new: Operand<'a>,
    /// Whether the lines of equal events are left out.
    pub only_differences: bool,
    /// Whether each line ends with the title of its event.
    pub titles: bool,
    /// Whether what is at odds with RFC 5545 is refused, and not read as calendars show it.
    pub strict: bool,
    /// Whether events are found again by their UID alone.
    pub by_uid: bool,
    /// The stated offset of a file that has none of its own, local time less UTC, in seconds.
    pub offset: Option<i32>,
    /// The name of a file that defines further zones, which is not empty.
    pub zones: Option<&'a str>,
    /// The name of the only event that is asked for, as a report prints it, which is not empty.
    pub show: Option<&'a str>,
    /// In which form all events are told, if none is asked for alone, and the refusal of a file in either case.
    pub form: Form,
}

/// What the words of a command line ask.
#[derive(Clone, Copy)]
pub enum Asked<'a> {
    /// The page of help, by `--help` alone.
    Help,
    /// The line that names the release, by `--version` alone.
    Version,
    /// A comparison of two files.
    Comparison(Request<'a>),
}

/// What the next word is.
#[derive(Clone, Copy, Debug, PartialEq, Eq)]
pub enum Next {
    /// A file or an option.
    Word,
    /// The value of `--offset`, as `+01:00`.
    Offset,
    /// The value of `--zones`, a file.
    Zones,
    /// The value of `--show`, the name of an event.
    Name,
}

// What the words so far ask, and what the next one is.
#[derive(Clone, Copy)]
struct Given<'a> {
    old: Option<Operand<'a>>,
    new: Option<Operand<'a>>,
    only_differences: bool,
    titles: bool,
    strict: bool,
    by_uid: bool,
    offset: Option<i32>,
    zones: Option<&'a str>,
    show: Option<&'a str>,
    form: Form,
    next: Next,
}

// An offset from UTC in seconds: hours after their sign, a colon, and minutes.
fn offset_in(text: &[u8]) -> Option<i32>
    ensures { result ≡ offset_in text.now }
{
    if text.len() == 6 && text[3] == b':' {
        offset_of(&text[..3], &text[4..])
    } else {
        None
    }
}

// With a file, the first of which is A.
fn with_operand<'a>(given: Given<'a>, operand: Operand<'a>) -> Option<Given<'a>>
    ensures { option_map given_in result
        ≡ with_operand (given_in given.entry) (operand_in operand.entry) }
{
    if given.old.is_none() {
        return Some(Given {
            old: Some(operand),
            ..given
        });
    }
    if given.new.is_some() {
        return None;
    }
    Some(Given {
        new: Some(operand),
        ..given
    })
}

// With the word of a file.
fn with_file<'a>(given: Given<'a>, word: &'a str) -> Option<Given<'a>>
    ensures { option_map given_in result ≡ with_file (given_in given.entry) word.now }
{
    let operand = operand_of(word)?;
    with_operand(given, operand)
}

// With the value of `--offset`.
fn with_offset<'a>(given: Given<'a>, text: &str) -> Option<Given<'a>>
    ensures { option_map given_in result ≡ with_offset (given_in given.entry) text.now }
{
    let offset = offset_in(text.as_bytes())?;
    Some(Given {
        offset: Some(offset),
        next: Next::Word,
        ..given
    })
}

// With the value of `--zones`.
fn with_zones<'a>(given: Given<'a>, name: &'a str) -> Option<Given<'a>>
    ensures { option_map given_in result ≡ with_zones (given_in given.entry) name.now }
{
    if name.is_empty() {
        return None;
    }
    Some(Given {
        zones: Some(name),
        next: Next::Word,
        ..given
    })
}

// With the value of `--show`.
fn with_name<'a>(given: Given<'a>, name: &'a str) -> Option<Given<'a>>
    ensures { option_map given_in result ≡ with_name (given_in given.entry) name.now }
{
    if name.is_empty() {
        return None;
    }
    Some(Given {
        show: Some(name),
        next: Next::Word,
        ..given
    })
}

// Whether a form is that of lines.
fn is_lines(form: Form) -> bool
    ensures { result ≡ is_lines form }
{
    matches!(form, Form::Lines)
}

// With a word that is no option's value. Each option is given once, and one form.
fn with_option<'a>(given: Given<'a>, word: &'a str) -> Option<Given<'a>>
    ensures { option_map given_in result ≡ with_option (given_in given.entry) word.now }
{
    match word {
        "--differences" if !given.only_differences => Some(Given {
            only_differences: true,
            ..given
        }),
        "--titles" if !given.titles => Some(Given {
            titles: true,
            ..given
        }),
        "--json" if is_lines(given.form) => Some(Given {
            form: Form::Json,
            ..given
        }),
        "--html" if is_lines(given.form) => Some(Given {
            form: Form::Html,
            ..given
        }),
        "--strict" if !given.strict => Some(Given {
            strict: true,
            ..given
        }),
        "--by-uid" if !given.by_uid => Some(Given {
            by_uid: true,
            ..given
        }),
        "--offset" if given.offset.is_none() => Some(Given {
            next: Next::Offset,
            ..given
        }),
        "--zones" if given.zones.is_none() => Some(Given {
            next: Next::Zones,
            ..given
        }),
        "--show" if given.show.is_none() => Some(Given {
            next: Next::Name,
            ..given
        }),
        _ => with_file(given, word),
    }
}

// The words so far with a further one; none if it is refused.
fn with_word<'a>(given: Given<'a>, word: &'a str) -> Option<Given<'a>>
    ensures { option_map given_in result ≡ with_word (given_in given.entry) word.now }
{
    match given.next {
        Next::Word => with_option(given, word),
        Next::Offset => with_offset(given, word),
        Next::Zones => with_zones(given, word),
        Next::Name => with_name(given, word),
    }
}

// The words of a comparison, files and options in any order.
fn given_of<'a>(words: &[&'a str]) -> Option<Given<'a>>
    ensures { option_map given_in result ≡ given_of (words_of words.now) }
{
    let mut given = Given {
        old: None,
        new: None,
        only_differences: false,
        titles: false,
        strict: false,
        by_uid: false,
        offset: None,
        zones: None,
        show: None,
        form: Form::Lines,
        next: Next::Word,
    };
    for word in words {
        given = with_word(given, word)?;
    }
    Some(given)
}

// Whether no option waits for its value.
fn is_word(next: Next) -> bool
    ensures { result ≡ is_word next }
{
    matches!(next, Next::Word)
}

// Whether a name is that of standard input.
fn is_input(name: &str) -> bool
    ensures { result ≡ is_input name.now }
{
    name == "-"
}

// Whether two of the files are standard input.
fn share_input(old: Operand, new: Operand, zones: Option<&str>) -> bool
    ensures { result ≡ share_input (operand_in old.entry) (operand_in new.entry) (word_in zones.entry) }
{
    let is_old = is_input(old.name);
    let is_new = is_input(new.name);
    match zones {
        Some(name) if is_input(name) => is_old || is_new,
        _ => is_old && is_new,
    }
}

// Whether one event alone is asked for, which is told in lines, and another form for all of them.
fn is_torn(show: Option<&str>, form: Form) -> bool
    ensures { result ≡ is_torn (word_in show.entry) form }
{
    show.is_some() && !is_lines(form)
}

// The comparison that the words ask. Standard input, `-`, can be one of the files alone. In a form that is not lines all events have titles.
fn request_of<'a>(given: Given<'a>) -> Option<Request<'a>>
    ensures { option_map request_in result ≡ request_of (given_in given.entry) }
{
    let old = given.old?;
    let new = given.new?;
    if !is_word(given.next) || share_input(old, new, given.zones) {
        return None;
    }
    if is_torn(given.show, given.form) {
        return None;
    }
    Some(Request {
        old,
        new,
        only_differences: given.only_differences,
        titles: given.titles || !is_lines(given.form),
        strict: given.strict,
        by_uid: given.by_uid,
        offset: given.offset,
        zones: given.zones,
        show: given.show,
        form: given.form,
    })
}

// Whether this is the only word.
fn is_only(word: &str, words: &[&str]) -> bool
    ensures { result ≡ is_only word.now (words_of words.now) }
{
    if words.len() != 1 {
        return false;
    }
    words[0] == word
}

/// What the words ask, if they ask something: `--help` or `--version` alone, or two files, with `--differences`, `--titles`, `--json` or
/// `--html`, `--strict`, `--by-uid`, `--offset`, `--zones` and `--show` at any place; `--show` stands beside neither `--json` nor `--html`.
#[tactic(auto, unfolding(crate::specs::Words::asked_of))]
pub fn parse<'a>(words: &[&'a str]) -> Option<Asked<'a>>
    ensures { option_map asked_in result ≡ asked_of_words words.now }
{
    if is_only("--help", words) {
        return Some(Asked::Help);
    }
    if is_only("--version", words) {
        return Some(Asked::Version);
    }
    let given = given_of(words)?;
    Some(Asked::Comparison(request_of(given)?))
}

// What words ask of two texts alone: nothing if they name a file of further zones.
fn of_two_texts(asked: Option<Asked>) -> Option<Asked>
    ensures { option_map asked_in result ≡ of_two_texts (option_map asked_in asked.entry) }
{
    match asked {
        Some(Asked::Comparison(request)) if request.zones.is_some() => None,
        asked => asked,
    }
}

/// What the words ask if there are two texts and no files: the same, but nothing with `--zones`.
pub fn parse_of_two<'a>(words: &[&'a str]) -> Option<Asked<'a>>
    ensures { option_map asked_in result ≡ of_two_texts (asked_of_words words.now) }
{
    of_two_texts(parse(words))
}
