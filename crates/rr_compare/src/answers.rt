// What is answered to words, over the bytes of the files.
ghost use Rattle.std.specs.Prelude.{◌≡◌, All, IfOk, option_map};
ghost use Rattle.rr_compare.specs.Answer.{IsAnswer, IsCompared, IsComparedWith, IsFaultAnswer, IsNamed, IsOfBoth, IsPrinted, IsRefusalPrinted, IsReported, TellsOf, status_by, utc_count};
ghost use Rattle.rr_compare.specs.Calendars.{new_as, new_calendar, old_as, old_calendar, stated_read, two_texts};
ghost use Rattle.rr_compare.specs.Facts.{facts_of, facts_on};
ghost use Rattle.rr_compare.specs.Outcomes.{outcome_is, text_calendar, texts_in, zoned_in};
ghost use Rattle.rr_compare.specs.Parsed.{asked_in, asked_of_words, request_in};
ghost use Rattle.rr_compare.specs.Words.{of_two_texts};
ghost use Rattle.rr_facts.specs.Facts.{facts_in};
ghost use Rattle.rr_trip.specs.Said.{IsPrintableSaid};

use crate::facts::{facts_of, offset_by};
use crate::file::ReadFile;
use crate::language::language_by;
use crate::names::Names;
use crate::operand::Language;
use crate::release::VERSION;
use crate::status::Status;
use crate::texts::{Texts, text_in, zones_of};
use crate::words::{Asked, Form, HELP, Request, USAGE, parse_of_two};
use rr_facts::Facts;
use rr_json::{print_json, print_json_refusal};
use rr_model::{NoMemory, Side};
use rr_page::{print_page, print_page_refusal};
use rr_seam::{FileFault, FileRefusal};
use rr_trip::{Report, Said, Unwatched, Watch, compare, is_in_utc, print, print_refusal, show};
use std::alloc::Global;

/// What is to be put, and how the run then ends.
#[derive(Drop)]
pub struct Outcome {
    /// How the run ends, if the text can be put.
    pub status: Status,
    /// What is put, all at once.
    pub text: Vec<u8>,
    /// How many events state UTC beside local time.
    pub in_utc: usize,
}

// How a run ends by how the comparison ends.
fn status_by(ending: rr_trip::Status) -> Status
    ensures { result ≡ status_by ending }
{
    match ending {
        rr_trip::Status::Equal => Status::Equal,
        rr_trip::Status::Differs => Status::Differs,
        rr_trip::Status::Refused => Status::Refused,
    }
}

// What is printed of a report of these calendars, in a form.
fn printed(
    alloc: Global,
    form: Form,
    facts: &Facts,
    a: &ReadFile,
    b: &ReadFile,
    report: &Report,
) -> Result<Vec<u8>, NoMemory>
    requires { All (λ line. IsPrintableSaid line.said) report.now.lines.items }
    ensures { IfOk result (λ text. IsPrinted form (facts_in facts.now) (stated_read a.now)
        (stated_read b.now) report.now.lines.items text.items) }
{
    match form {
        Form::Lines => print(alloc, facts.only_differences, report),
        Form::Json => print_json(alloc, facts, report),
        Form::Html => print_page(alloc, facts, a, b, report),
    }
}

// What is said of a report of these calendars.
fn report_outcome(
    alloc: Global,
    form: Form,
    facts: &Facts,
    a: &ReadFile,
    b: &ReadFile,
    report: &Report,
) -> Result<Outcome, NoMemory>
    requires { All (λ line. IsPrintableSaid line.said) report.now.lines.items }
    ensures answer { IfOk result (λ x. TellsOf form (facts_in facts.now) (stated_read a.now)
        (stated_read b.now) report.now.lines.items (outcome_is x)) }
{
    let text = printed(alloc, form, facts, a, b, report)?;
    Ok(Outcome {
        status: status_by(report.counts().status()),
        text,
        in_utc: report.in_utc_count(),
    })
}

// A file that was read, with what the names of its zones mean.
#[derive(Clone, Copy)]
struct ZonedFile<'f, 't, 'm, 'n, 'a> {
    file: &'f ReadFile<'t>,
    names: &'m Names<'n, 'a>,
}

// What is said of the report of two calendars.
fn comparison_outcome<W: Watch>(
    alloc: Global,
    request: Request,
    facts: &Facts,
    a: ZonedFile,
    b: ZonedFile,
    watch: &mut W,
) -> Result<Outcome, NoMemory>
    ensures { IfOk result (λ x. IsReported (request_in request.entry) (facts_in facts.now)
        (zoned_in a.entry) (zoned_in b.entry) (outcome_is x)) }
{
    let report = compare(
        alloc,
        a.file,
        a.names,
        b.file,
        b.names,
        request.by_uid,
        request.titles,
        watch,
    )?;
    report_outcome(alloc, request.form, facts, a.file, b.file, &report)
}

// How many events state UTC beside local time if this is said of one name.
fn in_utc_count(said: Option<Said>) -> usize
    ensures { result ≡ utc_count said }
{
    let Some(said) = said else {
        return 0;
    };
    if is_in_utc(said) { 1 } else { 0 }
}

// What is said of one name in two calendars.
fn name_outcome(
    alloc: Global,
    name: &str,
    by_uid: bool,
    titles: bool,
    a: ZonedFile,
    b: ZonedFile,
) -> Result<Outcome, NoMemory>
    ensures { IfOk result (λ x. IsNamed name.now by_uid titles (zoned_in a.entry)
        (zoned_in b.entry) (outcome_is x)) }
{
    let shown = show(
        alloc,
        a.file,
        a.names,
        b.file,
        b.names,
        name.as_bytes(),
        by_uid,
        titles,
    )?;
    Ok(Outcome {
        status: status_by(shown.status),
        in_utc: in_utc_count(shown.said),
        text: shown.text,
    })
}

// What is said of two calendars.
fn outcome_of_both<W: Watch>(
    alloc: Global,
    request: Request,
    facts: &Facts,
    a: ZonedFile,
    b: ZonedFile,
    watch: &mut W,
) -> Result<Outcome, NoMemory>
    ensures { IfOk result (λ x. IsOfBoth (request_in request.entry).show (request_in request.entry)
        (facts_in facts.now) (zoned_in a.entry) (zoned_in b.entry) (outcome_is x)) }
{
    match request.show {
        None => comparison_outcome(alloc, request, facts, a, b, watch),
        Some(name) => name_outcome(alloc, name, request.by_uid, request.titles, a, b),
    }
}

// What is printed of a file that is refused, in a form.
fn printed_refusal(
    alloc: Global,
    form: Form,
    facts: &Facts,
    side: Side,
    refusal: FileRefusal,
) -> Result<Vec<u8>, NoMemory>
    ensures { IfOk result (λ text. IsRefusalPrinted form (facts_in facts.now) side refusal text.items) }
{
    match form {
        Form::Lines => print_refusal(alloc, side, refusal),
        Form::Json => print_json_refusal(alloc, facts, side, refusal),
        Form::Html => print_page_refusal(alloc, facts, side, refusal),
    }
}

// What is said of a file that is refused.
fn refusal_outcome(
    alloc: Global,
    form: Form,
    facts: &Facts,
    side: Side,
    fault: FileFault,
) -> Result<Outcome, NoMemory>
    ensures { IfOk result (λ x. IsFaultAnswer form (facts_in facts.now) side fault (outcome_is x)) }
{
    match fault {
        FileFault::Refused(refusal) => Ok(Outcome {
            status: Status::Refused,
            text: printed_refusal(alloc, form, facts, side, refusal)?,
            in_utc: 0,
        }),
        FileFault::NoMemory => Err(NoMemory),
    }
}

// A text that is read as a calendar, with what the names of its zones mean.
#[derive(Clone, Copy)]
struct CalendarText<'t, 'n, 'a> {
    language: Language,
    is_lenient: bool,
    bytes: &'t [u8],
    names: Names<'n, 'a>,
}

// What is said of a text beside the calendar A.
fn outcome_beside<W: Watch>(
    alloc: Global,
    request: Request,
    facts: &Facts,
    a: ZonedFile,
    new: CalendarText,
    watch: &mut W,
) -> Result<Outcome, NoMemory>
    ensures { IfOk result (λ x. IsComparedWith (request_in request.entry) (facts_in facts.now)
        (zoned_in a.entry) (text_calendar new.entry) (outcome_is x)) }
{
    match ReadFile::read(alloc, new.language, new.is_lenient, &new.names, new.bytes) {
        Ok(file) => {
            let b = ZonedFile {
                file: &file,
                names: &new.names,
            };
            outcome_of_both(alloc, request, facts, a, b, watch)
        }
        Err(fault) => refusal_outcome(alloc, request.form, facts, Side::B, fault),
    }
}

// What is said of two texts.
fn compared_outcome<W: Watch>(
    alloc: Global,
    request: Request,
    facts: &Facts,
    old: CalendarText,
    new: CalendarText,
    watch: &mut W,
) -> Result<Outcome, NoMemory>
    ensures { IfOk result (λ x. IsCompared (request_in request.entry) (facts_in facts.now)
        (text_calendar old.entry) (text_calendar new.entry) (outcome_is x)) }
{
    match ReadFile::read(alloc, old.language, old.is_lenient, &old.names, old.bytes) {
        Ok(file) => {
            let a = ZonedFile {
                file: &file,
                names: &old.names,
            };
            outcome_beside(alloc, request, facts, a, new, watch)
        }
        Err(fault) => refusal_outcome(alloc, request.form, facts, Side::A, fault),
    }
}

// What is said of two files in these languages.
fn outcome_in<W: Watch>(
    alloc: Global,
    request: Request,
    a: Language,
    b: Language,
    texts: Texts,
    watch: &mut W,
) -> Result<Outcome, NoMemory>
    ensures { IfOk result (λ x. IsCompared (request_in request.entry)
        (facts_of (request_in request.entry) a b (texts_in texts.entry))
        (old_as a b (request_in request.entry) (texts_in texts.entry))
        (new_as a b (request_in request.entry) (texts_in texts.entry))
        (outcome_is x)) }
{
    let old = text_in(alloc, a, texts.old)?;
    let new = text_in(alloc, b, texts.new)?;
    let zones = zones_of(alloc, a, b, texts)?;
    let facts = facts_of(request, a, b, texts);
    let a = CalendarText {
        language: a,
        is_lenient: !request.strict,
        bytes: &old,
        names: Names {
            own: &zones.old,
            other: &zones.new,
            more: &zones.more,
            offset: offset_by(request.old.offset, request.offset),
        },
    };
    let b = CalendarText {
        language: b,
        is_lenient: !request.strict,
        bytes: &new,
        names: Names {
            own: &zones.new,
            other: &zones.old,
            more: &zones.more,
            offset: offset_by(request.new.offset, request.offset),
        },
    };
    compared_outcome(alloc, request, &facts, a, b, watch)
}

// What is said of two files, each in its language.
fn files_outcome<W: Watch>(
    alloc: Global,
    request: Request,
    texts: Texts,
    watch: &mut W,
) -> Result<Outcome, NoMemory>
    ensures { IfOk result (λ x. IsCompared (request_in request.entry)
        (facts_on (request_in request.entry) (texts_in texts.entry))
        (old_calendar (request_in request.entry) (texts_in texts.entry))
        (new_calendar (request_in request.entry) (texts_in texts.entry))
        (outcome_is x)) }
{
    let a = language_by(request.old.language, texts.old);
    let b = language_by(request.new.language, texts.new);
    outcome_in(alloc, request, a, b, texts, watch)
}

// A text of the program's own.
fn text_outcome(alloc: Global, text: &[u8], status: Status) -> Result<Outcome, NoMemory>
    ensures { IfOk result (λ x. outcome_is x
        ≡ record { status = status; bytes = text.now; in_utc = 0 }) }
{
    Ok(Outcome {
        status,
        text: text.to_vec(alloc)?,
        in_utc: 0,
    })
}

/// What is answered to what the words ask, over the bytes of the files, which are of no account if they ask for no comparison.
/// Moments of UTC in iCalendar are read in local time of the zones that the file defines. The watch is told how far a comparison is, and that it has ended.
pub fn answer_to<W: Watch>(
    alloc: Global,
    asked: Option<Asked>,
    texts: Texts,
    watch: &mut W,
) -> Result<Outcome, NoMemory>
    ensures { IfOk result (λ x. IsAnswer (option_map asked_in asked.entry) (texts_in texts.entry)
        (outcome_is x)) }
{
    match asked {
        None => text_outcome(alloc, USAGE, Status::Usage),
        Some(Asked::Help) => text_outcome(alloc, HELP, Status::Equal),
        Some(Asked::Version) => text_outcome(alloc, VERSION, Status::Equal),
        Some(Asked::Comparison(request)) => files_outcome(alloc, request, texts, watch),
    }
}

/// What words answer over two texts: the usage line if they ask nothing of these alone. The names of the files are told with `--json` and
/// `--html` as the words state them, and are of no account otherwise.
pub fn answer(alloc: Global, words: &[&str], old: &[u8], new: &[u8]) -> Result<Outcome, NoMemory>
    ensures { IfOk result (λ x. IsAnswer (of_two_texts (asked_of_words words.now))
        (two_texts old.now new.now) (outcome_is x)) }
{
    let texts = Texts {
        old,
        new,
        zones: b"",
    };
    answer_to(alloc, parse_of_two(words), texts, &mut Unwatched)
}
