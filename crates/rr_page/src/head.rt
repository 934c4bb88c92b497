// The head of a page: how the comparison ended, its files, its options and its counts.
ghost use Rattle.std.specs.Prelude.{◌≡◌, ℕ, ◌++◌, List, OnOk, option_map, true};
ghost use Rattle.rr_facts.specs.Facts.{facts_in, file_facts_in};
ghost use Rattle.rr_page.specs.Head.{bytes_html, counts_html, file_html, files_html, has_options, head_html, is_below_day, lead_html, look_html, offset_html, options_html, start_html, status_piece, zones_html};
ghost use Rattle.rr_facts.specs.Sum.{sum_text};
ghost use Rattle.rr_html.specs.Markup.{html_text};
ghost use Rattle.rr_html.specs.Pieces.{piece_text};
ghost use Rattle.rr_html.specs.declared.head.HeadPiece.TheVariants.{FileOffset};
ghost use Rattle.rr_html.specs.declared.piece.Piece.TheVariants.{Head};
ghost use Rattle.rr_trip.specs.Printed.{offset_text};
ghost use Rattle.std.specs.Borrow.{Bor};

use crate::class::{Class, count_of, even_count};
use crate::put::{put_if, put_number};
use rr_facts::{Facts, FileFacts, sum_of};
use rr_html::{FramePiece, HeadPiece, Markup, Piece, SectionPiece};
use rr_model::NoMemory;
use rr_trip::{Report, ReportLine, Status, push_offset};
use std::alloc::Global;

const DAY_SECONDS: i32 = 86_400;

// ---- files

// Whether an offset is less than a day either way.
fn is_below_day(offset: i32) -> bool
    ensures { result ≡ is_below_day offset }
{
    -DAY_SECONDS < offset && offset < DAY_SECONDS
}

// A stated offset, less than a day either way.
fn put_some_offset(alloc: Global, page: &mut Markup, offset: i32) -> Result<(), NoMemory>
    requires { is_below_day offset ≡ true }
    ensures { OnOk result (page.new
        ≡ page.old ++ piece_text (Head FileOffset) ++ html_text (offset_text offset)) }
{
    let mut text = Vec::new(alloc);
    push_offset(&mut text, offset)?;
    page.piece(Piece::Head(HeadPiece::FileOffset))?;
    page.text(&text)
}

// The stated offset of a file, if there is one.
#[tactic(auto, unfolding(crate::specs::Head::offset_html))]
fn put_offset(alloc: Global, page: &mut Markup, offset: Option<i32>) -> Result<(), NoMemory>
    ensures { OnOk result (page.new ≡ page.old ++ offset_html offset) }
{
    match offset {
        None => Ok(()),
        Some(offset) => {
            if !is_below_day(offset) {
                return Ok(());
            }
            put_some_offset(alloc, page, offset)
        }
    }
}

// The sum of a file.
fn put_sum(alloc: Global, page: &mut Markup, bytes: &[u8]) -> Result<(), NoMemory>
    ensures { OnOk result (page.new ≡ page.old ++ html_text (sum_text bytes.now)) }
{
    let sum = sum_of(alloc, bytes)?;
    page.text(sum.as_bytes())
}

// How many bytes a file has, and their sum.
#[tactic(auto, unfolding(crate::specs::Head::bytes_html))]
fn put_bytes(alloc: Global, page: &mut Markup, bytes: &[u8]) -> Result<(), NoMemory>
    ensures { OnOk result (page.new ≡ page.old ++ bytes_html bytes.now) }
{
    page.piece(Piece::Head(HeadPiece::FileBytes))?;
    put_number(alloc, page, bytes.len() as u64)?;
    page.piece(Piece::Head(HeadPiece::FileSum))?;
    put_sum(alloc, page, bytes)?;
    page.piece(Piece::Head(HeadPiece::FileEnd))
}

// What a file is: its name, its language, how many bytes it has, and their sum.
#[tactic(auto, unfolding(crate::specs::Head::file_html))]
fn put_file(alloc: Global, page: &mut Markup, file: &FileFacts) -> Result<(), NoMemory>
    ensures { OnOk result (page.new ≡ page.old ++ file_html (file_facts_in file.now)) }
{
    page.text(file.name.as_bytes())?;
    page.piece(Piece::Head(HeadPiece::FileLanguage))?;
    page.text(file.language.as_bytes())?;
    put_offset(alloc, page, file.offset)?;
    put_bytes(alloc, page, file.bytes)
}

// The table of both files.
#[tactic(auto, unfolding(crate::specs::Head::files_html))]
pub(crate) fn put_files(alloc: Global, page: &mut Markup, facts: &Facts) -> Result<(), NoMemory>
    ensures { OnOk result (page.new ≡ page.old ++ files_html (facts_in facts.now)) }
{
    page.piece(Piece::Head(HeadPiece::FilesStart))?;
    page.piece(Piece::Head(HeadPiece::FileA))?;
    put_file(alloc, page, &facts.old)?;
    page.piece(Piece::Head(HeadPiece::FileB))?;
    put_file(alloc, page, &facts.new)?;
    page.piece(Piece::Head(HeadPiece::FilesEnd))
}

// ---- options

// The name of a file of further zones, if one is given.
#[tactic(auto, unfolding(crate::specs::Head::zones_html))]
fn put_zones(page: &mut Markup, zones: Option<&str>) -> Result<(), NoMemory>
    ensures { OnOk result (page.new ≡ page.old ++ zones_html (option_map (λ (name : Bor (List ℕ)). name.now) zones.entry)) }
{
    match zones {
        None => Ok(()),
        Some(name) => {
            page.piece(Piece::Head(HeadPiece::OptionZones))?;
            page.text(name.as_bytes())
        }
    }
}

// Whether an option is given that a page tells.
fn has_options(facts: &Facts) -> bool
    ensures { result ≡ has_options (facts_in facts.now) }
{
    facts.strict || facts.by_uid || facts.only_differences || facts.zones.is_some()
}

// The options that are given, if there are some.
#[tactic(auto, unfolding(crate::specs::Head::options_html))]
fn put_options(page: &mut Markup, facts: &Facts) -> Result<(), NoMemory>
    ensures { OnOk result (page.new ≡ page.old ++ options_html (facts_in facts.now)) }
{
    if !has_options(facts) {
        return Ok(());
    }
    page.piece(Piece::Head(HeadPiece::OptionsStart))?;
    put_if(page, facts.strict, Piece::Head(HeadPiece::OptionStrict))?;
    put_if(page, facts.by_uid, Piece::Head(HeadPiece::OptionByUid))?;
    put_if(
        page,
        facts.only_differences,
        Piece::Head(HeadPiece::OptionDifferences),
    )?;
    put_zones(page, facts.zones)?;
    page.piece(Piece::Frame(FramePiece::LeadEnd))
}

// ---- counts

// How many events are to look at, not comparable and equal.
#[tactic(auto, unfolding(crate::specs::Head::counts_html))]
fn put_counts(alloc: Global, page: &mut Markup, lines: &[ReportLine]) -> Result<(), NoMemory>
    ensures { OnOk result (page.new ≡ page.old ++ counts_html lines.now) }
{
    page.piece(Piece::Head(HeadPiece::CountsStart))?;
    put_number(alloc, page, count_of(Class::Look, lines) as u64)?;
    page.piece(Piece::Head(HeadPiece::CountUndecided))?;
    put_number(alloc, page, count_of(Class::Undecided, lines) as u64)?;
    page.piece(Piece::Head(HeadPiece::CountEqual))?;
    put_number(alloc, page, even_count(lines) as u64)?;
    page.piece(Piece::Head(HeadPiece::CountsEnd))
}

// ---- the head

// How the comparison ended, in a sentence.
fn status_piece(status: Status) -> FramePiece
    ensures { result ≡ status_piece status }
{
    match status {
        Status::Equal => FramePiece::Survived,
        Status::Differs => FramePiece::Differs,
        Status::Refused => FramePiece::Undecided,
    }
}

// The start of a page, with this sentence.
#[tactic(auto, unfolding(crate::specs::Head::start_html))]
pub(crate) fn put_start(page: &mut Markup, sentence: FramePiece) -> Result<(), NoMemory>
    ensures { OnOk result (page.new ≡ page.old ++ start_html sentence) }
{
    page.piece(Piece::Frame(FramePiece::PageStart))?;
    page.piece(Piece::Frame(FramePiece::Style))?;
    page.piece(Piece::Frame(FramePiece::BodyStart))?;
    page.piece(Piece::Frame(sentence))?;
    page.piece(Piece::Frame(FramePiece::LeadStart))
}

// How many events there are, and the release that compares them.
#[tactic(auto, unfolding(crate::specs::Head::lead_html))]
fn put_lead(alloc: Global, page: &mut Markup, events: usize, version: &str) -> Result<(), NoMemory>
    ensures { OnOk result (page.new ≡ page.old ++ lead_html events version.now) }
{
    put_number(alloc, page, events as u64)?;
    page.piece(Piece::Frame(FramePiece::LeadEvents))?;
    page.text(version.as_bytes())?;
    page.piece(Piece::Frame(FramePiece::LeadEnd))
}

// The head of the first section.
#[tactic(auto, unfolding(crate::specs::Head::look_html))]
fn put_look(page: &mut Markup, count: usize) -> Result<(), NoMemory>
    ensures { OnOk result (page.new ≡ page.old ++ look_html count) }
{
    page.piece(Piece::Section(SectionPiece::LookStart))?;
    put_if(page, count == 0, Piece::Section(SectionPiece::LookNone))
}

// All that stands before the events to look at.
#[tactic(auto, unfolding(crate::specs::Head::head_html))]
pub(crate) fn put_head(
    alloc: Global,
    page: &mut Markup,
    facts: &Facts,
    report: &Report,
) -> Result<(), NoMemory>
    ensures { OnOk result (page.new ≡ page.old ++ head_html (facts_in facts.now) report.now.lines.items) }
{
    let lines = report.lines.as_slice();
    put_start(page, status_piece(report.counts().status()))?;
    put_lead(alloc, page, lines.len(), facts.version)?;
    put_files(alloc, page, facts)?;
    put_options(page, facts)?;
    put_counts(alloc, page, lines)?;
    put_look(page, count_of(Class::Look, lines))
}
