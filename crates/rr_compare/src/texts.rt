// The bytes of the files that are compared, as they are read, and the zones that they define.
ghost use Rattle.std.specs.Prelude.{◌≡◌, IfOk};
ghost use Rattle.std.specs.Cow.{cow_slice_items};
ghost use Rattle.rr_compare.specs.Calendars.{further_zones, local_file, text_in, text_within, zone_text, zones_as};

use crate::operand::Language;
use rr_model::NoMemory;
use rr_offsets::{Definitions, definitions_of};
use rr_seam::MAX_FILE;
use rr_zone::local_text;
use std::alloc::Global;
use std::borrow::CowSlice;

/// The bytes of the files that words name.
#[derive(Clone, Copy)]
pub struct Texts<'a> {
    /// The bytes of the file A.
    pub old: &'a [u8],
    /// The bytes of the file B.
    pub new: &'a [u8],
    /// Of the file that defines further zones, empty if there is none.
    pub zones: &'a [u8],
}

// A file with its moments of UTC in local time of the zones that it defines. One that has more bytes than a file may have stays as it is, so that
// it is refused for that: it may be the first part of a longer one, and the new text may be shorter.
fn local_file(alloc: Global, bytes: &[u8]) -> Result<CowSlice<'_, u8>, NoMemory>
    ensures { IfOk result (λ text. cow_slice_items text ≡ local_file bytes.now) }
{
    if bytes.len() > MAX_FILE {
        return Ok(CowSlice::Borrowed(bytes));
    }
    match local_text(alloc, bytes)? {
        Some(text) => Ok(CowSlice::Owned(text)),
        None => Ok(CowSlice::Borrowed(bytes)),
    }
}

/// A file as it is read. Only iCalendar defines zones.
pub(crate) fn text_in(
    alloc: Global,
    language: Language,
    bytes: &[u8],
) -> Result<CowSlice<'_, u8>, NoMemory>
    ensures { IfOk result (λ text. cow_slice_items text ≡ text_in language bytes.now) }
{
    match language {
        Language::Ics => local_file(alloc, bytes),
        Language::Graph | Language::Vcal => Ok(CowSlice::Borrowed(bytes)),
    }
}

// The bytes of a file, or none if it has more than a file may have: they may be the first part of a longer one.
fn text_within(bytes: &[u8]) -> &[u8]
    ensures { result.now ≡ text_within bytes.now }
{
    if bytes.len() > MAX_FILE { b"" } else { bytes }
}

// The bytes by which a file defines zones. Only iCalendar does.
fn zone_text(language: Language, bytes: &[u8]) -> &[u8]
    ensures { result.now ≡ zone_text language bytes.now }
{
    match language {
        Language::Ics => text_within(bytes),
        Language::Graph | Language::Vcal => b"",
    }
}

/// The zones that the files define.
#[derive(Drop)]
pub(crate) struct Zones<'a> {
    /// The zones that the file A defines.
    pub(crate) old: Definitions<'a>,
    /// The zones that the file B defines.
    pub(crate) new: Definitions<'a>,
    /// The zones that the file of `--zones` defines.
    pub(crate) more: Definitions<'a>,
}

/// The zones that files in these languages define.
pub(crate) fn zones_of<'a>(
    alloc: Global,
    a: Language,
    b: Language,
    texts: Texts<'a>,
) -> Result<Zones<'a>, NoMemory>
    ensures old { IfOk result (λ zones. zones.old ≡ zones_as a texts.entry.old.now) }
    ensures new { IfOk result (λ zones. zones.new ≡ zones_as b texts.entry.new.now) }
    ensures more { IfOk result (λ zones. zones.more ≡ further_zones texts.entry.zones.now) }
{
    Ok(Zones {
        old: definitions_of(alloc, zone_text(a, texts.old))?,
        new: definitions_of(alloc, zone_text(b, texts.new))?,
        more: definitions_of(alloc, text_within(texts.zones))?,
    })
}
