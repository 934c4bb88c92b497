// Which files are compared, and how.
ghost use Rattle.std.specs.Prelude.{◌≡◌};
ghost use Rattle.rr_compare.specs.Calendars.{offset_by};
ghost use Rattle.rr_compare.specs.Facts.{facts_of, file_facts_of};
ghost use Rattle.rr_compare.specs.Outcomes.{texts_in};
ghost use Rattle.rr_compare.specs.Parsed.{operand_in, request_in};
ghost use Rattle.rr_facts.specs.Facts.{facts_in, file_facts_in};

use crate::operand::{Language, Operand, word_of};
use crate::release::RELEASE;
use crate::texts::Texts;
use crate::words::Request;
use rr_facts::{Facts, FileFacts};

/// The stated offset of a file: its own, otherwise that of both.
pub(crate) fn offset_by(own: Option<i32>, both: Option<i32>) -> Option<i32>
    ensures { result ≡ offset_by own both }
{
    match own {
        Some(offset) => Some(offset),
        None => both,
    }
}

// What a report tells of one of two files: its language as it was read, and its own offset or that of both.
fn file_facts_of<'a>(
    file: Operand<'a>,
    language: Language,
    both: Option<i32>,
    bytes: &'a [u8],
) -> FileFacts<'a>
    ensures { file_facts_in result ≡ file_facts_of (operand_in file.entry) language both bytes.now }
{
    FileFacts {
        name: file.name,
        language: word_of(language),
        offset: offset_by(file.offset, both),
        bytes,
    }
}

/// A comparison of files in these languages, with their bytes as they were given.
pub(crate) fn facts_of<'a>(
    request: Request<'a>,
    a: Language,
    b: Language,
    texts: Texts<'a>,
) -> Facts<'a>
    ensures { facts_in result ≡ facts_of (request_in request.entry) a b (texts_in texts.entry) }
{
    Facts {
        version: RELEASE,
        old: file_facts_of(request.old, a, request.offset, texts.old),
        new: file_facts_of(request.new, b, request.offset, texts.new),
        only_differences: request.only_differences,
        strict: request.strict,
        by_uid: request.by_uid,
        zones: request.zones,
    }
}
