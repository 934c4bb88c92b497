// Canonical texts, as a whole and piece by piece.
ghost use Rattle.std.specs.Prelude.{◌≡◌, IfOk, OnOk};
ghost use Rattle.std.specs.Io.KnownBytes.{Appends};
ghost use Rattle.rr_model.specs.Sets.DescriptorText.{descriptor_text};
ghost use Rattle.rr_model.specs.Sets.Printable.{HasNoneBeforeYearOne};
ghost use Rattle.rr_model.specs.Sets.Stretches.{second_descriptor_text};
ghost use Rattle.rr_canon.specs.Dates.{AreDayTexts};
ghost use Rattle.rr_canon.specs.Least.{least_sketch};
ghost use Rattle.rr_canon.specs.Versions.{text_in};

use crate::dates::{DayTexts, day_texts};
use crate::least_seq::LeastSeq;
use crate::text::write_text;
use crate::version::Version;
use rr_model::NoMemory;
use std::alloc::Global;
use std::io::{self, Write};

/// The canonical text of a set in one version, which can be written piece by piece: the least sketch is kept, and not the text,
/// which may be hundreds of megabytes long.
#[derive(Drop)]
pub struct Descriptor {
    pub(crate) version: Version,
    pub(crate) least: LeastSeq,
    pub(crate) days: DayTexts,
    ghost days_are: { AreDayTexts least.before least.cycle least.settled
        days.first.items days.settled.items },
}

impl Descriptor {
    ghost use Rattle.rr_canon.specs.Pieces.{descriptor_bytes};

    /// The canonical text of a set in this version.
    ///
    /// No occurrence may lie before 0001-01-01. Two sets have equal texts exactly if they have equal occurrences.
    pub fn new(alloc: Global, version: Version, least: LeastSeq) -> Result<Descriptor, NoMemory>
        requires { HasNoneBeforeYearOne (least_sketch least) }
        ensures { IfOk result (λ d. descriptor_bytes d ≡ text_in version (least_sketch least)) }
    {
        let days = day_texts(alloc, &least)?;
        Ok(Descriptor {
            version,
            least,
            days,
        })
    }

    /// Writes the text, some bytes at a time, so that a buffered writer is wanted. It takes no memory and fails only if the writer
    /// does; a first part may have been written then.
    pub fn write_to<W: Write>(&self, out: &mut W) -> io::Result<()>
        ensures { OnOk result (Appends (W.contents out.old) (W.contents out.new)
            (descriptor_bytes self.now)) }
    {
        write_text(out, self.version, &self.least, &self.days)
    }

    /// The bytes of the text, as a whole.
    pub fn to_vec(&self, alloc: Global) -> Result<Vec<u8>, NoMemory>
        ensures { IfOk result (λ v. v.items ≡ descriptor_bytes self.now) }
    {
        let mut out = Vec::new(alloc);
        match self.write_to(&mut out) {
            Ok(()) => Ok(out),
            Err(_) => Err(NoMemory),
        }
    }
}

/// The canonical text of a set in this version, as a whole.
///
/// No occurrence may lie before 0001-01-01. Two sets have equal texts exactly if they have equal occurrences.
pub fn describe_in(alloc: Global, version: Version, least: &LeastSeq) -> Result<Vec<u8>, NoMemory>
    requires { HasNoneBeforeYearOne (least_sketch least.now) }
    ensures { IfOk result (λ out. out.items ≡ text_in version (least_sketch least.now)) }
{
    let days = day_texts(alloc, least)?;
    let mut out = Vec::new(alloc);
    match write_text(&mut out, version, least, &days) {
        Ok(()) => Ok(out),
        Err(_) => Err(NoMemory),
    }
}

/// The canonical text of a set in version 2, which writes time sets as rows of equal steps.
///
/// No occurrence may lie before 0001-01-01. Two sets have equal texts exactly if they have equal occurrences.
pub fn describe(alloc: Global, least: &LeastSeq) -> Result<Vec<u8>, NoMemory>
    requires { HasNoneBeforeYearOne (least_sketch least.now) }
    ensures { IfOk result (λ out. out.items ≡ second_descriptor_text (least_sketch least.now)) }
{
    describe_in(alloc, Version::Second, least)
}

/// The canonical text of a set in version 1, which writes each second of a time set by itself.
///
/// No occurrence may lie before 0001-01-01. Two sets have equal texts exactly if they have equal occurrences.
pub fn describe_one(alloc: Global, least: &LeastSeq) -> Result<Vec<u8>, NoMemory>
    requires { HasNoneBeforeYearOne (least_sketch least.now) }
    ensures { IfOk result (λ out. out.items ≡ descriptor_text (least_sketch least.now)) }
{
    describe_in(alloc, Version::First, least)
}
