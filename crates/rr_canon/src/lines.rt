// The lines of a descriptor.
ghost use Rattle.std.specs.Prelude.{◌≡◌, ◌+◌, ◌≤◌, ◌∷◌, [], ◌++◌, OnOk, codes, map};
ghost use Rattle.std.specs.Fmt.{decimal};
ghost use Rattle.std.specs.Io.KnownBytes.{Appends};
ghost use Rattle.rr_model.specs.Sets.DescriptorText.{fields, kind_line, seconds_line, run_line};
ghost use Rattle.rr_model.specs.Sets.Stretches.{item_text, stretches_line};
ghost use Rattle.rr_times.specs.Items.{stretch_of};
ghost use Rattle.rr_canon.specs.Versions.{set_line_of};
ghost use Rattle.rr_canon.specs.Written.{WritesLine, run_so_far};

use crate::version::Version;
use itoa::Buffer;
use rr_model::Kind;
use rr_times::{Stretch, TimeSet};
use std::io::{self, Write};

/// `count` days so far, each `gap` days after the one before it, with one time set.
#[derive(Clone, Copy)]
pub struct OpenRun {
    /// How many days each day lies after the one before it.
    pub gap: u64,
    /// The number of its time set.
    pub set: u32,
    /// How many days it has so far.
    pub count: u64,
}

/// Writes a line and the line feed that ends it.
#[tactic(auto, unfolding(rr_model::specs::Sets::DescriptorText::text_of_lines))]
pub fn write_line<W: Write>(out: &mut W, line: &[u8]) -> io::Result<()>
    ensures { OnOk result (WritesLine (W.contents out.old) (W.contents out.new) line.now) }
{
    out.write_all(line)?;
    out.write_all(b"\n")
}

// Writes a number after this byte.
fn write_part<W: Write>(out: &mut W, before: u8, number: u64) -> io::Result<()>
    ensures { OnOk result (Appends (W.contents out.old) (W.contents out.new)
        (before ∷ decimal number)) }
{
    if number < 10 {
        return out.write_all(&[before, b'0' + number as u8]);
    }
    let mut buffer = Buffer::new();
    out.write_all(&[before])?;
    out.write_all(buffer.format(number).as_bytes())
}

/// Writes the line of a run: the letter, how many days each of its days lies after the one before it, the number of their time
/// set, and how many days they are, each number after a blank.
pub fn write_run<W: Write>(out: &mut W, letter: u8, run: OpenRun) -> io::Result<()>
    ensures { OnOk result (WritesLine (W.contents out.old) (W.contents out.new)
        (run_line letter (run_so_far run))) }
{
    out.write_all(&[letter])?;
    write_part(out, b' ', run.gap)?;
    write_part(out, b' ', u64::from(run.set))?;
    write_part(out, b' ', run.count)?;
    out.write_all(b"\n")
}

/// Writes the line of a time set in version 1: `t` and each of its seconds after a blank.
pub fn write_seconds<W: Write>(out: &mut W, times: &[u32]) -> io::Result<()>
    ensures { OnOk result (WritesLine (W.contents out.old) (W.contents out.new)
        (seconds_line times.now)) }
{
    out.write_all(b"t")?;
    for second in times {
        write_part(out, b' ', u64::from(*second))?;
    }
    out.write_all(b"\n")
}

// Writes a blank, and a second alone or a row of seconds.
fn write_item<W: Write>(out: &mut W, item: Stretch) -> io::Result<()>
    ensures { OnOk result (Appends (W.contents out.old) (W.contents out.new)
        (32 ∷ item_text (stretch_of item))) }
{
    write_part(out, b' ', u64::from(item.start))?;
    if item.count == 1 {
        return Ok(());
    }
    write_part(out, b'/', u64::from(item.step))?;
    write_part(out, b'/', u64::from(item.count))
}

/// Writes the line of a time set in version 2: `t` and its items after a blank each, single seconds and rows of equal steps.
pub fn write_stretches<W: Write>(out: &mut W, times: &TimeSet) -> io::Result<()>
    ensures { OnOk result (WritesLine (W.contents out.old) (W.contents out.new)
        (stretches_line times.now)) }
{
    let count = times.as_slice().len();
    out.write_all(b"t")?;
    let mut from = 0;
    while from < count {
        let item = times.stretch(from);
        write_item(out, item)?;
        from += item.count as usize;
    }
    out.write_all(b"\n")
}

/// Writes the line of a time set in this version.
pub fn write_set<W: Write>(out: &mut W, version: Version, times: &TimeSet) -> io::Result<()>
    ensures { OnOk result (WritesLine (W.contents out.old) (W.contents out.new)
        (set_line_of version times.now)) }
{
    match version {
        Version::First => write_seconds(out, times.as_slice()),
        Version::Second => write_stretches(out, times),
    }
}

/// Writes the line that says whether the occurrences are dates or moments.
pub fn write_kind<W: Write>(out: &mut W, kind: Kind) -> io::Result<()>
    ensures { OnOk result (WritesLine (W.contents out.old) (W.contents out.new) (kind_line kind)) }
{
    match kind {
        Kind::Days => write_line(out, b"days"),
        Kind::Moments => write_line(out, b"moments"),
    }
}

/// Writes the line of the first occupied day: `f` and the text of that day.
#[tactic(auto, unfolding(rr_model::specs::Sets::DescriptorText::text_of_lines))]
pub fn write_first<W: Write>(out: &mut W, day: &[u8]) -> io::Result<()>
    ensures { OnOk result (WritesLine (W.contents out.old) (W.contents out.new)
        (102 ∷ 32 ∷ day.now)) }
{
    out.write_all(b"f ")?;
    write_line(out, day)
}

/// Writes the line after which days repeat: `q`, the text of the settled day and the period in days.
pub fn write_settled<W: Write>(out: &mut W, day: &[u8], period: u64) -> io::Result<()>
    ensures { OnOk result (WritesLine (W.contents out.old) (W.contents out.new)
        (113 ∷ 32 ∷ day.now ++ fields (period ∷ []))) }
{
    out.write_all(b"q ")?;
    out.write_all(day)?;
    write_part(out, b' ', period)?;
    out.write_all(b"\n")
}
