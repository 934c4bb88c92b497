// What the names of zones mean in one of two calendars.
ghost use Rattle.std.specs.Prelude.{◌≡◌, ◌∷◌, [], IfOk, map, option_map};
ghost use Rattle.rr_compare.specs.Names.{first_meaning, meaning_among, meaning_under, observed};
ghost use Rattle.rr_offsets.specs.Meanings.{meaning_in};
ghost use Rattle.rr_true.specs.Changes.{offset_of};
ghost use Rattle.rr_true.specs.Names.{Means};
ghost use Rattle.rr_windows.specs.Names.{other_names};

use rr_model::NoMemory;
use rr_offsets::Definitions;
use rr_true::{Offsets, ZoneNames};
use rr_windows::other_names;
use std::alloc::Global;

/// What the names of zones mean in one of two calendars: what its file defines, otherwise the other one, otherwise a third file, each under the
/// name itself and then under the other names that the table of Windows' names has for it.
#[derive(Clone, Copy)]
pub struct Names<'n, 'a> {
    /// The zones of its own file.
    pub own: &'n Definitions<'a>,
    /// The zones of the file that it is compared with.
    pub other: &'n Definitions<'a>,
    /// The zones of the file that defines further ones.
    pub more: &'n Definitions<'a>,
    /// How far local time without a zone is ahead of UTC, in seconds, if that is stated.
    pub offset: Option<i32>,
}

// What local time without a zone means by a stated offset.
fn observed(alloc: Global, offset: Option<i32>) -> Result<Option<Offsets>, NoMemory>
    ensures { IfOk result (λ found. Means (observed offset) (option_map offset_of found)) }
{
    match offset {
        Some(offset) if -86_400 < offset && offset < 86_400 => {
            Ok(Some(Offsets::fixed(alloc, offset)))
        }
        _ => Ok(None),
    }
}

// What names mean by definitions: the first that means something.
fn first_offsets(
    alloc: Global,
    zones: &Definitions,
    names: &[&str],
) -> Result<Option<Offsets>, NoMemory>
    ensures { IfOk result (λ found. Means
        (first_meaning (meaning_in zones.now) (map (λ name. name.now) names.now))
        (option_map offset_of found)) }
{
    for name in names {
        let found = zones.offsets(alloc, name.as_bytes())?;
        if found.is_some() {
            return Ok(found);
        }
    }
    Ok(None)
}

// What a name means by definitions: under itself, otherwise under the first of its other names that means something.
fn offsets_under(
    alloc: Global,
    zones: &Definitions,
    name: &[u8],
    others: &[&str],
) -> Result<Option<Offsets>, NoMemory>
    ensures { IfOk result (λ found. Means
        (first_meaning (meaning_in zones.now) (name.now ∷ map (λ other. other.now) others.now))
        (option_map offset_of found)) }
{
    let found = zones.offsets(alloc, name)?;
    if found.is_some() {
        return Ok(found);
    }
    first_offsets(alloc, zones, others)
}

impl<'n, 'a> Names<'n, 'a> {
    // What a name means by the files.
    fn among_files(&self, alloc: Global, name: &[u8]) -> Result<Option<Offsets>, NoMemory>
        ensures { IfOk result (λ found. Means
            (meaning_among (self.now.own.now ∷ self.now.other.now ∷ self.now.more.now ∷ []) name.now)
            (option_map offset_of found)) }
    {
        let others = other_names(alloc, name)?;
        let found = offsets_under(alloc, self.own, name, &others)?;
        if found.is_some() {
            return Ok(found);
        }
        let found = offsets_under(alloc, self.other, name, &others)?;
        if found.is_some() {
            return Ok(found);
        }
        offsets_under(alloc, self.more, name, &others)
    }
}

impl<'n, 'a> ZoneNames for Names<'n, 'a> {
    ghost use Rattle.rr_compare.specs.Names.{meaning_of_names};

    ghost meaning = { meaning_of_names };

    fn offsets(&self, alloc: Global, name: &[u8]) -> Result<Option<Offsets>, NoMemory> {
        if name.is_empty() {
            observed(alloc, self.offset)
        } else {
            self.among_files(alloc, name)
        }
    }
}
