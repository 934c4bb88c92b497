// The events of two calendars that are taken as the same by their key.
ghost use Rattle.std.specs.Prelude.{◌≡◌, IfOk, OnOk};
ghost use Rattle.rr_trip.specs.Judged.{IsWhether};
ghost use Rattle.rr_trip.specs.Parts.{ArePartsIf, ArePartsOf, ArePutApart, IsAtOnePlace, is_name};

use rr_groups::Group;
use rr_model::NoMemory;
use rr_seam::{Key, copy_key};
use std::alloc::Global;

// Whether a key is a name, and not a place in its file.
fn is_name(key: &Key) -> bool
    ensures { result ≡ is_name key.now }
{
    matches!(key, Key::Uid(_))
}

// Whether both calendars have events of a key that is a place in each file.
fn is_at_one_place(group: &Group) -> bool
    ensures { IsWhether (IsAtOnePlace group.now) result }
{
    !is_name(&group.key) && !group.a.is_empty() && !group.b.is_empty()
}

// Puts the events of A apart from those of B.
fn put_parted(alloc: Global, group: Group, parts: &mut Vec<Group>) -> Result<(), NoMemory>
    ensures { OnOk result (ArePutApart group parts.old.items parts.new.items) }
{
    let key = copy_key(alloc, &group.key)?;
    parts.push(Group {
        key,
        a: group.a,
        b: Vec::new(alloc),
    })?;
    parts.push(Group {
        key: group.key,
        a: Vec::new(alloc),
        b: group.b,
    })?;
    Ok(())
}

// Events without a name are not the same because they stand at one place in their files: a group of such events is two.
fn parts_of(alloc: Global, groups: Vec<Group>) -> Result<Vec<Group>, NoMemory>
    ensures { IfOk result (λ parts. ArePartsOf groups.items parts.items) }
{
    let mut parts = Vec::new(alloc);
    for group in groups {
        if is_at_one_place(&group) {
            put_parted(alloc, group, &mut parts)?;
        } else {
            parts.push(group)?;
        }
    }
    Ok(parts)
}

/// The groups that have lines: as they are, if events are to be found by their UID alone. Otherwise events of both calendars that have no
/// name are not taken as the same because they stand at one place in their files: a group of such events is two, that of A first.
pub fn parts_if(alloc: Global, by_uid: bool, groups: Vec<Group>) -> Result<Vec<Group>, NoMemory>
    ensures { IfOk result (λ parts. ArePartsIf by_uid groups.items parts.items) }
{
    if by_uid {
        return Ok(groups);
    }
    parts_of(alloc, groups)
}
