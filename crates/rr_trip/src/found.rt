// Which keys of two calendars are found again under another key.
ghost use Rattle.std.specs.Prelude.{◌≡◌, ◌<◌, ℕ, All, IfOk, OnOk, length};
ghost use Rattle.rr_seam.specs.Stated.{calendar_by};
ghost use Rattle.rr_trip.specs.Found.{AreFeaturedInA, AreFeaturedInB, AreFoundBy, AreFoundIf, AreSound, IsFeatured, IsFoundBy, IsNoneFound, likenesses, with_pairs_a, with_pairs_b};
ghost use Rattle.rr_trip.specs.Known.{IsKnownZone};
ghost use Rattle.rr_trip.specs.Zoned.{zoned};

use crate::features::{Features, features_of};
use crate::known::KnownNames;
use crate::likeness::{Likeness, keys_by};
use rr_groups::{Group, IndexPair, pairs_are_within, pairs_of};
use rr_model::{NoMemory, Side};
use rr_seam::EventFile;
use rr_true::ZoneNames;
use std::alloc::Global;

/// A key of the other calendar under which a key is found again.
#[derive(Clone, Copy, Debug, PartialEq, Eq)]
pub struct Found {
    /// The index of its group.
    pub index: usize,
    /// By what of title and first occurrences it is found again.
    pub likeness: Likeness,
}

/// Which keys are found again under another one, by the indexes of their groups.
#[derive(Drop)]
pub struct FoundAgain {
    /// For each key of A, that of B under which it is found again, if there is one.
    pub a: Vec<Option<Found>>,
    /// For each key of B, that of A under which it is found again, if there is one.
    pub b: Vec<Option<Found>>,
}

// What the events of one key are found again by, if the other calendar has none of this key.
fn features_if<F: EventFile, N: ZoneNames>(
    alloc: Global,
    known: &mut KnownNames,
    names: &N,
    file: &F,
    own: &[usize],
    others: &[usize],
) -> Result<Option<Features>, NoMemory>
    requires { All (IsKnownZone (N.meaning names.now)) known.old.zones.items }
    ensures known { OnOk result (All (IsKnownZone (N.meaning names.now)) known.new.zones.items) }
    ensures features { IfOk result (IsFeatured
        (zoned (calendar_by (F.keys file.now) (F.stated file.now) (F.titles file.now)) (N.meaning names.now))
        own.now others.now) }
{
    match (own, others) {
        ([first, ..], []) => Ok(Some(features_of(alloc, known, names, file, own, *first)?)),
        ([], _) | (_, [_, ..]) => Ok(None),
    }
}

// What each group is found again by, if A alone has it.
fn features_in_a<F: EventFile, N: ZoneNames>(
    alloc: Global,
    file: &F,
    names: &N,
    groups: &[Group],
) -> Result<Vec<Option<Features>>, NoMemory>
    ensures { IfOk result (λ features. AreFeaturedInA
        (zoned (calendar_by (F.keys file.now) (F.stated file.now) (F.titles file.now)) (N.meaning names.now))
        groups.now features.items) }
{
    let mut known = KnownNames::new(alloc);
    let mut features = Vec::new(alloc);
    for group in groups {
        let of_group = features_if(alloc, &mut known, names, file, &group.a, &group.b)?;
        features.push(of_group)?;
    }
    Ok(features)
}

// What each group is found again by, if B alone has it.
fn features_in_b<F: EventFile, N: ZoneNames>(
    alloc: Global,
    file: &F,
    names: &N,
    groups: &[Group],
) -> Result<Vec<Option<Features>>, NoMemory>
    ensures { IfOk result (λ features. AreFeaturedInB
        (zoned (calendar_by (F.keys file.now) (F.stated file.now) (F.titles file.now)) (N.meaning names.now))
        groups.now features.items) }
{
    let mut known = KnownNames::new(alloc);
    let mut features = Vec::new(alloc);
    for group in groups {
        let of_group = features_if(alloc, &mut known, names, file, &group.b, &group.a)?;
        features.push(of_group)?;
    }
    Ok(features)
}

// Nothing is found again of this many groups.
fn none_found(alloc: Global, count: usize) -> Result<FoundAgain, NoMemory>
    ensures none { IfOk result (IsNoneFound count) }
    ensures sound { IfOk result (AreSound count) }
{
    let a = vec![in alloc; None; count]?;
    let b = vec![in alloc; None; count]?;
    Ok(FoundAgain { a, b })
}

// Puts what is found again of A by these pairs.
fn put_pairs_a(found: &mut [Option<Found>], likeness: Likeness, pairs: &[IndexPair])
    requires { All (λ pair. pair.a < length found.old) pairs.now }
    ensures { found.new ≡ with_pairs_a likeness pairs.now found.old }
{
    for pair in pairs {
        found[pair.a] = Some(Found {
            index: pair.b,
            likeness,
        });
    }
}

// Puts what is found again of B by these pairs.
fn put_pairs_b(found: &mut [Option<Found>], likeness: Likeness, pairs: &[IndexPair])
    requires { All (λ pair. pair.b < length found.old) pairs.now }
    ensures { found.new ≡ with_pairs_b likeness pairs.now found.old }
{
    for pair in pairs {
        found[pair.b] = Some(Found {
            index: pair.a,
            likeness,
        });
    }
}

// Finds again by one likeness what is left.
fn find_by(
    alloc: Global,
    likeness: Likeness,
    a: &[Option<Features>],
    b: &[Option<Features>],
    found: &mut FoundAgain,
) -> Result<(), NoMemory>
    ensures found { OnOk result (IsFoundBy a.now b.now likeness found.old found.new) }
    ensures sound { (count : ℕ) → AreSound count found.old → OnOk result (AreSound count found.new) }
{
    let keys_a = keys_by(alloc, likeness, Side::A, a, &found.a)?;
    let keys_b = keys_by(alloc, likeness, Side::B, b, &found.b)?;
    let pairs = pairs_of(alloc, &keys_a, &keys_b, likeness.is_only())?;
    pairs_are_within();
    put_pairs_a(&mut found.a, likeness, &pairs);
    put_pairs_b(&mut found.b, likeness, &pairs);
    Ok(())
}

// Finds again by each likeness in turn what those before it left.
fn find_by_all(
    alloc: Global,
    a: &[Option<Features>],
    b: &[Option<Features>],
    found: &mut FoundAgain,
) -> Result<(), NoMemory>
    ensures found { OnOk result (AreFoundBy a.now b.now likenesses found.old found.new) }
    ensures sound { (count : ℕ) → AreSound count found.old → OnOk result (AreSound count found.new) }
{
    find_by(alloc, Likeness::Moments, a, b, found)?;
    find_by(alloc, Likeness::Times, a, b, found)?;
    find_by(alloc, Likeness::Start, a, b, found)?;
    find_by(alloc, Likeness::OtherTitle, a, b, found)
}

/// Which keys that one calendar alone has are found again in the other: by their title and what occurs first, the most telling first.
/// None are looked for if events are to be found by their UID alone.
pub fn found_again<A: EventFile, B: EventFile, M: ZoneNames, N: ZoneNames>(
    alloc: Global,
    a: &A,
    names_a: &M,
    b: &B,
    names_b: &N,
    groups: &[Group],
    by_uid: bool,
) -> Result<FoundAgain, NoMemory>
    ensures found { IfOk result (AreFoundIf by_uid
        (zoned (calendar_by (A.keys a.now) (A.stated a.now) (A.titles a.now)) (M.meaning names_a.now))
        (zoned (calendar_by (B.keys b.now) (B.stated b.now) (B.titles b.now)) (N.meaning names_b.now))
        groups.now) }
    ensures sound { IfOk result (AreSound (length groups.now)) }
{
    let mut found = none_found(alloc, groups.len())?;
    if by_uid {
        return Ok(found);
    }
    let of_a = features_in_a(alloc, a, names_a, groups)?;
    let of_b = features_in_b(alloc, b, names_b, groups)?;
    find_by_all(alloc, &of_a, &of_b, &mut found)?;
    Ok(found)
}
