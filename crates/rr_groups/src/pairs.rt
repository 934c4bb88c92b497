// The events of two lists that have a key as often, one beside the other.
ghost use Rattle.std.specs.Prelude.{◌≡◌, ◌++◌, length, IfOk, OnOk};
ghost use Rattle.rr_groups.specs.Groups.{AreGroups};
ghost use Rattle.rr_groups.specs.Pairs.{ArePairs, makes_pairs, pairs_in, pairs_in_group, pairs_of_lists};

use crate::group::{Group, groups_of};
use rr_model::NoMemory;
use rr_seam::Key;
use std::alloc::Global;

/// An index of one list beside an index of another.
#[derive(Clone, Copy)]
pub struct IndexPair {
    /// An index in the list of A.
    pub a: usize,
    /// An index in the list of B.
    pub b: usize,
}

// Whether a key makes pairs that A has so often and B so often.
fn makes_pairs(is_only: bool, a: usize, b: usize) -> bool
    ensures { result ≡ makes_pairs is_only a b }
{
    a == b && (!is_only || a == 1)
}

// Puts the first of A beside the first of B, the second beside the second, and so on.
fn put_pairs_of_lists(a: &[usize], b: &[usize], pairs: &mut Vec<IndexPair>) -> Result<(), NoMemory>
    requires { length a.now ≡ length b.now }
    ensures { OnOk result (pairs.new.items
        ≡ pairs.old.items ++ pairs_of_lists a.now b.now) }
{
    for place in 0..a.len() {
        pairs.push(IndexPair {
            a: a[place],
            b: b[place],
        })?;
    }
    Ok(())
}

// Puts the pairs of a key.
fn put_pairs(is_only: bool, group: &Group, pairs: &mut Vec<IndexPair>) -> Result<(), NoMemory>
    ensures { OnOk result (pairs.new.items
        ≡ pairs.old.items ++ pairs_in_group is_only group.now) }
{
    if makes_pairs(is_only, group.a.len(), group.b.len()) {
        put_pairs_of_lists(&group.a, &group.b, pairs)?;
    }
    Ok(())
}

// The pairs of all keys.
fn pairs_of_groups(
    alloc: Global,
    is_only: bool,
    groups: &[Group],
) -> Result<Vec<IndexPair>, NoMemory>
    ensures { IfOk result (λ pairs. pairs.items ≡ pairs_in is_only groups.now) }
{
    let mut pairs = Vec::new(alloc);
    for group in groups {
        put_pairs(is_only, group, &mut pairs)?;
    }
    Ok(pairs)
}

/// The pairs of two lists of keys: if both have a key as often, the first that has it in A and the first in B, the second and the second,
/// and so on; if `is_only`, of those keys alone that both have once. (Elements that are to have no partner have keys of their own.)
pub fn pairs_of(
    alloc: Global,
    a: &[Key],
    b: &[Key],
    is_only: bool,
) -> Result<Vec<IndexPair>, NoMemory>
    ensures { IfOk result (λ pairs. ArePairs is_only a.now b.now pairs.items) }
{
    let groups = groups_of(alloc, a, b)?;
    pairs_of_groups(alloc, is_only, &groups)
}
