// Rising lists of seconds, merged in one pass.
ghost use Rattle.std.specs.Prelude.{◌≡◌, ◌<◌, ◌≤◌, ◌↔◌, IfOk, IsTrue, length, nat_lt, slice_index};
ghost use Rattle.rr_model.specs.Rising.{Rises};
ghost use Rattle.rr_times.specs.Combined.{IsDifferenceOf, IsUnionOf};

use std::alloc::{AllocError, Global};

// Whether the next of `a` comes before the next of `b`; an end comes after everything.
fn comes_first(a: &[u32], i: usize, b: &[u32], j: usize) -> bool
    ensures { IsTrue result ↔ ((i < length a.now)
        × (j < length b.now → slice_index a.now i < slice_index b.now j)) }
{
    i < a.len() && (j >= b.len() || a[i] < b[j])
}

// The seconds of either list.
pub(crate) fn union_of(alloc: Global, a: &[u32], b: &[u32]) -> Result<Vec<u32>, AllocError>
    requires a_rises { Rises nat_lt a.now }
    requires b_rises { Rises nat_lt b.now }
    ensures { IfOk result (λ v. IsUnionOf a.now b.now v.items) }
{
    let mut both = Vec::new(alloc);
    let mut i = 0;
    let mut j = 0;
    while i < a.len() || j < b.len() {
        if comes_first(a, i, b, j) {
            both.push(a[i])?;
            i += 1;
        } else if comes_first(b, j, a, i) {
            both.push(b[j])?;
            j += 1;
        } else {
            both.push(a[i])?;
            i += 1;
            j += 1;
        }
    }
    Ok(both)
}

// The seconds of `a` that `b` lacks.
pub(crate) fn difference_of(alloc: Global, a: &[u32], b: &[u32]) -> Result<Vec<u32>, AllocError>
    requires a_rises { Rises nat_lt a.now }
    requires b_rises { Rises nat_lt b.now }
    ensures { IfOk result (λ v. IsDifferenceOf a.now b.now v.items) }
{
    let mut left = Vec::new(alloc);
    let mut i = 0;
    let mut j = 0;
    while i < a.len() {
        if comes_first(a, i, b, j) {
            left.push(a[i])?;
            i += 1;
        } else if comes_first(b, j, a, i) {
            j += 1;
        } else {
            i += 1;
            j += 1;
        }
    }
    Ok(left)
}
