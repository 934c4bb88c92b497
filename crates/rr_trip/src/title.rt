// The title of a key.
ghost use Rattle.std.specs.Prelude.{◌≡◌, IfOk};
ghost use Rattle.rr_trip.specs.Report.{title_by, title_if};

use rr_model::{Bytes, NoMemory};
use rr_seam::EventFile;
use std::alloc::Global;

// The title of the first event, if there is one.
fn first_title<A: EventFile, B: EventFile>(
    alloc: Global,
    a: &A,
    of_a: &[usize],
    b: &B,
    of_b: &[usize],
) -> Result<Option<Bytes>, NoMemory>
    ensures { IfOk result (λ title. title
        ≡ title_by (A.titles a.now) (B.titles b.now) of_a.now of_b.now) }
{
    match (of_a, of_b) {
        ([index, ..], _) => Ok(Some(a.title(alloc, *index)?)),
        ([], [index, ..]) => Ok(Some(b.title(alloc, *index)?)),
        ([], []) => Ok(None),
    }
}

/// The title of the first of these events in A, otherwise of the first of those in B, if titles are asked for.
pub fn title_of<A: EventFile, B: EventFile>(
    alloc: Global,
    titles: bool,
    a: &A,
    of_a: &[usize],
    b: &B,
    of_b: &[usize],
) -> Result<Option<Bytes>, NoMemory>
    ensures { IfOk result (λ title. title
        ≡ title_if titles (title_by (A.titles a.now) (B.titles b.now) of_a.now of_b.now)) }
{
    if titles {
        return first_title(alloc, a, of_a, b, of_b);
    }
    Ok(None)
}
