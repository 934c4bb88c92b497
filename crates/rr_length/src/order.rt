// Dated lengths in order, the longest of each moment.
ghost use Rattle.std.specs.Prelude.{IfOk};
ghost use Rattle.rr_length.specs.Walk.{HasOrderedDates, HasRisingDates, HaveOneLongest};

use crate::lengths::Dated;
use rr_model::NoMemory;
use std::alloc::Global;

// A copy of dated lengths, ordered by their starts.
fn in_order(alloc: Global, dated: &[Dated]) -> Result<Vec<Dated>, NoMemory>
    ensures ordered { IfOk result (λ ds. HasOrderedDates ds.items) }
    ensures same { IfOk result (λ ds. HaveOneLongest ds.items dated.now) }
{
    let mut found = Vec::new(alloc);
    found.extend_from_slice(dated)?;
    found.sort_by_key(|one| one.at)?;
    Ok(found)
}

// The longest length at each moment, of dated lengths in order.
fn longest_of_each(alloc: Global, dated: &[Dated]) -> Result<Vec<Dated>, NoMemory>
    requires { HasOrderedDates dated.now }
    ensures rising { IfOk result (λ ds. HasRisingDates ds.items) }
    ensures same { IfOk result (λ ds. HaveOneLongest ds.items dated.now) }
{
    let mut found = Vec::new(alloc);
    let [first, rest @ ..] = dated else {
        return Ok(found);
    };
    let mut last = *first;
    for one in rest {
        if one.is_with(last) {
            last.length = last.length.longer_of(one.length);
        } else {
            found.push(last)?;
            last = *one;
        }
    }
    found.push(last)?;
    Ok(found)
}

/// The longest of the dated lengths of each moment, in order.
pub fn rising_of(alloc: Global, dated: &[Dated]) -> Result<Vec<Dated>, NoMemory>
    ensures rising { IfOk result (λ ds. HasRisingDates ds.items) }
    ensures same { IfOk result (λ ds. HaveOneLongest ds.items dated.now) }
{
    let ordered = in_order(alloc, dated)?;
    longest_of_each(alloc, &ordered)
}
