// How a value gets its place in a rising list.
ghost use Rattle.std.specs.Prelude.{◌≡◌, ◌∷◌, ◌++◌, [], true, OnOk, OnErr};
ghost use Rattle.rr_model.specs.Rising.{Rises, with_value, below_by};

use crate::NoMemory;
use std::cmp::Ordering;

// Whether the value is above the last item, and so above each; a list without items has none to be above.
fn is_above_last<T: Ord + Copy>(items: &[T], value: T) -> bool
    requires { Rises (below_by T.cmp) items.now }
    ensures { result ≡ true
        → with_value (below_by T.cmp) items.now value ≡ items.now ++ (value ∷ []) }
{
    match items.last() {
        Some(last) => matches!(last.cmp(&value), Ordering::Less),
        None => true,
    }
}

/// Puts the value at its place in a rising list. The list stays as it is if it has the value already, and if memory
/// runs out.
// A value above all others is not searched for.
pub fn put_rising<T: Ord + Copy>(items: &mut Vec<T>, value: T) -> Result<(), NoMemory>
    requires { Rises (below_by T.cmp) items.old.items }
    ensures ok { OnOk result (items.new.items ≡ with_value (below_by T.cmp) items.old.items value) }
    ensures err { OnErr result (items.new.items ≡ items.old.items) }
    ensures rises { Rises (below_by T.cmp) items.new.items }
{
    if is_above_last(items, value) {
        items.push(value)?;
    } else if let Err(index) = items.binary_search(&value) {
        items.insert(index, value)?;
    }
    Ok(())
}
