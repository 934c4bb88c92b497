// The onsets of a zone as changes of its offset.
ghost use Rattle.std.specs.Prelude.{◌≡◌, [], map, unwrap_or, pos, IfOk, OnOk};
ghost use Rattle.rr_model.specs.Rule.Candidate.{lists};
ghost use Rattle.rr_offsets.specs.Listing.{all_onsets, change_on, changes_to, first_from, listed_offset, with_onsets, with_tables};

use rr_model::{Dates, NoMemory};
use rr_true::Change;
use rr_zone::Table;
use std::alloc::Global;

// Whether a moment is one of some rising ones.
fn has_moment(moments: &Dates, at: i64) -> bool
    ensures { result ≡ lists moments.now at }
{
    moments.as_slice().binary_search(&at).is_ok()
}

// The offset of the first table that lists a moment.
fn offset_on(tables: &[Table], at: i64) -> i32
    ensures { result ≡ unwrap_or (listed_offset tables.now at) (pos 0) }
{
    for table in tables {
        if has_moment(&table.onsets, at) {
            return table.to;
        }
    }
    0
}

// Puts those of some onsets that lie before an end.
fn put_onsets(moments: &mut Dates, onsets: &[i64], end: i64) -> Result<(), NoMemory>
    ensures { OnOk result (moments.new ≡ with_onsets end moments.old onsets.now) }
{
    for onset in onsets {
        if *onset < end {
            moments.put(*onset)?;
        }
    }
    Ok(())
}

// The onsets of tables, one table after the other.
fn all_onsets(alloc: Global, tables: &[Table]) -> Result<Vec<i64>, NoMemory>
    ensures { IfOk result (λ onsets. onsets.items ≡ all_onsets tables.now) }
{
    let mut onsets = Vec::new(alloc);
    for table in tables {
        onsets.extend_from_slice(table.onsets.as_slice())?;
    }
    Ok(onsets)
}

// The onsets of tables that lie before an end. They are put in order, so that each goes last.
fn moments_of(alloc: Global, tables: &[Table], end: i64) -> Result<Dates, NoMemory>
    ensures { IfOk result (λ moments. moments ≡ with_tables end [] tables.now) }
{
    let mut onsets = all_onsets(alloc, tables)?;
    onsets.sort_unstable();
    let mut moments = Dates::new(alloc);
    put_onsets(&mut moments, onsets.as_slice(), end)?;
    Ok(moments)
}

// The changes at these moments.
fn changes_on(alloc: Global, tables: &[Table], moments: &[i64]) -> Result<Vec<Change>, NoMemory>
    ensures { IfOk result (λ changes. changes.items ≡ map (change_on tables.now) moments.now) }
{
    let mut changes = Vec::new(alloc);
    for at in moments {
        let at = *at;
        changes.push(Change {
            at,
            offset: offset_on(tables, at),
        })?;
    }
    Ok(changes)
}

/// The changes at the onsets of tables that lie before an end.
pub(crate) fn changes_to(alloc: Global, tables: &[Table], end: i64) -> Result<Vec<Change>, NoMemory>
    ensures { IfOk result (λ changes. changes.items ≡ changes_to end tables.now) }
{
    let moments = moments_of(alloc, tables, end)?;
    changes_on(alloc, tables, moments.as_slice())
}

/// The moment of the first change that is not before a moment.
pub(crate) fn first_from(changes: &[Change], past: i64) -> Option<i64>
    ensures { result ≡ first_from changes.now past }
{
    for change in changes {
        if past <= change.at {
            return Some(change.at);
        }
    }
    None
}
