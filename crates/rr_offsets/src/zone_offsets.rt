// How far local time of a zone is ahead of UTC, for ever.
ghost use Rattle.std.specs.Prelude.{◌≡◌, ◌*ℤ◌, ◌≤ℤ◌, ℤ, neg_ℤ, pos, All, IfOk, None, true};
ghost use Rattle.rr_offsets.specs.Offsets.{offset_at, offset_before};
ghost use Rattle.rr_offsets.specs.Steady.{is_steady};
ghost use Rattle.rr_true.specs.Changes.{offset_of};
ghost use Rattle.rr_zone.specs.Observances.{IsSoundObservance};
ghost use Rattle.rr_zone.specs.Tables.{first_of};

use crate::changes::{changes_to, first_from};
use crate::past::{day_after_cycle, past_of};
use rr_model::NoMemory;
use rr_true::Offsets;
use rr_zone::{Observance, Table, first_of_all, tables_of};
use std::alloc::Global;

// The days of 400 years.
const CYCLE_DAYS: u32 = 146_097;

const DAY_SECONDS: i64 = 86_400;

// The offset before all onsets of these tables.
fn initial_of(tables: &[Table]) -> i32
    ensures { result ≡ offset_before (first_of None tables.now) }
{
    match first_of_all(tables) {
        Some(first) => first.from,
        None => 0,
    }
}

// The moment at which a day begins.
fn begin_of(day: i64) -> i64
    requires low { neg_ℤ (pos 1_000_000) ≤ℤ day }
    requires high { day ≤ℤ pos 1_000_000 }
    ensures { result ≡ day *ℤ pos 86_400 }
{
    day * DAY_SECONDS
}

/// How far local time of a zone is ahead of UTC. Its changes are listed up to one cycle of 400 years after all that it states but
/// for its endless rules; they repeat from the first change after that on, if there is one.
pub(crate) fn offsets_of(alloc: Global, zone: &[Observance]) -> Result<Offsets, NoMemory>
    requires sound { All IsSoundObservance zone.now }
    requires steady { is_steady zone.now ≡ true }
    ensures { IfOk result (λ offsets. (u : ℤ) → offset_of offsets u ≡ offset_at zone.now u) }
{
    let past = past_of(zone);
    let last = day_after_cycle(past);
    let tables = tables_of(alloc, zone, last)?;
    let initial = initial_of(&tables);
    let changes = changes_to(alloc, &tables, begin_of(last))?;
    match first_from(changes.as_slice(), past) {
        Some(settled) => Ok(Offsets::new(initial, changes, settled, CYCLE_DAYS)),
        None => Ok(Offsets::new(initial, changes, past, 1)),
    }
}
