// A walk over days that tells of each whether it is chosen.
ghost use Rattle.std.specs.Prelude.{◌≡◌, ◌≤◌, ◌≤ℤ◌, ◌+ℤ◌, IfOk, OnOk, pos};
ghost use Rattle.rr_model.specs.Bounds.{first_day_of_all};
ghost use Rattle.rr_skip.specs.Months.{is_day_chosen};
ghost use Rattle.rr_skip.specs.Walks.{IsStepped, IsWalked};

use crate::schedule::Schedule;
use crate::turn::Turn;
use rr_model::NoMemory;
use std::alloc::Global;

/// Days in a row, and how many more chosen ones are looked for.
#[derive(Drop)]
pub(crate) struct Walk {
    /// 1 for each chosen day, and 0 for another.
    pub(crate) numbers: Vec<u32>,
    /// How many chosen days are still looked for.
    pub(crate) left: u64,
}

impl Walk {
    // Adds a day at the end, and counts it if it is chosen.
    fn put(&mut self, is_chosen: bool) -> Result<(), NoMemory>
        requires { 1 ≤ self.old.left }
        ensures { OnOk result (IsStepped is_chosen self.old self.new) }
    {
        if is_chosen {
            self.numbers.push(1)?;
            self.left -= 1;
        } else {
            self.numbers.push(0)?;
        }
        Ok(())
    }
}

/// The day `index` days after the first.
pub(crate) fn day_at(first: i64, index: usize) -> i64
    requires low { first_day_of_all ≤ℤ first }
    requires high { (first +ℤ pos index) ≤ℤ pos 40_000_000 }
    ensures { result ≡ first +ℤ pos index }
{
    first + index as i64
}

/// Walks `end` days from the first one on; if the chosen day of number `most`, counted from 1, comes before, up to that one only.
pub(crate) fn walk_days(
    alloc: Global,
    schedule: &Schedule,
    first: i64,
    end: usize,
    most: u64,
) -> Result<Walk, NoMemory>
    requires some { 1 ≤ schedule.now.interval }
    requires low { first_day_of_all ≤ℤ first }
    requires high { (first +ℤ pos end) ≤ℤ pos 40_000_000 }
    ensures { IfOk result (IsWalked (is_day_chosen schedule.now) first end most) }
{
    let mut walk = Walk {
        numbers: Vec::new(alloc),
        left: most,
    };
    let mut turn = Turn::at(schedule, first);
    for index in 0..end {
        if walk.left == 0 {
            return Ok(walk);
        }
        let day = day_at(first, index);
        turn = turn.advance_to(schedule, day);
        walk.put(turn.chooses(schedule, day))?;
    }
    Ok(walk)
}
