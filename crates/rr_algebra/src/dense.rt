// The days of runs as numbers of their sets, one for each day.
ghost use Rattle.std.specs.Prelude.{◌≡◌, ◌<◌, ◌≤◌, ◌+◌, ◌*◌, ◌++◌, ◌∷◌, [], IfOk, IsTrue, MatchOption, OnOk, length, replicate, ◌-◌};
ghost use Rattle.rr_algebra.specs.Dense.{IsPutBy, IsStepTo, RefusedWhereNone, NumbersRuns, steps_in};

use crate::runs::Run;
use rr_model::{Fault, NoMemory, Refusal};
use std::alloc::Global;

// The index that lies `gap` after the last one, if it has no number yet and lies before the end.
fn next_index(days: usize, last: usize, gap: u64, end: usize) -> Option<usize>
    requires { last ≤ end }
    ensures { MatchOption result (IsStepTo days last gap end → ⊥)
        (λ index. (index ≡ last + gap) × IsStepTo days last gap end) }
{
    if gap >= (end - last) as u64 {
        return None;
    }
    let index = last + gap as usize;
    if index < days { None } else { Some(index) }
}

// Whether a run that has days has its last one at the end or past it, so that it can't be put.
fn runs_past(last: usize, run: Run, end: usize) -> bool
    requires { last ≤ end }
    ensures { IsTrue result → (1 ≤ run.count) × (end ≤ last + run.count * run.gap) }
{
    if run.count == 0 {
        return false;
    }
    match run.count.checked_mul(run.gap) {
        None => true,
        Some(days) => days >= (end - last) as u64,
    }
}

// Puts a number at its index, and 0 at each index before it that has none yet.
fn put(numbers: &mut Vec<u32>, index: usize, number: u32) -> Result<(), NoMemory>
    requires { length numbers.old.items ≤ index }
    ensures { OnOk result (numbers.new.items
        ≡ numbers.old.items ++ replicate (index - length numbers.old.items) 0 ++ number ∷ []) }
{
    numbers.resize(index, 0)?;
    numbers.push(number)?;
    Ok(())
}

// Puts the days of a run, and gives the index of the last one.
fn put_run(
    numbers: &mut Vec<u32>,
    last: usize,
    run: Run,
    end: usize,
    sets: usize,
) -> Result<usize, Fault>
    requires last { last ≤ end }
    requires few { end ≤ 100_000_000 }
    requires sets { sets ≤ 100_000_000 }
    ensures put { IfOk result
        (IsPutBy end sets numbers.old.items last (steps_in run) numbers.new.items) }
    ensures within { IfOk result (λ index. index ≤ end) }
    ensures refused { RefusedWhereNone end sets (length numbers.old.items) last (steps_in run)
        result }
{
    let past = runs_past(last, run, end);
    if past {
        return Err(Fault::Refused(Refusal::NotCanonical));
    }
    let mut last = last;
    for k in 0..run.count {
        if run.set >= sets as u64 {
            return Err(Fault::Refused(Refusal::NotCanonical));
        }
        let Some(index) = next_index(numbers.len(), last, run.gap, end) else {
            return Err(Fault::Refused(Refusal::NotCanonical));
        };
        put(numbers, index, run.set as u32 + 1)?;
        last = index;
    }
    Ok(last)
}

/// For each day from the first one up to the last one of these runs the number of its set and 1, or 0 if it has none.
/// `NotCanonical` comes if a run has steps or a set that do not fit. The steps of a run are taken one by one, if its
/// last day lies before the end; otherwise none is taken.
pub fn numbers_of(alloc: Global, runs: &[Run], end: usize, sets: usize) -> Result<Vec<u32>, Fault>
    requires few { end ≤ 100_000_000 }
    requires sets { sets ≤ 100_000_000 }
    ensures { NumbersRuns end sets runs.now result }
{
    let mut numbers = Vec::new(alloc);
    let mut last = 0;
    for run in runs {
        match put_run(&mut numbers, last, *run, end, sets) {
            Ok(index) => last = index,
            Err(fault) => return Err(fault),
        }
    }
    Ok(numbers)
}
