// The items in which a canonical text of version 2 writes a time set: single seconds, and rows of equal steps.
ghost use Rattle.std.specs.Prelude.{◌≡◌, ◌<◌, ◌≤◌, ◌+◌, length};
ghost use Rattle.rr_model.specs.Rising.Sets.{IsSecondsOfDay};
ghost use Rattle.rr_times.specs.Items.{item_at, row_end, stretch_of};

/// Seconds of a day in a row, each a step above the one before it.
#[derive(Clone, Copy, Debug, PartialEq, Eq)]
pub struct Stretch {
    /// The first second of the day in it, from 0 on.
    pub start: u32,
    /// How far each lies above the one before it; 0 for a second alone.
    pub step: u32,
    /// How many seconds, 1 or from 3 on.
    pub count: u32,
}

// The index after the row of seconds, each a step above the one before it, that begins at an index.
fn row_end(seconds: &[u32], from: usize, step: u32) -> usize
    requires of_day { IsSecondsOfDay seconds.now }
    requires within { from < length seconds.now }
    ensures row { result ≡ row_end seconds.now from step }
    ensures few { result ≤ length seconds.now }
{
    let mut last = from;
    while last + 1 < seconds.len() {
        if seconds[last + 1] - seconds[last] != step {
            return last + 1;
        }
        last += 1;
    }
    last + 1
}

// A second alone.
fn single(start: u32) -> Stretch
    ensures { result ≡ record { start = start; step = 0; count = 1 } }
{
    Stretch {
        start,
        step: 0,
        count: 1,
    }
}

// The item that begins at this index of a time set.
pub(crate) fn first_stretch(seconds: &[u32], from: usize) -> Stretch
    requires of_day { IsSecondsOfDay seconds.now }
    requires within { from < length seconds.now }
    ensures item { stretch_of result ≡ item_at seconds.now from }
    ensures some { 1 ≤ result.count }
    ensures few { from + result.count ≤ length seconds.now }
{
    let start = seconds[from];
    if seconds.len() - from < 3 {
        return single(start);
    }
    let step = seconds[from + 1] - start;
    let end = row_end(seconds, from, step);
    if end - from < 3 {
        return single(start);
    }
    Stretch {
        start,
        step,
        count: (end - from) as u32,
    }
}
