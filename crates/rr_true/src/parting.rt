// From when on two zones are apart by as much as ever after.
ghost use Rattle.std.specs.Prelude.{◌≡◌, IfNone, IfSome, ℤ, neg_ℤ, pos, ◌-ℤ◌, ◌≤ℤ◌, ◌<ℤ◌};
ghost use Rattle.rr_true.specs.Apart.{AreApart, AreNeverApart, AreNoSoonerApart, IsPartedTo, parted_by};
ghost use Rattle.rr_true.specs.Changes.{IsBelowDay, offset_of};

use crate::offsets::Offsets;
use crate::parted::Apart;

// 400 years, a whole number of cycles of each zone, in seconds.
const WHOLE_CYCLE: i64 = 12_622_780_800;

// Earlier than all that is asked for.
const EARLIEST: i64 = -400_000_000_000_000_000;

// The first offset less the second.
fn ahead(first: i32, second: i32) -> i32
    requires first { IsBelowDay first }
    requires second { IsBelowDay second }
    ensures { result ≡ first -ℤ second }
{
    first - second
}

// From this moment on, if zones are from then on apart by another difference.
fn parted_by(found: Apart, at: i64, by: i32) -> Apart
    ensures { result ≡ parted_by found at by }
{
    if found.by == by {
        return found;
    }
    Apart { from: at, by }
}

// From when on two zones are apart by one difference up to a moment.
fn parted_to(a: &Offsets, b: &Offsets, end: i64) -> Apart
    requires low { neg_ℤ (pos 400_000_000_000_000_000) <ℤ end }
    requires high { end ≤ℤ pos 400_000_000_000_000_000 }
    ensures { IsPartedTo (offset_of a.now) (offset_of b.now) end result }
{
    let mut at = EARLIEST;
    let mut found = Apart {
        from: EARLIEST,
        by: 0,
    };
    while at < end {
        let first = a.span_at(at);
        let second = b.span_at(at);
        found = parted_by(found, at, ahead(first.offset, second.offset));
        at = first.end.min(second.end);
    }
    found
}

/// From when on, at the earliest, the first of two zones is always as far ahead of the second; None exactly if it never is. It
/// looks no further back than 400,000,000,000,000,000 seconds before 1970.
///
/// It goes once through the changes of both, for 400 years past what is settled.
pub fn apart(a: &Offsets, b: &Offsets) -> Option<Apart>
    ensures apart { IfSome result (AreApart (offset_of a.now) (offset_of b.now)) }
    ensures first { IfSome result (AreNoSoonerApart (offset_of a.now) (offset_of b.now)) }
    ensures never { IfNone result (AreNeverApart (offset_of a.now) (offset_of b.now)) }
{
    let settled = a.cycle().settled.max(b.cycle().settled);
    let found = parted_to(a, b, settled + WHOLE_CYCLE);
    if settled < found.from {
        return None;
    }
    Some(found)
}
