// The least value that one of two rising lists alone has.
ghost use Rattle.std.specs.Prelude.{◌≡◌, ◌⊎◌, [], int_lt};
ghost use Rattle.rr_model.specs.Rising.{Rises};
ghost use Rattle.rr_utc.specs.Between.{IsFirstOnly};

use crate::only::Only;
use rr_model::Side;

// The first value of two lists of which one is empty.
fn first_left(xs: &[i64], ys: &[i64]) -> Option<Only>
    requires xs { Rises int_lt xs.now }
    requires ys { Rises int_lt ys.now }
    requires one { (xs.now ≡ []) ⊎ (ys.now ≡ []) }
    ensures { IsFirstOnly xs.now ys.now result }
{
    match (xs, ys) {
        ([x, ..], _) => Some(Only {
            at: *x,
            side: Side::A,
        }),
        ([], [y, ..]) => Some(Only {
            at: *y,
            side: Side::B,
        }),
        ([], []) => None,
    }
}

/// The least value that one of two rising lists alone has, with its side; None if they are the same.
pub fn first_only(xs: &[i64], ys: &[i64]) -> Option<Only>
    requires xs { Rises int_lt xs.now }
    requires ys { Rises int_lt ys.now }
    ensures { IsFirstOnly xs.now ys.now result }
{
    let both = xs.len().min(ys.len());
    for i in 0..both {
        if xs[i] < ys[i] {
            return Some(Only {
                at: xs[i],
                side: Side::A,
            });
        }
        if ys[i] < xs[i] {
            return Some(Only {
                at: ys[i],
                side: Side::B,
            });
        }
    }
    first_left(&xs[both..], &ys[both..])
}
