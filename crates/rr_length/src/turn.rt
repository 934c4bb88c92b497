// Dated lengths in turn.
ghost use Rattle.std.specs.Prelude.{◌≡◌, ◌<◌, ◌≤◌, length};
ghost use Rattle.rr_length.specs.Lengths.{HasNearDates};
ghost use Rattle.rr_length.specs.Walk.{BeginFrom, HasRisingDates, IsFirstAt, IsTaken, earlier, first_date};

use crate::length::Length;
use crate::lengths::Dated;

/// Of dated lengths what a moment has, and what is left behind it.
#[derive(Clone, Copy)]
pub struct Taken<'a> {
    /// The length of an occurrence at the moment.
    pub here: Length,
    /// The dated lengths of later moments.
    pub rest: &'a [Dated],
}

/// Takes the dated length of a moment before which none stands, if it has one.
pub fn taken_at(usual: Length, dated: &[Dated], date: i64) -> Taken<'_>
    requires rising { HasRisingDates dated.now }
    requires begin { BeginFrom date dated.now }
    ensures taken { IsTaken usual dated.now date result.rest.now result.here }
    ensures rising { HasRisingDates result.rest.now }
    ensures near { HasNearDates dated.now → HasNearDates result.rest.now }
    ensures few { length result.rest.now ≤ length dated.now }
    ensures fewer { IsFirstAt date dated.now → length result.rest.now < length dated.now }
{
    match dated {
        [] => Taken {
            here: usual,
            rest: dated,
        },
        [first, rest @ ..] => {
            if first.at == date {
                Taken {
                    here: first.length,
                    rest,
                }
            } else {
                Taken {
                    here: usual,
                    rest: dated,
                }
            }
        }
    }
}

// The first of two moments.
fn earlier(one: i64, other: i64) -> i64
    ensures { result ≡ earlier one other }
{
    if other < one { other } else { one }
}

/// When the first occurrence of two lists of rising dated lengths starts, in days or seconds since 1970-01-01; `None`
/// if both are empty.
pub fn first_date(of_a: &[Dated], of_b: &[Dated]) -> Option<i64>
    ensures { result ≡ first_date of_a.now of_b.now }
{
    match of_a {
        [] => match of_b {
            [] => None,
            [other, ..] => Some(other.at),
        },
        [one, ..] => match of_b {
            [] => Some(one.at),
            [other, ..] => Some(earlier(one.at, other.at)),
        },
    }
}
