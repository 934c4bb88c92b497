// Counts and days, brought back to the first period past the settled day.
ghost use Rattle.std.specs.Prelude.{◌≡◌, ◌+◌, ◌*◌, ◌<◌, ◌≤◌, MatchOption, pos, ◌+ℤ◌, ◌≤ℤ◌};
ghost use Rattle.rr_model.specs.Bounds.{earliest_near, longest_period};
ghost use Rattle.rr_model.specs.Sets.Sketch.{IsNearDay};
ghost use Rattle.rr_rank.specs.Turns.{IsDayLater, IsTurnedCount, IsTurnedDay, seconds_up_to};

use rr_model::{Kind, MAX_DAY, second_part};

/// The number of an occurrence before a period past the settled day, and how many periods later another comes.
#[derive(Clone, Copy)]
pub struct TurnedCount {
    /// The number of the earlier occurrence, from 1.
    pub number: u64,
    /// How many periods after it the other comes.
    pub turns: u64,
}

/// A day before a period past the settled day, and how many periods later another comes.
#[derive(Clone, Copy)]
pub struct TurnedDay {
    /// The earlier day, in days since 1970-01-01.
    pub day: i64,
    /// How many periods after it the other comes.
    pub turns: u64,
}

/// The occurrence before a period past the settled day of which the n-th one is a repetition, if `head` occurrences come
/// before the settled day and `total` before a period past it; None if there are fewer than n.
pub fn turned_count(n: u64, head: u64, total: u64) -> Option<TurnedCount>
    requires some { 1 ≤ n }
    requires order { head ≤ total }
    ensures { MatchOption result ((total < n) × (total ≡ head))
        (λ r. IsTurnedCount head total n r.number r.turns) }
{
    if n <= total {
        return Some(TurnedCount {
            number: n,
            turns: 0,
        });
    }
    let each = total - head;
    if each == 0 {
        return None;
    }
    let past = n - head - 1;
    Some(TurnedCount {
        number: head + 1 + past % each,
        turns: past / each,
    })
}

/// The day before a period past the settled day that a day repeats, in days since 1970-01-01, and how many periods lie
/// between them.
pub fn turned_day(day: i64, settled: i64, period: u64) -> TurnedDay
    requires near { IsNearDay day }
    requires settled_near { IsNearDay settled }
    requires some { 1 ≤ period }
    requires few { period ≤ longest_period }
    ensures { IsTurnedDay settled period day result.day result.turns }
{
    if day < settled {
        return TurnedDay { day, turns: 0 };
    }
    let past = (day - settled) as u64;
    TurnedDay {
        day: settled + (past % period) as i64,
        turns: past / period,
    }
}

/// The day `turns` periods later, in days since 1970-01-01; `None` if it is past `MAX_DAY`.
pub fn day_later(day: i64, turns: u64, period: u64) -> Option<i64>
    requires low { earliest_near ≤ℤ day }
    requires high { day ≤ℤ pos 2_000_000_000 }
    ensures { IsDayLater day turns period result }
{
    let days = u128::from(turns) * u128::from(period);
    if days > 4_000_000_000_000 {
        return None;
    }
    let later = day + days as i64;
    if later > MAX_DAY { None } else { Some(later) }
}

/// The second below which the occurrences of a set, on the moment's own day, are not after the moment.
///
/// It is 1 for a set of dates, which begin at midnight; 0 for a set of moments beside a date, which comes before them;
/// otherwise 1 more than the moment's second of the day.
pub fn seconds_up_to(own: Kind, kind: Kind, at: i64) -> u32
    ensures { result ≡ seconds_up_to own kind at }
{
    match (own, kind) {
        (Kind::Days, _) => 1,
        (Kind::Moments, Kind::Days) => 0,
        (Kind::Moments, Kind::Moments) => second_part(Kind::Moments, at) + 1,
    }
}
