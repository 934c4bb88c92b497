// Draws from a linear congruential generator, and the series that they give.
ghost use Rattle.std.specs.Prelude.{◌≡◌, ◌≤◌, ◌<◌, ◌%◌, ◌==◌, true, if◌then◌else◌, IfOk};
ghost use Rattle.rr_drill.specs.Draws.{after_rule, after_series, after_week_start, draw_below, drawn_freq, drawn_interval, drawn_rule, drawn_week_start, intervals, next_state, series_from};

use rr_model::{Dates, Freq, Kind, NoMemory, Rule, Rules, Series};
use std::alloc::Global;

/// A linear congruential generator, which draws numbers and series. Equal seeds draw the same.
#[derive(Drop)]
pub struct Draws {
    state: u32,
}

impl Draws {
    /// The generator with this seed, of which the lower 31 bits count.
    pub fn new(seed: u32) -> Self
        ensures { result.state ≡ seed % 2_147_483_648 }
    {
        Draws {
            state: seed % 2_147_483_648,
        }
    }

    // Draws a number below `m`.
    fn draw_below(&mut self, m: u32) -> u32
        requires { 1 ≤ m }
        ensures value { result ≡ draw_below m self.old.state }
        ensures below { result < m }
        ensures state { self.new.state ≡ next_state self.old.state }
    {
        let sum = u64::from(self.state) * 1_103_515_245 + 12_345;
        self.state = (sum % 2_147_483_648) as u32;
        self.state / 65_536 % m
    }

    // Draws a frequency: DAILY, WEEKLY, MONTHLY or YEARLY.
    fn freq(&mut self) -> Freq
        ensures value { result ≡ drawn_freq self.old.state }
        ensures state { self.new.state ≡ next_state self.old.state }
    {
        match self.draw_below(4) {
            0 => Freq::Daily,
            1 => Freq::Weekly,
            2 => Freq::Monthly,
            _ => Freq::Yearly,
        }
    }

    // An interval for a frequency.
    fn interval(&mut self, freq: Freq) -> u32
        ensures value { result ≡ drawn_interval freq self.old.state }
        ensures state { self.new.state ≡ next_state self.old.state }
    {
        1 + self.draw_below(intervals(freq))
    }

    // A week start, which is drawn for WEEKLY alone.
    fn week_start(&mut self, freq: Freq) -> u8
        ensures value { result ≡ drawn_week_start freq self.old.state }
        ensures state { self.new.state ≡ after_week_start freq self.old.state }
    {
        match freq {
            Freq::Weekly => week_start_of(self.draw_below(2)),
            _ => 0,
        }
    }

    // An endless rule without a BY part.
    fn rule(&mut self, alloc: Global) -> Rule
        ensures value { result ≡ drawn_rule self.old.state }
        ensures state { self.new.state ≡ after_rule self.old.state }
    {
        let freq = self.freq();
        let interval = self.interval(freq);
        let mut rule = Rule::new(alloc, freq, interval);
        rule.week_start = self.week_start(freq);
        rule
    }

    /// Draws a series: a start and an endless rule, whose days from the start on occur.
    pub fn series(&mut self, alloc: Global) -> Result<Series, NoMemory>
        ensures value { IfOk result (λ series. series ≡ series_from self.old.state) }
        ensures state { self.new.state ≡ after_series self.old.state }
    {
        let start = 19_723 + i64::from(self.draw_below(28));
        let rule = self.rule(alloc);
        let mut rules = Rules::new(alloc);
        rules.put(rule)?;
        Ok(Series {
            kind: Kind::Days,
            start,
            start_counts: true,
            rules,
            excluded: Rules::new(alloc),
            plus: Dates::new(alloc),
            minus: Dates::new(alloc),
        })
    }
}

// From how many intervals of a frequency is drawn.
fn intervals(freq: Freq) -> u32
    ensures value { result ≡ intervals freq }
    ensures some { 1 ≤ result }
    ensures few { result ≤ 12 }
{
    match freq {
        Freq::Daily => 10,
        Freq::Monthly => 12,
        _ => 4,
    }
}

// The first weekday of a week: Monday, 0, for a draw of 0, and otherwise Sunday, 6.
fn week_start_of(draw: u32) -> u8
    ensures { result ≡ (if draw == 0 then 0 else 6) }
{
    if draw == 0 { 0 } else { 6 }
}
