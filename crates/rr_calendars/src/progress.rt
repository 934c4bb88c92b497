// How far a long comparison is, in one line on a terminal.
use rr_trip::Watch;
use std::fmt::{self, Display, Formatter, Write};
use std::time::{Clock, Instant};

// How long nothing is told, in milliseconds.
const QUIET: u128 = 1_000;

// The least time between two lines, in milliseconds.
const PAUSE: u128 = 250;

// The most characters of a line.
const WIDTH: usize = 40;

// A number with commas between thousands.
#[derive(Drop)]
struct Grouped(usize);

impl Display for Grouped {
    fn fmt<W: Write>(&self, f: &mut Formatter<W>) -> fmt::Result {
        let number = self.0;
        if number < 1_000 {
            write!(f, "{number}")
        } else if number < 1_000_000 {
            write!(f, "{},{:03}", number / 1_000, number % 1_000)
        } else {
            write!(
                f,
                "{},{:03},{:03}",
                number / 1_000_000,
                number / 1_000 % 1_000,
                number % 1_000
            )
        }
    }
}

/// Tells on standard error how many events are compared, from a second after it was made on. A clock that can't be read tells
/// nothing, and what can't be written is left out.
#[derive(Drop)]
pub(crate) struct Progress<R: Clock + Eprint + Drop> {
    rt: R,
    // When it was made, if it tells anything.
    begun: Option<Instant>,
    // How long after that it tells next, in milliseconds.
    next: u128,
    is_shown: bool,
}

impl<R: Clock + Eprint + Drop> Progress<R> {
    /// Nothing is told yet, and nothing will be if standard error is no terminal.
    pub(crate) fn new(rt: R, is_terminal: bool) -> Self {
        let begun = if is_terminal {
            Instant::now(&rt).ok()
        } else {
            None
        };
        Progress {
            rt,
            begun,
            next: QUIET,
            is_shown: false,
        }
    }
}

impl<R: Clock + Eprint + Drop> Watch for Progress<R> {
    fn on_judged(&mut self, keys: usize, of: usize) {
        let Some(begun) = self.begun else {
            return;
        };
        let Ok(elapsed) = begun.elapsed(&self.rt) else {
            return;
        };
        let elapsed = elapsed.as_millis();
        if elapsed < self.next {
            return;
        }
        let _ = eprint!(self.rt; "\r{} of {} events", Grouped(keys), Grouped(of));
        self.next = elapsed.saturating_add(PAUSE);
        self.is_shown = true;
    }

    // Wipes the line, if it is shown.
    fn on_ended(&mut self) {
        if self.is_shown {
            let _ = eprint!(self.rt; "\r{:1$}\r", "", WIDTH);
            self.is_shown = false;
        }
    }
}
