// How many steps were taken.
use std::marker::Model;
use std::sync::ledger::{Blank, Book, Ledger, Share};

/// A counter of steps. Contracts see it as a number of steps, from 0.
///
/// It takes no bytes, and nothing is counted when the program runs. Only `tick` and `tick_many` change it. A function with the
/// ledger as a type parameter can make no second counter of it, since `new` wants a blank of the ledger's name. So if all that
/// it reads is read by counters of that ledger alone, its clause on the counter says in how many steps it reads.
///
/// A caller that counts nothing takes `Brand` for the ledger and `Steps::new(Blank::new(1))`, and names the ledger in its
/// proof.
#[derive(Drop)]
pub struct Steps<L: Ledger> {
    book: Book<L>,
    share: Share<L>,
}

impl<L: Ledger> Model for Steps<L> {
    ghost use Rattle.std.specs.Prelude.{ℕ, ◌<◌};

    ghost Value = { ℕ };

    ghost view = { λ s. s.book.total };

    ghost invariant = { λ s. 0 < s.share.parts };
}

impl<L: Ledger> Steps<L> {
    ghost use Rattle.std.specs.Prelude.{◌≡◌, ◌+◌, ◌<◌};

    /// A counter at which no step is taken yet, opened with a blank of its ledger that has all its parts.
    pub fn new(blank: Blank) -> Self
        requires name { blank.name ≡ L.name }
        requires parts { blank.parts ≡ L.parts }
        requires some { 0 < blank.parts }
        ensures { result ≡ 0 }
    {
        let (book, share) = blank.open();
        Steps { book, share }
    }

    /// Counts a step. It does nothing at run time.
    pub fn tick(&mut self)
        ensures { self.new ≡ self.old + 1 }
    {
        self.book.add(&mut self.share, 1);
    }

    /// Counts `count` steps at once. It does nothing at run time.
    pub fn tick_many(&mut self, count: u64)
        ensures { self.new ≡ self.old + count }
    {
        self.book.add(&mut self.share, count);
    }
}
