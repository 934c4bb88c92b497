// What the lines of an event state, each value read once (RFC 5545, section 3.8).
ghost use Rattle.std.specs.Prelude.{◌≡◌, [], ◌∷◌, ◌++◌, OnOk};

use crate::language::StatedRule;
use rr_model::{FirstPass, NoMemory, Stamp};
use std::alloc::Global;
use std::marker::Model;

/// A value of a line, as it states it alone.
#[derive(Drop)]
pub enum LineValue<R> {
    /// A value of RDATE or EXDATE.
    OneDate {
        /// The number of its line.
        line: u64,
        /// Whether it is a value of RDATE.
        is_plus: bool,
        /// The date or moment as the text states it.
        stamp: Stamp,
    },
    /// The rule of RRULE or EXRULE.
    OneRule {
        /// The number of its line.
        line: u64,
        /// Whether it is the rule of RRULE.
        is_given: bool,
        /// The rule and its UNTIL as the line states them.
        stated: StatedRule<R>,
    },
}

/// Values, in the order in which they were put.
#[derive(Drop)]
pub struct LineValues<R> {
    items: Vec<LineValue<R>>,
}

impl<R> Model for LineValues<R> {
    ghost use Rattle.std.specs.Prelude.{List};
    ghost use Rattle.rr_ical.specs.declared.kept.LineValue.{LineValue};

    ghost Value = { List (LineValue R) };

    ghost view = { λ l. l.items.items };
}

impl<R: Drop> LineValues<R> {
    /// The empty list; it takes no memory.
    pub fn new(alloc: Global) -> Self
        ensures { result ≡ [] }
    {
        LineValues {
            items: Vec::new(alloc),
        }
    }

    /// Puts a value at the end.
    pub fn put(&mut self, value: LineValue<R>) -> Result<(), NoMemory>
        ensures { OnOk result (self.new ≡ self.old ++ value ∷ []) }
    {
        self.items.push(value)?;
        Ok(())
    }

    /// The values in the order of the text, moved out of the list.
    pub fn into_items(self) -> Vec<LineValue<R>>
        ensures { result.items ≡ self }
    {
        self.items
    }
}

/// What the first pass reads.
#[derive(Drop)]
pub struct ReadLines<R> {
    /// The start, and how many rules and dates there are.
    pub pass: FirstPass,
    /// The rules and dates, in the order of the text.
    pub values: LineValues<R>,
}
