// Dates that come in any order.
ghost use Rattle.std.specs.Prelude.{◌≡◌, [], int_lt, not, IfOk, OnOk};
ghost use Rattle.std.specs.List.{list_any};
ghost use Rattle.std.specs.Ordering.{int_eq};
ghost use Rattle.rr_model.specs.Rising.{with_value};
ghost use Rattle.rr_moved.specs.Moved.{with_values};

use rr_model::{Dates, NoMemory};
use std::alloc::Global;
use std::collections::BTreeSet;
use std::marker::Model;

/// Dates that come in any order, each of which is put or found in a time that grows as the logarithm of their number.
#[derive(Drop)]
pub struct DateSet {
    dates: BTreeSet<i64>,
}

impl Model for DateSet {
    ghost use Rattle.std.specs.Prelude.{List, ℤ};

    ghost Value = { List ℤ };

    ghost view = { λ s. s.dates.keys };
}

impl DateSet {
    /// The empty set; it takes no memory.
    pub fn new(alloc: Global) -> DateSet
        ensures { result ≡ [] }
    {
        DateSet {
            dates: BTreeSet::new(alloc),
        }
    }

    /// Puts a date, in days or seconds since 1970-01-01, and says whether it was not there before.
    pub fn put(&mut self, at: i64) -> Result<bool, NoMemory>
        ensures put { OnOk result (self.new ≡ with_value int_lt self.old at) }
        ensures added { IfOk result (λ added. list_any (λ t. int_eq t at) self.old ≡ not added) }
    {
        Ok(self.dates.insert(at)?)
    }

    /// Puts each of several dates that is not there yet.
    pub fn put_all(&mut self, values: &[i64]) -> Result<(), NoMemory>
        ensures { OnOk result (self.new ≡ with_values self.old values.now) }
    {
        for at in values {
            self.put(*at)?;
        }
        Ok(())
    }

    /// All dates of the set, rising.
    pub fn dates(&self, alloc: Global) -> Result<Dates, NoMemory>
        ensures { IfOk result (λ dates. dates ≡ self.now) }
    {
        let mut dates = Dates::new(alloc);
        for at in &self.dates {
            dates.put(*at)?;
        }
        Ok(dates)
    }
}
