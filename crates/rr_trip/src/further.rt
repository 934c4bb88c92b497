// How many occurrences exactly one calendar has.
ghost use Rattle.std.specs.Prelude.{IfOk};
ghost use Rattle.rr_days.specs.Sequence.{sketch};
ghost use Rattle.rr_differ.specs.Further.{IsFurther};
ghost use Rattle.rr_model.specs.Sets.Sketch.{StandsIn};
ghost use Rattle.rr_trip.specs.Pairs.{IsPair, days_b};
ghost use Rattle.rr_trip.specs.Printed.{IsPrintableFurther};

use crate::pair::KeyPair;
use rr_differ::{Further, further_differences};
use rr_model::NoMemory;
use std::alloc::Global;

/// How many occurrences exactly one of both has beside the first.
pub fn further_of(alloc: Global, pair: &KeyPair) -> Result<Further, NoMemory>
    requires { IsPair pair.now }
    ensures further { IfOk result (IsFurther (StandsIn (sketch pair.now.a.days))
        (StandsIn (sketch (days_b pair.now)))) }
    ensures printable { IfOk result IsPrintableFurther }
{
    further_differences(alloc, &pair.a.days, pair.days_b())
}
