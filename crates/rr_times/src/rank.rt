// Where a second belongs among rising seconds.
ghost use Rattle.std.specs.Prelude.{nat_lt};
ghost use Rattle.rr_model.specs.Rising.{Rises};
ghost use Rattle.rr_times.specs.Split.{SplitsAt};

/// How many of the seconds lie below this one, by binary search.
pub fn count_below(seconds: &[u32], second: u32) -> usize
    requires { Rises nat_lt seconds.now }
    ensures { SplitsAt seconds.now result second }
{
    seconds.partition_point(|s| *s < second)
}
