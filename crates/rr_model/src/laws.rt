// Laws about the definitions, each the contract of a function that does nothing.
ghost use Rattle.rr_model.specs.Series.Settled.{SettledDayIsOne};
ghost use Rattle.rr_model.specs.Sets.DividingOut.{LeastFactorIsOne};
ghost use Rattle.rr_model.specs.Sets.Least.{LeastPeriodIsOne, LeastStartIsOne};
ghost use Rattle.rr_model.specs.Rule.DaysAndTimes.{CandidatesAreDaysAndTimes};

/// A series has one settled day at most.
pub fn settled_day_is_one()
    ensures { SettledDayIsOne }
{}

/// A number has one least factor at most.
pub fn least_factor_is_one()
    ensures { LeastFactorIsOne }
{}

/// A sequence has one least period at most.
pub fn least_period_is_one()
    ensures { LeastPeriodIsOne }
{}

/// A period has one least start at most.
pub fn least_start_is_one()
    ensures { LeastStartIsOne }
{}

/// The candidates of a rule, DAILY or coarser, are the seconds of a day that its time parts allow on the days that its
/// interval and its date parts allow, and no others (RFC 5545, section 3.3.10).
pub fn candidates_are_days_and_times()
    ensures { CandidatesAreDaysAndTimes }
{}
