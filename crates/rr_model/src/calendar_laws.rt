// Laws of the calendar over all whole numbers, each the contract of a function that does nothing.
ghost use Rattle.rr_model.specs.Calendar.Laws.{CalendarRepeats, DatesAndDaysAreInverse, LastWeekIsGreatest};
ghost use Rattle.rr_model.specs.Moment.Years.{YearsAreTested};

/// Each day has exactly one date: the date of a day has its number, and the number of a date has that date.
pub fn dates_and_days_are_inverse()
    ensures { DatesAndDaysAreInverse }
{}

/// The week of 28 December has the greatest number of its year's weeks, for every week start.
pub fn last_week_is_greatest()
    ensures { LastWeekIsGreatest }
{}

/// The calendar begins again each 146,097 days, 400 years later, with the same months, weeks and weekdays.
pub fn calendar_repeats()
    ensures { CalendarRepeats }
{}

/// The test of the years 1 to 9999 says what the property says.
pub fn years_are_tested()
    ensures { YearsAreTested }
{}
