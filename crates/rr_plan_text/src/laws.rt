// A law of plans, the contract of a function that does nothing.
ghost use Rattle.rr_plan_text.specs.PlanText.{PlanEventIsReadBack};

/// An event of a plan is read back from its text, if its startDate is a day of its pattern.
pub fn plan_event_is_read_back()
    ensures { PlanEventIsReadBack }
{}
