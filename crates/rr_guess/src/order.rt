// The order in which intervals and types are tried: the shortest interval in time first.
ghost use Rattle.std.specs.Prelude.{◌≤◌};

use rr_model::Form;

// The types in the order in which they are tried.
const FORMS: [Form; 6] = [
    Form::Daily,
    Form::Weekly,
    Form::AbsoluteMonthly,
    Form::RelativeMonthly,
    Form::AbsoluteYearly,
    Form::RelativeYearly,
];

/// How many pairs of an interval and a type there are: 2 times 999, and 4 times 99.
pub(crate) const MANY_TURNS: u32 = 2_394;

/// An interval of a type.
#[derive(Clone, Copy)]
pub(crate) struct Turn {
    /// The type (Microsoft Graph, recurrencePattern, `type`).
    pub form: Form,
    /// Every how many days, weeks, months or years it counts, from 1 to 999.
    pub interval: u32,
    /// How long the interval is on average, in 4,800ths of a day: 400 years have 4,800 months and 146,097 days.
    pub length: u64,
    ghost low: { 1 ≤ interval },
    ghost high: { interval ≤ 999 },
    ghost some: { 1 ≤ length },
    ghost few: { length ≤ 2_000_000_000 },
}

impl Turn {
    /// The first of all: each day.
    pub(crate) fn first() -> Turn {
        Turn {
            form: Form::Daily,
            interval: 1,
            length: length_of(Form::Daily, 1),
        }
    }

    // The interval of the type, if it is one that the type may have.
    fn of(form: Form, interval: u64) -> Option<Turn> {
        if interval < 1 || most_interval(form) < interval {
            return None;
        }
        let interval = interval as u32;
        Some(Turn {
            form,
            interval,
            length: length_of(form, interval),
        })
    }

    /// The next in the order: of the shortest interval, of equal ones that of the lesser number, then the first type.
    pub(crate) fn after(&self) -> Option<Turn> {
        let mut next = None;
        for form in FORMS {
            next = earlier_of(next, self.next_of(form));
        }
        next
    }

    // The next of one type.
    fn next_of(&self, form: Form) -> Option<Turn> {
        let interval = self.length / length_of(form, 1);
        if let Some(turn) = Turn::of(form, interval) {
            if self.comes_before(&turn) {
                return Some(turn);
            }
        }
        Turn::of(form, interval + 1)
    }

    // Whether it comes before another in the order.
    fn comes_before(&self, other: &Turn) -> bool {
        if self.length != other.length {
            return self.length < other.length;
        }
        if self.interval != other.interval {
            return self.interval < other.interval;
        }
        form_place(self.form) < form_place(other.form)
    }
}

// The one that comes first.
fn earlier_of(a: Option<Turn>, b: Option<Turn>) -> Option<Turn> {
    let Some(first) = a else {
        return b;
    };
    let Some(second) = b else {
        return a;
    };
    if second.comes_before(&first) { b } else { a }
}

// The greatest interval of a type.
fn most_interval(form: Form) -> u64
    ensures { result ≤ 999 }
{
    match form {
        Form::Daily | Form::Weekly => 999,
        _ => 99,
    }
}

// How long an interval of a type is, in 4,800ths of a day.
fn length_of(form: Form, interval: u32) -> u64
    ensures some { 1 ≤ interval → 1 ≤ result }
    ensures few { interval ≤ 999 → result ≤ 2_000_000_000 }
{
    let interval = u64::from(interval);
    match form {
        Form::Daily => 4_800 * interval,
        Form::Weekly => 33_600 * interval,
        Form::AbsoluteMonthly | Form::RelativeMonthly => 146_097 * interval,
        Form::AbsoluteYearly | Form::RelativeYearly => 1_753_164 * interval,
    }
}

// The place of a type in the order.
fn form_place(form: Form) -> u8 {
    match form {
        Form::Daily => 0,
        Form::Weekly => 1,
        Form::AbsoluteMonthly => 2,
        Form::RelativeMonthly => 3,
        Form::AbsoluteYearly => 4,
        Form::RelativeYearly => 5,
    }
}
