// The days of the month by which patterns have a day.
use crate::candidate::Here;
use crate::months::{Month, Pick, has_weekday_after};
use crate::second::SecondDays;
use crate::target::Target;
use crate::weeks::many_weekdays;
use rr_cal::Day;
use rr_model::{Form, NoMemory};
use std::alloc::Global;

// The indexes in the order in which they are tried.
const INDEXES: [i8; 5] = [1, 2, 3, 4, -1];

/// By which days of its month patterns have a day.
#[derive(Drop)]
pub(crate) struct Picks {
    numbers: Vec<Pick>,
    indexed: Vec<Pick>,
}

impl Picks {
    /// All picks of a month that have the day: by its number, and by its place among the weekdays of its month.
    pub(crate) fn of(alloc: Global, days: &SecondDays, here: &Here) -> Result<Picks, NoMemory> {
        let mut picks = Picks {
            numbers: Vec::new(alloc),
            indexed: Vec::new(alloc),
        };
        picks.put_numbers(&here.day)?;
        if let Some(month) = days.months.get(here.month as usize) {
            for index in INDEXES {
                picks.put_indexed(&here.day, month, index, days.target)?;
            }
        }
        Ok(picks)
    }

    // The number of the day, and if it is the last of its month, each greater one.
    fn put_numbers(&mut self, day: &Day) -> Result<(), NoMemory> {
        let number = day.day_of_month;
        self.numbers.push(Pick::Number(number))?;
        if number == day.days_in_month {
            for greater in number..31 {
                self.numbers.push(Pick::Number(greater + 1))?;
            }
        }
        Ok(())
    }

    // The weekdays of which it is the one of an index.
    fn put_indexed(
        &mut self,
        day: &Day,
        month: &Month,
        index: i8,
        target: Target,
    ) -> Result<(), NoMemory> {
        for weekdays in 1..128 {
            let pick = Pick::Indexed { index, weekdays };
            if target.has_places(many_weekdays(weekdays))
                && has_weekday_after(day.weekday, 0, weekdays)
                && has_number(&pick, month, day.day_of_month)
            {
                self.indexed.push(pick)?;
            }
        }
        Ok(())
    }

    /// The picks that a type can name: numbers of an absolute type, weekdays of a relative one, and none of others.
    pub(crate) fn of_form(&self, form: Form) -> &[Pick] {
        match form {
            Form::AbsoluteMonthly | Form::AbsoluteYearly => self.numbers.as_slice(),
            Form::RelativeMonthly | Form::RelativeYearly => self.indexed.as_slice(),
            Form::Daily | Form::Weekly => &[],
        }
    }
}

// Whether the day of a month has this number.
fn has_number(pick: &Pick, month: &Month, number: u8) -> bool {
    match pick.days_before(month) {
        Some(before) => before.saturating_add(1) == number,
        None => false,
    }
}
