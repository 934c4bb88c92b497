// How a series that is at odds with RFC 5545 was read.
ghost use Rattle.std.specs.Prelude.{◌≡◌};
ghost use Rattle.rr_seam.specs.Marks.{marks_of_both, no_marks};

/// How a series that is at odds with RFC 5545 was read, as calendars show it.
#[derive(Clone, Copy, Debug, PartialEq, Eq)]
pub struct Marks {
    /// An UNTIL of the other kind than the start's ends its rule with that day (section 3.3.10 asks for one of the start's kind).
    pub until: bool,
    /// A start that its rule does not choose is an occurrence all the same (section 3.8.5.3 leaves open what such a rule makes).
    pub start: bool,
    /// A date beside moments, in an EXDATE or a RECURRENCE-ID, stands for the occurrences of its day (sections 3.8.4.4 and 3.8.5.1
    /// ask for a moment there).
    pub day: bool,
}

impl Marks {
    /// The marks of what is read as it stands: none.
    pub fn none() -> Marks
        ensures { result ≡ no_marks }
    {
        Marks {
            until: false,
            start: false,
            day: false,
        }
    }

    /// The marks that either of both has.
    pub fn or(self, other: Marks) -> Marks
        ensures { result ≡ marks_of_both self other }
    {
        Marks {
            until: self.until || other.until,
            start: self.start || other.start,
            day: self.day || other.day,
        }
    }
}
