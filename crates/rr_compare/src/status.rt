// How a run ends.
ghost use Rattle.std.specs.Prelude.{◌≡◌};
ghost use Rattle.rr_compare.specs.Answer.{code_of};

/// How a run of `rr-calendars` ends; `exit_number` of rr_calendars has the number of each.
#[derive(Clone, Copy, Debug, PartialEq, Eq)]
pub enum Status {
    /// All events are equal, or help was asked for.
    Equal,
    /// An event differs, or stands in one file alone.
    Differs,
    /// Neither, but an event or a file is refused.
    Refused,
    /// The words are no comparison, no help and no version.
    Usage,
    /// A file could not be fetched.
    ReadFault,
    /// The output could not be put, or not all of it.
    WriteFault,
    /// Out of memory; nothing was put.
    NoMemory,
}

impl Status {
    /// The number by which other programs know it: the exit status of the program.
    pub fn code(self) -> u8
        ensures { result ≡ code_of self }
    {
        match self {
            Status::Equal => 0,
            Status::Differs => 1,
            Status::Refused => 2,
            Status::Usage => 3,
            Status::ReadFault => 4,
            Status::WriteFault => 5,
            Status::NoMemory => 6,
        }
    }
}
