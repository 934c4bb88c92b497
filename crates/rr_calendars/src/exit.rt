// The exit status of the program.
ghost use Rattle.std.specs.Prelude.{◌≡◌};
ghost use Rattle.rr_calendars.specs.Exit.{exit_number};

use crate::ended::Ended;
use rr_io::NotRun;

/// The exit status: the number of the status if the words were run.
pub fn exit_number(ended: Result<Ended, NotRun>) -> u8
    ensures { result ≡ exit_number ended }
{
    match ended {
        Ok(ended) => ended.status.code(),
        Err(NotRun::NoText) => 7,
        Err(NotRun::NoMemory) => 6,
    }
}
