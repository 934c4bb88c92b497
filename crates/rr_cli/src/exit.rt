// The exit status of the program.
ghost use Rattle.std.specs.Prelude.{◌≡◌};
ghost use Rattle.rr_cli.specs.Exit.{exit_number};

use rr_answer::Status;
use rr_io::NotRun;

/// The exit status: the number of the status if the words were run, 7 if one is no text, and 6 if memory for them ran out.
pub fn exit_number(ended: Result<Status, NotRun>) -> u8
    ensures { result ≡ exit_number ended }
{
    match ended {
        Ok(status) => status.code(),
        Err(NotRun::NoText) => 7,
        Err(NotRun::NoMemory) => 6,
    }
}
