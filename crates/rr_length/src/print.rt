// A length as it is printed.
ghost use Rattle.std.specs.Prelude.{◌≡◌, ◌++◌, OnOk};
ghost use Rattle.rr_length.specs.Length.{length_text, seconds_behind};

use crate::length::Length;
use rr_model::NoMemory;
use rr_text::push_unsigned;

// The seconds behind days, if there are some.
fn push_seconds_behind(out: &mut Vec<u8>, seconds: u64) -> Result<(), NoMemory>
    ensures { OnOk result (out.new.items ≡ out.old.items ++ seconds_behind seconds) }
{
    if seconds == 0 {
        return Ok(());
    }
    push_unsigned(out, seconds)
}

/// Appends a length: `3600` of seconds alone, `1d` of days alone, `1d3600` of both, and `0` of nothing.
pub fn push_length(out: &mut Vec<u8>, length: Length) -> Result<(), NoMemory>
    ensures { OnOk result (out.new.items ≡ out.old.items ++ length_text length) }
{
    if length.days == 0 {
        return push_unsigned(out, length.seconds);
    }
    push_unsigned(out, length.days)?;
    out.extend_from_slice(b"d")?;
    push_seconds_behind(out, length.seconds)
}
