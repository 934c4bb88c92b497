// The seconds that hours, minutes and seconds name together.
ghost use Rattle.std.specs.Prelude.{◌≡◌, ◌≤◌, ◌<◌, ◌++◌, All, OnOk};
ghost use Rattle.rr_expand.specs.Spread.{of_day, of_hour, of_minute};

use std::alloc::AllocError;

// Appends these seconds of the minute that begins at `base`.
pub(crate) fn push_minute(out: &mut Vec<u32>, base: u32, seconds: &[u32]) -> Result<(), AllocError>
    requires base { base ≤ 86_340 }
    requires seconds { All (λ s. s < 60) seconds.now }
    ensures { OnOk result (out.new.items ≡ out.old.items ++ of_minute base seconds.now) }
{
    for second in seconds {
        out.push(base + *second)?;
    }
    Ok(())
}

// Appends these seconds of these minutes of the hour that begins at `base`.
pub(crate) fn push_hour(
    out: &mut Vec<u32>,
    base: u32,
    minutes: &[u32],
    seconds: &[u32],
) -> Result<(), AllocError>
    requires base { base ≤ 82_800 }
    requires minutes { All (λ m. m < 60) minutes.now }
    requires seconds { All (λ s. s < 60) seconds.now }
    ensures { OnOk result (out.new.items
        ≡ out.old.items ++ of_hour base minutes.now seconds.now) }
{
    for minute in minutes {
        push_minute(out, base + 60 * *minute, seconds)?;
    }
    Ok(())
}

// Appends these seconds of these minutes of these hours.
pub(crate) fn push_hours(
    out: &mut Vec<u32>,
    hours: &[u32],
    minutes: &[u32],
    seconds: &[u32],
) -> Result<(), AllocError>
    requires hours { All (λ h. h < 24) hours.now }
    requires minutes { All (λ m. m < 60) minutes.now }
    requires seconds { All (λ s. s < 60) seconds.now }
    ensures { OnOk result (out.new.items
        ≡ out.old.items ++ of_day hours.now minutes.now seconds.now) }
{
    for hour in hours {
        push_hour(out, 3_600 * *hour, minutes, seconds)?;
    }
    Ok(())
}
