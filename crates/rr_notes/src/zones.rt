// Why moments in UTC stay what they are: a zone that an event names and that can't be read.
ghost use Rattle.std.specs.Prelude.{◌<◌, ◌^◌, IfOk};
ghost use Rattle.rr_notes.specs.Visible.{IsVisibleIfSome, IsVisibleNote};

use crate::again::bytes_again;
use crate::visible::{shown, shown_bytes, visible};
use rr_zone::{UnreadZone, ZoneFault, unread_zones};
use std::alloc::{AllocError, Global};

// Why a zone of a file turns nothing. Both names are as they are shown.
fn text_on_zone(
    alloc: Global,
    file: &str,
    zone: &str,
    fault: ZoneFault,
) -> Result<String, AllocError> {
    match fault {
        ZoneFault::Undefined => format!(in alloc; "{file} has no VTIMEZONE of the zone {zone}"),
        ZoneFault::Differs => {
            format!(in alloc; "{file} has several VTIMEZONEs of the zone {zone}, and they differ")
        }
        ZoneFault::Unreadable(line) => {
            format!(in alloc;
                "{file} has a VTIMEZONE of the zone {zone} that can't be read, on line {line}"
            )
        }
    }
}

/// Why a zone of a file turns no moment, as a sentence for standard error with the names of both.
pub fn note_on_zone(alloc: Global, file: &str, zone: &UnreadZone) -> Result<String, AllocError>
    ensures { IsVisibleNote result }
{
    let file = shown(alloc, file)?;
    let name = shown_bytes(alloc, zone.name.as_slice())?;
    let text = text_on_zone(alloc, file.as_str(), name.as_str(), zone.fault)?;
    visible(alloc, text.as_bytes())
}

// Why a zone that an event of a file needs turns nothing, if there is one: the first of them, by the bytes of the file.
fn note_on_zones(alloc: Global, file: &str, bytes: &[u8]) -> Result<Option<String>, AllocError>
    ensures { IfOk result IsVisibleIfSome }
{
    let Ok(unread) = unread_zones(alloc, bytes) else {
        return Ok(None);
    };
    match unread.as_slice() {
        [] => Ok(None),
        [zone, ..] => Ok(Some(note_on_zone(alloc, file, zone)?)),
    }
}

/// Why a zone that an event of a file needs turns nothing, if there is one: the first of them. The file is read again,
/// as by `bytes_again`. Nothing is noted of standard input, a pipe or a device, which can be read once.
pub fn note_on_zones_of_file(rt: &HostRuntime, name: &str, limit: usize) -> Option<String>
    requires { limit < 2 ^ 62 }
    ensures { IsVisibleIfSome result }
{
    let bytes = bytes_again(rt, name, limit)?;
    match note_on_zones(rt.alloc(), name, bytes.as_slice()) {
        Ok(note) => note,
        Err(_) => None,
    }
}
