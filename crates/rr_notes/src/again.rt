// A file that is read once more, for a note on what stands in it.
ghost use Rattle.std.specs.Prelude.{◌≡◌, ◌<◌, ◌^◌, bytes_eq, codes, false, true, IfSome};

use rr_io::{HostSource, Source};
use std::fs;

// Whether a name is that of a file of the disk, which can be read once more.
fn is_file(rt: &HostRuntime, name: &str) -> bool
    ensures { result ≡ true → bytes_eq name.now (codes "-") ≡ false }
{
    match fs::metadata(rt, name) {
        Ok(found) => name != "-" && found.is_file(),
        Err(_) => false,
    }
}

/// The bytes of a file of the disk, read again: at most `limit` of them and the next. There are none of standard input,
/// a pipe or a device, which can be read once.
pub fn bytes_again(rt: &HostRuntime, name: &str, limit: usize) -> Option<Vec<u8>>
    requires { limit < 2 ^ 62 }
    ensures { IfSome result (λ _. bytes_eq name.now (codes "-") ≡ false) }
{
    if !is_file(rt, name) {
        return None;
    }
    let mut source = HostSource::new(rt.alloc(), rt);
    source.fetch_within(rt.alloc(), name, limit).ok()
}
