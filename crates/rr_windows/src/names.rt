// Which names stand for the same zone.
ghost use Rattle.std.specs.Prelude.{◌≡◌, IfOk, map, option_map};
ghost use Rattle.rr_windows.specs.Names.{has_name, is_among, is_same_zone, line_in, names_in, names_on, other_names, others_on, windows_on};

use crate::table::table;
use rr_model::NoMemory;
use std::alloc::{AllocError, Global};

// The name of Windows on a line.
fn windows_on(line: &str) -> &str
    ensures { result.now ≡ windows_on line.now }
{
    match line.split_once(':') {
        Some((windows, _)) => windows,
        None => line,
    }
}

// The names of tzdata on a line, with a blank between each two.
fn names_on(line: &str) -> &str
    ensures { names_in result.now ≡ names_on line.now }
{
    match line.split_once(':') {
        Some((_, names)) => names,
        None => "",
    }
}

// Whether a name is one of these, with a blank between each two.
fn is_among(name: &[u8], names: &str) -> bool
    ensures { result ≡ is_among name.now (names_in names.now) }
{
    names.split(' ').any(|other| name == other.as_bytes())
}

// Whether a line has a name.
fn has_name(name: &[u8], line: &str) -> bool
    ensures { result ≡ has_name name.now line.now }
{
    name == windows_on(line).as_bytes() || is_among(name, names_on(line))
}

// The line of a name in a table.
fn line_in<'a>(name: &[u8], text: &'a str) -> Option<&'a str>
    ensures { option_map (λ line. line.now) result ≡ line_in name.now text.now }
{
    text.split('\n').find(|line| has_name(name, line))
}

// Names that stand with a blank between each two.
fn names_between(alloc: Global, names: &str) -> Result<Vec<&str>, AllocError>
    ensures { IfOk result (λ list. map (λ name. name.now) list.items ≡ names_in names.now) }
{
    names.split(' ').collect(alloc)
}

// The other names that a line has for the zone of a name.
fn others_on<'a>(alloc: Global, name: &[u8], line: &'a str) -> Result<Vec<&'a str>, NoMemory>
    ensures { IfOk result (λ names. map (λ name. name.now) names.items
        ≡ others_on name.now line.now) }
{
    let windows = windows_on(line);
    if name == windows.as_bytes() {
        return Ok(names_between(alloc, names_on(line))?);
    }
    let mut others = Vec::new(alloc);
    others.push(windows)?;
    Ok(others)
}

/// The other names for the zone of a name, in the order of the table: those of tzdata for one of Windows, and that of Windows for one
/// of tzdata. A name that the table does not have has none.
#[tactic(auto, unfolding(crate::specs::Names::other_names))]
pub fn other_names(alloc: Global, name: &[u8]) -> Result<Vec<&'static str>, NoMemory>
    ensures { IfOk result (λ names. map (λ name. name.now) names.items ≡ other_names name.now) }
{
    match line_in(name, table()) {
        None => Ok(Vec::new(alloc)),
        Some(line) => others_on(alloc, name, line),
    }
}

// Whether one of the other names that a line has for the zone of a name is this.
fn has_other_on(name: &[u8], other: &[u8], line: &str) -> bool
    ensures { result ≡ is_among other.now (others_on name.now line.now) }
{
    let windows = windows_on(line);
    if name == windows.as_bytes() {
        is_among(other, names_on(line))
    } else {
        other == windows.as_bytes()
    }
}

// Whether one of the other names for the zone of a name is this.
#[tactic(auto, unfolding(crate::specs::Names::other_names))]
fn has_other(name: &[u8], other: &[u8]) -> bool
    ensures { result ≡ is_among other.now (other_names name.now) }
{
    match line_in(name, table()) {
        None => false,
        Some(line) => has_other_on(name, other, line),
    }
}

/// Whether two names stand for the same zone: they are equal, or one is the name of Windows on a line of the table that has the other.
#[tactic(auto, unfolding(crate::specs::Names::is_same_zone))]
pub fn is_same_zone(a: &[u8], b: &[u8]) -> bool
    ensures { result ≡ is_same_zone a.now b.now }
{
    a == b || has_other(a, b)
}
