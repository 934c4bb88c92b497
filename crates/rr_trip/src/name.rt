// The line that is shown of a name: that of the key that is printed so, otherwise by its title.
ghost use Rattle.std.specs.Prelude.{◌≡◌, ◌<◌, ◌++◌, IfOk, IfSome, OnOk, Some, bytes_eq, length, position};
ghost use Rattle.std.specs.List.{list_all};
ghost use Rattle.rr_seam.specs.Keys.{is_same_key};
ghost use Rattle.rr_title.specs.Title.{title_text};
ghost use Rattle.rr_trip.specs.Found.{AreSound, IsWithin};
ghost use Rattle.rr_trip.specs.Shown.{has_partner_key, is_key_named, is_line_of_key, is_titled, keys_titled, line_of, line_of_keys, shown_line, titled_part};

use crate::found::{Found, FoundAgain};
use crate::printing::push_key;
use rr_groups::Group;
use rr_model::NoMemory;
use rr_seam::{EventFile, Key, compare_keys};
use rr_title::push_title;
use std::alloc::Global;

// ---- by key

// Whether a key is printed so.
fn is_named(alloc: Global, key: &Key, name: &[u8]) -> Result<bool, NoMemory>
    ensures { IfOk result (λ b. b ≡ is_key_named name.now key.now) }
{
    let mut text = Vec::new(alloc);
    push_key(&mut text, key)?;
    Ok(text.as_slice() == name)
}

// The index of the group whose key is printed so.
fn index_named(alloc: Global, groups: &[Group], name: &[u8]) -> Result<Option<usize>, NoMemory>
    ensures { IfOk result (λ index. index ≡ position (λ group. is_key_named name.now group.key) groups.now) }
{
    for index in 0..groups.len() {
        if is_named(alloc, &groups[index].key, name)? {
            return Ok(Some(index));
        }
    }
    Ok(None)
}

// ---- by title

// Whether a title is printed so.
fn is_printed(alloc: Global, title: &[u8], name: &[u8]) -> Result<bool, NoMemory>
    ensures { IfOk result (λ b. b ≡ bytes_eq (title_text title.now) name.now) }
{
    let mut text = Vec::new(alloc);
    push_title(&mut text, title)?;
    Ok(text.as_slice() == name)
}

// Whether a title, which is not empty, is printed so.
fn is_titled(alloc: Global, title: &[u8], name: &[u8]) -> Result<bool, NoMemory>
    ensures { IfOk result (λ b. b ≡ is_titled name.now title.now) }
{
    match title {
        [] => Ok(false),
        [_, ..] => is_printed(alloc, title, name),
    }
}

// Puts the key of an event if its title is printed so.
fn put_titled(
    alloc: Global,
    keys: &mut Vec<Key>,
    title: &[u8],
    key: Key,
    name: &[u8],
) -> Result<(), NoMemory>
    ensures { OnOk result (keys.new.items ≡ keys.old.items ++ titled_part name.now title.now key) }
{
    if is_titled(alloc, title, name)? {
        keys.push(key)?;
    }
    Ok(())
}

// Puts the keys of the events of one calendar whose title is printed so.
fn put_keys_titled<F: EventFile>(
    alloc: Global,
    keys: &mut Vec<Key>,
    file: &F,
    name: &[u8],
) -> Result<(), NoMemory>
    ensures { OnOk result (keys.new.items
        ≡ keys.old.items ++ keys_titled name.now (F.titles file.now) 0 (F.keys file.now)) }
{
    for index in 0..file.count() {
        let title = file.title(alloc, index)?;
        let key = file.key_at(alloc, index)?;
        put_titled(alloc, keys, title.as_slice(), key, name)?;
    }
    Ok(())
}

fn is_key(key: &Key, other: &Key) -> bool
    ensures { result ≡ is_same_key key.now other.now }
{
    compare_keys(key, other).is_eq()
}

// The index of the group of a key.
fn index_of(groups: &[Group], key: &Key) -> Option<usize>
    ensures { result ≡ position (λ group. is_same_key group.key key.now) groups.now }
{
    groups.iter().position(|group| is_key(&group.key, key))
}

// ---- lines

// The group in whose line the events of a group stand.
fn line_of(found: &FoundAgain, index: usize) -> usize
    requires { index < length found.now.b.items }
    ensures { result ≡ line_of found.now index }
{
    match found.b[index] {
        Some(found) => found.index,
        None => index,
    }
}

// Whether the group of B that a group of A is found again as has this key.
fn has_partner_key(groups: &[Group], found: Option<Found>, key: &Key) -> bool
    requires { IsWithin (length groups.now) found }
    ensures { result ≡ has_partner_key groups.now key.now (Some found) }
{
    match found {
        Some(found) => is_key(&groups[found.index].key, key),
        None => false,
    }
}

// Whether the line of a group is that of a key.
fn is_line_of_key(groups: &[Group], found: &FoundAgain, index: usize, key: &Key) -> bool
    requires index { index < length groups.now }
    requires sound { AreSound (length groups.now) found.now }
    ensures { result ≡ is_line_of_key groups.now found.now index key.now }
{
    is_key(&groups[index].key, key) || has_partner_key(groups, found.a[index], key)
}

// Whether the line of a group is that of all these keys.
fn is_line_of_all(groups: &[Group], found: &FoundAgain, index: usize, keys: &[Key]) -> bool
    requires index { index < length groups.now }
    requires sound { AreSound (length groups.now) found.now }
    ensures { result ≡ list_all (is_line_of_key groups.now found.now index) keys.now }
{
    keys.iter()
        .all(|key| is_line_of_key(groups, found, index, key))
}

// The line that is that of all keys, if there is one.
fn line_of_keys(groups: &[Group], found: &FoundAgain, keys: &[Key]) -> Option<usize>
    requires { AreSound (length groups.now) found.now }
    ensures line { result ≡ line_of_keys groups.now found.now keys.now }
    ensures within { IfSome result (λ index. index < length groups.now) }
{
    let (key, others) = keys.split_first()?;
    let index = line_of(found, index_of(groups, key)?);
    if is_line_of_all(groups, found, index, others) {
        Some(index)
    } else {
        None
    }
}

// The keys of the events of both calendars whose title is printed so.
fn keys_with_title<A: EventFile, B: EventFile>(
    alloc: Global,
    a: &A,
    b: &B,
    name: &[u8],
) -> Result<Vec<Key>, NoMemory>
    ensures { IfOk result (λ keys. keys.items ≡ keys_titled name.now (A.titles a.now) 0 (A.keys a.now)
        ++ keys_titled name.now (B.titles b.now) 0 (B.keys b.now)) }
{
    let mut keys = Vec::new(alloc);
    put_keys_titled(alloc, &mut keys, a, name)?;
    put_keys_titled(alloc, &mut keys, b, name)?;
    Ok(keys)
}

/// The index of the group whose line is shown: that of the key that is printed as the name; if no key is, the one line of all events whose
/// title is printed so.
pub fn shown_line<A: EventFile, B: EventFile>(
    alloc: Global,
    a: &A,
    b: &B,
    groups: &[Group],
    found: &FoundAgain,
    name: &[u8],
) -> Result<Option<usize>, NoMemory>
    requires { AreSound (length groups.now) found.now }
    ensures line { IfOk result (λ line. line ≡ shown_line groups.now found.now name.now
        (keys_titled name.now (A.titles a.now) 0 (A.keys a.now) ++ keys_titled name.now (B.titles b.now) 0 (B.keys b.now))) }
    ensures within { IfOk result (λ line. IfSome line (λ index. index < length groups.now)) }
{
    if let Some(index) = index_named(alloc, groups, name)? {
        return Ok(Some(line_of(found, index)));
    }
    let keys = keys_with_title(alloc, a, b, name)?;
    Ok(line_of_keys(groups, found, &keys))
}
