// Time sets of a descriptor: single seconds, and rows of equal steps.
ghost use Rattle.std.specs.Prelude.{◌≡◌, ◌↔◌, ◌<◌, ◌≤◌, ◌++◌, ◌∷◌, [], IfOk, IsTrue, OnOk, length};
ghost use Rattle.rr_model.specs.Rising.Sets.{IsSecondsOfDay};
ghost use Rattle.rr_model.specs.Sets.Stretches.{seconds_from};
ghost use Rattle.rr_algebra.specs.Items.{FindsItem, FindsSeconds, RefusedWhereNoItem, RefusedWhereNoRow, RefusedWhereNoSeconds, RefusedWhereNotNext};

use crate::numbers::{after_byte, take_number};
use crate::runs::begins_with;
use rr_model::{Fault, Refusal};
use std::alloc::Global;

// Whether a second is one of a day, and above these.
fn is_next(seconds: &[u32], second: u64) -> bool
    requires { IsSecondsOfDay seconds.now }
    ensures { IsTrue result ↔ IsSecondsOfDay (seconds.now ++ second ∷ []) }
{
    if second >= 86_400 {
        return false;
    }
    match seconds {
        [.., last] => u64::from(*last) < second,
        [] => true,
    }
}

// Adds a second, if it is one of a day and above these.
fn push_second(seconds: &mut Vec<u32>, second: u64) -> Result<(), Fault>
    requires { IsSecondsOfDay seconds.old.items }
    ensures added { OnOk result (seconds.new.items ≡ seconds.old.items ++ second ∷ []) }
    ensures of_day { OnOk result (IsSecondsOfDay seconds.new.items) }
    ensures small { OnOk result (second < 86_400) }
    ensures refused { RefusedWhereNotNext seconds.old.items second result }
{
    let next = is_next(seconds.as_slice(), second);
    if !next {
        return Err(Fault::Refused(Refusal::NotCanonical));
    }
    match seconds.push(second as u32) {
        Ok(()) => Ok(()),
        Err(_) => Err(Fault::NoMemory),
    }
}

// Adds a row of seconds. No more are added than a day has.
fn push_row(seconds: &mut Vec<u32>, start: u64, step: u64, count: u64) -> Result<(), Fault>
    requires { IsSecondsOfDay seconds.old.items }
    ensures added { OnOk result
        (seconds.new.items ≡ seconds.old.items ++ seconds_from start step count) }
    ensures of_day { OnOk result (IsSecondsOfDay seconds.new.items) }
    ensures refused { RefusedWhereNoRow seconds.old.items start step count result }
{
    if step > 86_400 {
        return Err(Fault::Refused(Refusal::NotCanonical));
    }
    let mut second = start;
    for k in 0..count {
        match push_second(seconds, second) {
            Ok(()) => second += step,
            Err(fault) => return Err(fault),
        }
    }
    Ok(())
}

// Adds the seconds of the item after the first byte, and gives what follows it.
fn take_item<'a>(text: &'a [u8], seconds: &mut Vec<u32>) -> Result<&'a [u8], Fault>
    requires { IsSecondsOfDay seconds.old.items }
    ensures found { IfOk result
        (λ after. FindsItem text.now seconds.old.items after.now seconds.new.items) }
    ensures of_day { OnOk result (IsSecondsOfDay seconds.new.items) }
    ensures shorter { IfOk result
        (λ after. 0 < length text.now → length after.now < length text.now) }
    ensures refused { RefusedWhereNoItem text.now seconds.old.items result }
{
    let (start, rest) = take_number(text);
    if !begins_with(rest, b'/') {
        return match push_second(seconds, start) {
            Ok(()) => Ok(rest),
            Err(fault) => Err(fault),
        };
    }
    let (step, rest) = take_number(rest);
    let (count, rest) = take_number(rest);
    match push_row(seconds, start, step, count) {
        Ok(()) => Ok(rest),
        Err(fault) => Err(fault),
    }
}

/// The seconds of a line of a time set, below 86,400, and what follows the line. `NotCanonical` comes if the text does
/// not begin with such a line.
pub fn take_seconds(alloc: Global, text: &[u8]) -> Result<(Vec<u32>, &[u8]), Fault>
    ensures found { IfOk result (λ x. FindsSeconds text.now x.0.items x.1.now) }
    ensures of_day { IfOk result (λ x. IsSecondsOfDay x.0.items) }
    ensures refused { RefusedWhereNoSeconds text.now result }
    ensures shorter { IfOk result (λ x. 0 < length text.now → length x.1.now < length text.now) }
{
    let mut seconds = Vec::new(alloc);
    let mut rest = after_byte(text);
    while begins_with(rest, b' ') {
        match take_item(rest, &mut seconds) {
            Ok(after) => rest = after,
            Err(fault) => return Err(fault),
        }
    }
    Ok((seconds, after_byte(rest)))
}
