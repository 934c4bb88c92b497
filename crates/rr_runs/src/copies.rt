// Numbers put at the end of a list, and parts of one.
ghost use Rattle.std.specs.Prelude.{◌≡◌, ◌≤◌, ◌++◌, OnErr, OnOk, length, take, drop, replicate, ◌+◌, min};

use rr_model::NoMemory;

// The numbers from an index on.
#[inline(always)]
pub(crate) fn rest_from(numbers: &[u32], from: usize) -> &[u32]
    requires { from ≤ length numbers.now }
    ensures { result.now ≡ drop from numbers.now }
{
    &numbers[from..]
}

// Copies numbers to the start of a block.
pub(crate) fn copy_to_start(block: &mut [u32], numbers: &[u32])
    requires { length numbers.now ≤ length block.old }
    ensures room { length block.new ≡ length block.old }
    ensures value { take (length numbers.now) block.new ≡ numbers.now }
{
    block[..numbers.len()].copy_from_slice(numbers);
}

// The first numbers, at most `most`.
#[inline(always)]
pub(crate) fn first_numbers(numbers: &[u32], most: usize) -> &[u32]
    ensures { result.now ≡ take (min (length numbers.now) most) numbers.now }
{
    &numbers[..numbers.len().min(most)]
}

// Puts a number at the end of a list `count` times.
#[inline(always)]
pub(crate) fn put_same(numbers: &mut Vec<u32>, number: u32, count: usize) -> Result<(), NoMemory>
    requires few { length numbers.old.items ≤ 100_000_000 }
    requires count { count ≤ 100_000_000 }
    ensures value { OnOk result (numbers.new.items ≡ numbers.old.items ++ replicate count number) }
    ensures err { OnErr result (numbers.new.items ≡ numbers.old.items) }
{
    let end = numbers.len() + count;
    numbers.resize(end, number)?;
    Ok(())
}

// Puts the numbers of a list from an index on once more at its end.
pub(crate) fn put_again(numbers: &mut Vec<u32>, index: usize, count: usize) -> Result<(), NoMemory>
    requires within { index + count ≤ length numbers.old.items }
    requires few { length numbers.old.items ≤ 100_000_000 }
    ensures value { OnOk result (numbers.new.items
        ≡ numbers.old.items ++ take count (drop index numbers.old.items)) }
    ensures err { OnErr result (numbers.new.items ≡ numbers.old.items) }
{
    let end = numbers.len();
    put_same(numbers, 0, count)?;
    copy_on(numbers.as_mut_slice(), index, count, end);
    Ok(())
}

// Copies the numbers from an index on over those from another one on up to the end.
fn copy_on(numbers: &mut [u32], index: usize, count: usize, to: usize)
    requires before { index + count ≤ to }
    requires whole { to + count ≡ length numbers.old }
    ensures { numbers.new ≡ take to numbers.old ++ take count (drop index numbers.old) }
{
    let (front, back) = numbers.split_at_mut(to);
    back.copy_from_slice(&front[index..index + count]);
}
