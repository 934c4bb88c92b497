// The pool of distinct pages.
ghost use Rattle.std.specs.Prelude.{◌≡◌, ◌<◌, ◌≤◌, ℕ, IfOk, IfSome, IsTrue, OnErr, OnOk, length, get_or, take, drop, replicate, set, ◌+◌, ◌*◌, ◌-◌};
ghost use Rattle.rr_runs.specs.Pages.{ArePages, IsGrown, IsPageOf, IsZeroPage, page_numbers, row_of_pages};

use crate::blocks::{BLOCK, PAGE_LENGTH, are_equal, is_block_of, leading_same};
use crate::copies::{copy_to_start, rest_from};
use rr_model::NoMemory;

// How many pages are looked at for 0 in one call.
pub(crate) const LOOKED_AT: usize = 64;

// How many pages that were kept last are remembered.
const REMEMBERED: usize = 4_096;

// How many of the first pages of these have 0 alone.
pub(crate) fn zero_pages(pool: &[u32], pages: &[u32]) -> usize
    requires { ArePages pool.now pages.now }
    ensures few { result ≤ length pages.now }
    ensures zeros { (k : ℕ) → k < result → IsZeroPage pool.now (get_or pages.now k 0) }
{
    let mut count = 0;
    while count < pages.len() {
        let page = pages[count];
        if !is_zero_page(pool, page) {
            return count;
        }
        count += 1 + leading_same(rest_from(pages, count + 1), page);
    }
    count
}

// Whether a page of the pool has 0 alone.
#[inline(always)]
fn is_zero_page(pool: &[u32], page: u32) -> bool
    requires { page + 63 ≤ length pool.now }
    ensures { IsTrue result → IsZeroPage pool.now page }
{
    let from = page as usize;
    is_block_of::<BLOCK>(pool, from, 0) && is_block_of::<BLOCK>(pool, from + PAGE_LENGTH - BLOCK, 0)
}

// The numbers of a page of the pool from one of them on.
#[inline(always)]
pub(crate) fn rest_of_page(pool: &[u32], page: usize, from: usize) -> &[u32]
    requires page { page + 63 ≤ length pool.now }
    requires from { from < 63 }
    ensures { result.now ≡ take (63 - from) (drop (page + from) pool.now) }
{
    &pool[page + from..page + PAGE_LENGTH]
}

// A page of the pool that has these numbers: the one that was put last, if that was put twice and has them.
pub(crate) fn page_for(
    pool: &mut Vec<u32>,
    pages: &[u32],
    remembered: &mut Vec<u32>,
    numbers: &[u32],
) -> Result<u32, NoMemory>
    requires { length numbers.now ≡ 63 }
    ensures grown { IsGrown pool.old.items pool.new.items }
    ensures page { IfOk result (IsPageOf pool.new.items numbers.now) }
{
    match last_page(pool.as_slice(), pages, numbers) {
        Some(page) => Ok(page),
        None => page_of(pool, remembered, numbers),
    }
}

// The page that was put last, if it was put twice in a row and has these numbers.
fn last_page(pool: &[u32], pages: &[u32], numbers: &[u32]) -> Option<u32>
    requires { length numbers.now ≡ 63 }
    ensures { IfSome result (IsPageOf pool.now numbers.now) }
{
    match pages {
        [.., before, page] if before == page && is_page(pool, *page as usize, numbers) => {
            Some(*page)
        }
        _ => None,
    }
}

// A page of the pool that has these numbers; if none is known a new one is put at the end of the pool.
fn page_of(pool: &mut Vec<u32>, remembered: &mut Vec<u32>, numbers: &[u32]) -> Result<u32, NoMemory>
    requires { length numbers.now ≡ 63 }
    ensures grown { IsGrown pool.old.items pool.new.items }
    ensures page { IfOk result (IsPageOf pool.new.items numbers.now) }
{
    let index = remembered_index(numbers);
    if let Some(guess) = remembered.get(index) {
        if is_page(pool.as_slice(), *guess as usize, numbers) {
            return Ok(*guess);
        }
    }
    let page = new_page(pool, numbers)?;
    remember(remembered, index, page)?;
    Ok(page)
}

// Puts a number at a place of one page of a list: in a copy of the page, since other pages of the list may be the same one.
pub(crate) fn set_in_page(
    pool: &mut Vec<u32>,
    pages: &mut Vec<u32>,
    remembered: &mut Vec<u32>,
    page: usize,
    place: usize,
    number: u32,
) -> Result<(), NoMemory>
    requires stand { ArePages pool.old.items pages.old.items }
    requires page { page < length pages.old.items }
    requires place { place < 63 }
    ensures grown { IsGrown pool.old.items pool.new.items }
    ensures stand { ArePages pool.new.items pages.new.items }
    ensures many { length pages.new.items ≡ length pages.old.items }
    ensures value { OnOk result (row_of_pages pool.new.items pages.new.items
        ≡ set (row_of_pages pool.old.items pages.old.items) (page * 63 + place) number) }
    ensures err { OnErr result (pages.new.items ≡ pages.old.items) }
{
    let mut block = [0; PAGE_LENGTH];
    copy_with(
        &mut block,
        rest_of_page(pool, pages[page] as usize, 0),
        place,
        number,
    );
    let new = page_of(pool, remembered, &block)?;
    pages[page] = new;
    Ok(())
}

// Copies a page, with this number at a place.
fn copy_with(block: &mut [u32], page: &[u32], place: usize, number: u32)
    requires room { length block.old ≡ 63 }
    requires page { length page.now ≡ 63 }
    requires place { place < 63 }
    ensures { block.new ≡ set page.now place number }
{
    copy_to_start(block, page);
    block[place] = number;
}

// A page of the pool that has this number alone; if none is known a new one is put at the end of the pool.
pub(crate) fn page_of_same(
    pool: &mut Vec<u32>,
    remembered: &mut Vec<u32>,
    number: u32,
) -> Result<u32, NoMemory>
    ensures grown { IsGrown pool.old.items pool.new.items }
    ensures page { IfOk result (IsPageOf pool.new.items (replicate 63 number)) }
{
    if let Some(guess) = remembered.get(index_of_same(number)) {
        if is_page_of_same(pool.as_slice(), *guess as usize, number) {
            return Ok(*guess);
        }
    }
    page_of(pool, remembered, &[number; PAGE_LENGTH])
}

// Whether this is the one number of the page that begins at an index in the pool.
fn is_page_of_same(pool: &[u32], page: usize, number: u32) -> bool
    ensures { IsTrue result → IsPageOf pool.now (replicate 63 number) page }
{
    if pool.len() < PAGE_LENGTH || page > pool.len() - PAGE_LENGTH {
        return false;
    }
    is_block_of::<BLOCK>(pool, page, number)
        && is_block_of::<BLOCK>(pool, page + PAGE_LENGTH - BLOCK, number)
}

// Whether these are the numbers of the page that begins at an index in the pool.
fn is_page(pool: &[u32], page: usize, numbers: &[u32]) -> bool
    requires { length numbers.now ≡ 63 }
    ensures { IsTrue result → IsPageOf pool.now numbers.now page }
{
    if pool.len() < PAGE_LENGTH || page > pool.len() - PAGE_LENGTH {
        return false;
    }
    are_equal(&pool[page..page + PAGE_LENGTH], numbers)
}

// Puts a page at the end of the pool.
fn new_page(pool: &mut Vec<u32>, numbers: &[u32]) -> Result<u32, NoMemory>
    requires { length numbers.now ≡ 63 }
    ensures grown { IsGrown pool.old.items pool.new.items }
    ensures page { IfOk result (IsPageOf pool.new.items numbers.now) }
{
    let page = pool.len();
    if page >= 4_000_000_000 {
        return Err(NoMemory);
    }
    pool.extend_from_slice(numbers)?;
    Ok(page as u32)
}

// Where a page with these numbers is remembered: by the sum of the numbers, each times a weight of its index.
fn remembered_index(numbers: &[u32]) -> usize
    requires { length numbers.now ≡ 63 }
{
    let mut sum: u32 = 0;
    for k in 0..PAGE_LENGTH {
        sum = sum.wrapping_add(numbers[k].wrapping_mul(weight(k as u32)));
    }
    (sum >> 20) as usize
}

// Where a page of one number is remembered.
fn index_of_same(number: u32) -> usize {
    (number.wrapping_mul(sum_of_weights()) >> 20) as usize
}

// The sum of the weights of all indices.
#[inline(always)]
fn sum_of_weights() -> u32 {
    let mut sum: u32 = 0;
    for k in 0..PAGE_LENGTH {
        sum = sum.wrapping_add(weight(k as u32));
    }
    sum
}

// A weight for each index of a page.
#[inline(always)]
fn weight(index: u32) -> u32 {
    let number = index.wrapping_add(1);
    number.wrapping_mul(0x9e37_79b1) ^ number.wrapping_mul(number).wrapping_mul(0x85eb_ca6b)
}

// Remembers a page.
fn remember(remembered: &mut Vec<u32>, index: usize, page: u32) -> Result<(), NoMemory> {
    if remembered.is_empty() {
        remembered.resize(REMEMBERED, 0)?;
    }
    if index < remembered.len() {
        remembered[index] = page;
    }
    Ok(())
}
