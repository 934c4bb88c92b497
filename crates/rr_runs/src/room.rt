// Room for numbers after the last page: if there is none, these become pages.
ghost use Rattle.std.specs.Prelude.{◌≡◌, ◌≤◌, ◌++◌, [], IsTrue, OnErr, OnOk, length, replicate, ◌+◌, ◌*◌, ◌/◌, ◌%◌};
ghost use Rattle.rr_runs.specs.Pages.{ArePages, HasRoom, IsGrown, IsPaged, kept_list, row_of_pages};

use crate::blocks::PAGE_LENGTH;
use crate::copies::{first_numbers, put_same, rest_from};
use crate::pool::{page_for, page_of_same};
use rr_model::NoMemory;

// How many numbers are kept as they are before the first page is made: 3,175 pages.
pub(crate) const OPEN: usize = 200_025;

// How many pages there can be.
const MOST_PAGES: usize = 100_000_000;

// Whether `count` pages may be put after the pages that there are.
pub(crate) fn has_room(pages: &Vec<u32>, rest: &Vec<u32>, count: usize) -> bool
    requires { length pages.now.items ≤ 100_000_000 }
    ensures { IsTrue result → (rest.now.items ≡ [])
        × (length pages.now.items + count ≤ 100_000_000) }
{
    rest.is_empty() && count <= MOST_PAGES - pages.len()
}

// How many numbers there is room for after the last page.
#[inline(always)]
pub(crate) fn room_left(pages: &Vec<u32>, rest: &Vec<u32>) -> usize
    requires { HasRoom pages.now.items rest.now.items 0 }
    ensures room { HasRoom pages.now.items rest.now.items result }
    ensures all { HasRoom pages.now.items rest.now.items (result + 1) → ⊥ }
{
    if pages.is_empty() {
        OPEN - rest.len()
    } else {
        PAGE_LENGTH - rest.len()
    }
}

// Sees to it that there is room for a number after the last page.
#[inline(always)]
pub(crate) fn make_room(
    pool: &mut Vec<u32>,
    pages: &mut Vec<u32>,
    rest: &mut Vec<u32>,
    remembered: &mut Vec<u32>,
) -> Result<(), NoMemory>
    requires { IsPaged pool.old.items pages.old.items rest.old.items }
    ensures paged { IsPaged pool.new.items pages.new.items rest.new.items }
    ensures same { kept_list pool.new.items pages.new.items rest.new.items
        ≡ kept_list pool.old.items pages.old.items rest.old.items }
    ensures room { OnOk result (HasRoom pages.new.items rest.new.items 1) }
{
    if room_left(pages, rest) > 0 {
        return Ok(());
    }
    close(pool, pages, rest, remembered)?;
    Ok(())
}

// Makes pages of the numbers after the last page.
fn close(
    pool: &mut Vec<u32>,
    pages: &mut Vec<u32>,
    rest: &mut Vec<u32>,
    remembered: &mut Vec<u32>,
) -> Result<(), NoMemory>
    requires paged { IsPaged pool.old.items pages.old.items rest.old.items }
    requires whole { length rest.old.items % 63 ≡ 0 }
    ensures paged { IsPaged pool.new.items pages.new.items rest.new.items }
    ensures same { kept_list pool.new.items pages.new.items rest.new.items
        ≡ kept_list pool.old.items pages.old.items rest.old.items }
    ensures none { OnOk result (rest.new.items ≡ []) }
{
    if rest.len() == PAGE_LENGTH {
        return close_page(pool, pages, rest, remembered);
    }
    let before = pages.len();
    if before + rest.len() / PAGE_LENGTH > MOST_PAGES {
        return Err(NoMemory);
    }
    match put_pages(pool, pages, remembered, rest.as_slice()) {
        Ok(()) => {
            let_go(rest);
            Ok(())
        }
        Err(fault) => {
            pages.truncate(before);
            Err(fault)
        }
    }
}

// Makes a page of the numbers after the last page, which fill one.
#[inline(always)]
fn close_page(
    pool: &mut Vec<u32>,
    pages: &mut Vec<u32>,
    rest: &mut Vec<u32>,
    remembered: &mut Vec<u32>,
) -> Result<(), NoMemory>
    requires paged { IsPaged pool.old.items pages.old.items rest.old.items }
    requires page { length rest.old.items ≡ 63 }
    ensures paged { IsPaged pool.new.items pages.new.items rest.new.items }
    ensures same { kept_list pool.new.items pages.new.items rest.new.items
        ≡ kept_list pool.old.items pages.old.items rest.old.items }
    ensures none { OnOk result (rest.new.items ≡ []) }
{
    if pages.len() >= MOST_PAGES {
        return Err(NoMemory);
    }
    put_page(pool, pages, remembered, rest.as_slice())?;
    rest.clear();
    Ok(())
}

// Takes all numbers away, and their room if it is more than a page needs.
fn let_go(rest: &mut Vec<u32>)
    ensures { rest.new.items ≡ [] }
{
    let many = rest.len() > PAGE_LENGTH;
    rest.clear();
    if many {
        rest.shrink_to_fit();
    }
}

// Puts numbers at the end as pages.
fn put_pages(
    pool: &mut Vec<u32>,
    pages: &mut Vec<u32>,
    remembered: &mut Vec<u32>,
    numbers: &[u32],
) -> Result<(), NoMemory>
    requires stand { ArePages pool.old.items pages.old.items }
    requires whole { length numbers.now % 63 ≡ 0 }
    ensures grown { IsGrown pool.old.items pool.new.items }
    ensures more { IsGrown pages.old.items pages.new.items }
    ensures stand { ArePages pool.new.items pages.new.items }
    ensures value { OnOk result (row_of_pages pool.new.items pages.new.items
        ≡ row_of_pages pool.old.items pages.old.items ++ numbers.now) }
    ensures many { OnOk result (length pages.new.items
        ≡ length pages.old.items + length numbers.now / 63) }
{
    let mut left = numbers;
    while left.len() >= PAGE_LENGTH {
        put_page(pool, pages, remembered, first_numbers(left, PAGE_LENGTH))?;
        left = rest_from(left, PAGE_LENGTH);
    }
    Ok(())
}

// Puts a page of these numbers at the end.
fn put_page(
    pool: &mut Vec<u32>,
    pages: &mut Vec<u32>,
    remembered: &mut Vec<u32>,
    numbers: &[u32],
) -> Result<(), NoMemory>
    requires stand { ArePages pool.old.items pages.old.items }
    requires page { length numbers.now ≡ 63 }
    ensures grown { IsGrown pool.old.items pool.new.items }
    ensures more { IsGrown pages.old.items pages.new.items }
    ensures stand { ArePages pool.new.items pages.new.items }
    ensures value { OnOk result (row_of_pages pool.new.items pages.new.items
        ≡ row_of_pages pool.old.items pages.old.items ++ numbers.now) }
    ensures many { OnOk result (length pages.new.items ≡ length pages.old.items + 1) }
    ensures err { OnErr result (pages.new.items ≡ pages.old.items) }
{
    let page = page_for(pool, pages.as_slice(), remembered, numbers)?;
    pages.push(page)?;
    Ok(())
}

// Puts a page of one number at the end `count` times.
pub(crate) fn put_pages_of(
    pool: &mut Vec<u32>,
    pages: &mut Vec<u32>,
    remembered: &mut Vec<u32>,
    number: u32,
    count: usize,
) -> Result<(), NoMemory>
    requires stand { ArePages pool.old.items pages.old.items }
    requires few { length pages.old.items ≤ 100_000_000 }
    ensures grown { IsGrown pool.old.items pool.new.items }
    ensures stand { ArePages pool.new.items pages.new.items }
    ensures few { length pages.new.items ≤ 100_000_000 }
    ensures some { length pages.old.items ≤ length pages.new.items }
    ensures value { OnOk result (row_of_pages pool.new.items pages.new.items
        ≡ row_of_pages pool.old.items pages.old.items ++ replicate (count * 63) number) }
{
    if count > MOST_PAGES - pages.len() {
        return Err(NoMemory);
    }
    let page = page_of_same(pool, remembered, number)?;
    put_same(pages, page, count)?;
    Ok(())
}
