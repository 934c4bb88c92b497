// A list of numbers, kept as they are or in pages.
ghost use Rattle.std.specs.Prelude.{◌≡◌, ◌<◌, ◌≤◌, ◌∷◌, ◌++◌, [], IfOk, OnErr, OnOk, length, get_or, take, drop, replicate, set, ◌+◌, ◌*◌};
ghost use Rattle.rr_runs.specs.Pages.{IsPiece, IsZeroFrom, PutsSome};

use crate::blocks::{PAGE_LENGTH, leading_same};
use crate::copies::{copy_to_start, first_numbers, put_again, put_same, rest_from};
use crate::pool::{LOOKED_AT, rest_of_page, set_in_page, zero_pages};
use crate::room::{OPEN, has_room, make_room, put_pages_of, room_left};
use rr_model::NoMemory;
use std::alloc::Global;
use std::marker::Model;

/// A list of numbers of days in a row.
///
/// Up to 200,025 numbers are kept as they are, four bytes each. A longer list is kept in pages of 63 numbers, four bytes a page, of
/// which equal ones are kept once. Contracts see it as the list.
#[derive(Drop)]
pub struct Pages {
    // The numbers of the distinct pages, one after another.
    pool: Vec<u32>,
    // The pages of the list, each by its index in the pool.
    pages: Vec<u32>,
    // The numbers after the last page.
    rest: Vec<u32>,
    // Pages of the pool by a sum of their numbers, for a guess which one a new page is.
    remembered: Vec<u32>,
}

impl Model for Pages {
    ghost use Rattle.std.specs.Prelude.{ℕ, List, ◌++◌};
    ghost use Rattle.rr_runs.specs.Pages.{IsPaged, row_of_pages};

    ghost Value = { List ℕ };

    ghost view = { λ p. row_of_pages p.pool.items p.pages.items ++ p.rest.items };

    ghost invariant = { λ p. IsPaged p.pool.items p.pages.items p.rest.items };
}

impl Pages {
    /// An empty list, kept as it is until it has 200,025 numbers; it takes no memory.
    pub fn new(alloc: Global) -> Self
        ensures { result ≡ [] }
    {
        Pages {
            pool: Vec::new(alloc),
            pages: Vec::new(alloc),
            rest: Vec::new(alloc),
            remembered: Vec::new(alloc),
        }
    }

    /// How many numbers the list has, in pages and after them.
    #[inline(always)]
    pub fn len(&self) -> usize
        ensures value { result ≡ length self.now }
        ensures few { result ≤ 6_300_000_063 }
    {
        self.pages.len() * PAGE_LENGTH + self.rest.len()
    }

    /// Makes room for `count` more numbers, as far as these are kept as they are; the list stays as it is, after `NoMemory` too. It only
    /// saves time.
    pub fn reserve(&mut self, count: usize) -> Result<(), NoMemory>
        ensures { self.new ≡ self.old }
    {
        if self.pages.is_empty() {
            let room = room_left(&self.pages, &self.rest);
            self.rest.reserve_exact(count.min(room))?;
        }
        Ok(())
    }

    /// Puts a number at the end, which may make pages of the numbers before it. `NoMemory` also beyond 100,000,000 pages.
    #[inline(always)]
    pub fn push(&mut self, number: u32) -> Result<(), NoMemory>
        ensures ok { OnOk result (self.new ≡ self.old ++ number ∷ []) }
        ensures err { OnErr result (self.new ≡ self.old) }
    {
        make_room(
            &mut self.pool,
            &mut self.pages,
            &mut self.rest,
            &mut self.remembered,
        )?;
        self.rest.push(number)?;
        Ok(())
    }

    /// Puts numbers at the end, one after another. After `NoMemory` some of the first may be there.
    pub fn push_all(&mut self, numbers: &[u32]) -> Result<(), NoMemory>
        ensures { OnOk result (self.new ≡ self.old ++ numbers.now) }
    {
        let mut left = numbers;
        while !left.is_empty() {
            let count = self.push_some(left)?;
            left = rest_from(left, count);
        }
        Ok(())
    }

    /// Puts `count` equal numbers at the end. A whole page of them costs four bytes once there are pages. After `NoMemory` some of them
    /// may be there.
    #[inline(always)]
    pub fn push_same(&mut self, number: u32, count: usize) -> Result<(), NoMemory>
        ensures { OnOk result (self.new ≡ self.old ++ replicate count number) }
    {
        if count > room_left(&self.pages, &self.rest) {
            return self.push_many_same(number, count);
        }
        put_same(&mut self.rest, number, count)
    }

    /// Puts the `count` numbers from an index on once more at the end. Once there are pages, a whole page costs four bytes
    /// if the index is a multiple of 63 below the length. After `NoMemory` some of them may be there.
    pub fn push_again(&mut self, index: usize, count: usize) -> Result<(), NoMemory>
        requires { index + count ≤ length self.old }
        ensures { OnOk result (self.new ≡ self.old ++ take count (drop index self.old)) }
    {
        let _bounded = self.len();
        let mut done = 0;
        while done < count {
            let more = self.push_some_again(index + done, count - done)?;
            done += more;
        }
        Ok(())
    }

    /// Puts the `count` numbers of another list from an index on at the end. A whole page of zeros costs four bytes. After `NoMemory`
    /// some of them may be there.
    pub fn push_from(&mut self, other: &Pages, index: usize, count: usize) -> Result<(), NoMemory>
        requires { index + count ≤ length other.now }
        ensures { OnOk result (self.new ≡ self.old ++ take count (drop index other.now)) }
    {
        let _bounded = other.len();
        let mut done = 0;
        while done < count {
            let more = self.push_some_of(other, index + done, count - done)?;
            done += more;
        }
        Ok(())
    }

    /// Puts a number in the place of the one at an index. Once there are pages, it is put into a copy of its page, and a page more
    /// is kept if no known one has these numbers.
    pub fn set(&mut self, index: usize, number: u32) -> Result<(), NoMemory>
        requires { index < length self.old }
        ensures ok { OnOk result (self.new ≡ set self.old index number) }
        ensures err { OnErr result (self.new ≡ self.old) }
    {
        let paged = self.pages.len() * PAGE_LENGTH;
        if index >= paged {
            self.rest[index - paged] = number;
            return Ok(());
        }
        set_in_page(
            &mut self.pool,
            &mut self.pages,
            &mut self.remembered,
            index / PAGE_LENGTH,
            index % PAGE_LENGTH,
            number,
        )?;
        Ok(())
    }

    // Puts as many of the numbers at the end as there is room for after the last page, one at least.
    fn push_some(&mut self, numbers: &[u32]) -> Result<usize, NoMemory>
        requires { 0 < length numbers.now }
        ensures { IfOk result (PutsSome self.old self.new (length numbers.now) numbers.now) }
    {
        make_room(
            &mut self.pool,
            &mut self.pages,
            &mut self.rest,
            &mut self.remembered,
        )?;
        let count = room_left(&self.pages, &self.rest).min(numbers.len());
        self.rest.extend_from_slice(&numbers[..count])?;
        Ok(count)
    }

    // Puts `count` equal numbers at the end, for which there may be no room after the last page.
    fn push_many_same(&mut self, number: u32, count: usize) -> Result<(), NoMemory>
        ensures { OnOk result (self.new ≡ self.old ++ replicate count number) }
    {
        let mut done = 0;
        while done < count {
            let more = self.push_some_same(number, count - done)?;
            done += more;
        }
        Ok(())
    }

    // Puts some of `most` equal numbers at the end, one at least: all of them if whole pages may follow the last page.
    fn push_some_same(&mut self, number: u32, most: usize) -> Result<usize, NoMemory>
        requires { 1 ≤ most }
        ensures { IfOk result (λ count. (1 ≤ count) × (count ≤ most)
            × (self.new ≡ self.old ++ replicate count number)) }
    {
        make_room(
            &mut self.pool,
            &mut self.pages,
            &mut self.rest,
            &mut self.remembered,
        )?;
        let pages = most / PAGE_LENGTH;
        if pages == 0 || self.pages.is_empty() || !self.rest.is_empty() {
            let count = room_left(&self.pages, &self.rest).min(most);
            put_same(&mut self.rest, number, count)?;
            return Ok(count);
        }
        put_pages_of(
            &mut self.pool,
            &mut self.pages,
            &mut self.remembered,
            number,
            pages,
        )?;
        put_same(&mut self.rest, number, most % PAGE_LENGTH)?;
        Ok(most)
    }

    // Puts some of the `most` numbers from an index on once more at the end, one at least: as many as are kept as they are, or
    // whole pages if both are aligned.
    fn push_some_again(&mut self, index: usize, most: usize) -> Result<usize, NoMemory>
        requires some { 1 ≤ most }
        requires within { index + most ≤ length self.old }
        ensures { IfOk result (PutsSome self.old self.new most (drop index self.old)) }
    {
        if self.pages.is_empty() && self.rest.len() < OPEN {
            let count = (OPEN - self.rest.len()).min(most);
            put_again(&mut self.rest, index, count)?;
            return Ok(count);
        }
        let pages = self.push_pages_again(index, most)?;
        if pages > 0 {
            return Ok(pages * PAGE_LENGTH);
        }
        self.push_block_again(index, most)
    }

    // Puts the numbers of a block from an index on once more at the end, one at least.
    fn push_block_again(&mut self, index: usize, most: usize) -> Result<usize, NoMemory>
        requires some { 1 ≤ most }
        requires within { index + most ≤ length self.old }
        ensures { IfOk result (PutsSome self.old self.new most (drop index self.old)) }
    {
        let mut block = [0; PAGE_LENGTH];
        let count = self.read_into(&mut block, index, most);
        let put = self.push_some(first_numbers(&block, count))?;
        Ok(put)
    }

    // Puts some of the `most` numbers of another list from an index on at the end, one at least: the zeros that begin there if
    // they fill a page.
    fn push_some_of(&mut self, other: &Pages, index: usize, most: usize) -> Result<usize, NoMemory>
        requires some { 1 ≤ most }
        requires within { index + most ≤ length other.now }
        ensures { IfOk result (PutsSome self.old self.new most (drop index other.now)) }
    {
        if other.pages.is_empty() {
            return self.push_piece_of(other, index, most);
        }
        let zeros = other.zeros_from(index).min(most);
        if zeros < PAGE_LENGTH {
            return self.push_piece_of(other, index, most);
        }
        self.push_same(0, zeros)?;
        Ok(zeros)
    }

    // Puts some of the `most` numbers of another list from an index on at the end, one at least.
    fn push_piece_of(&mut self, other: &Pages, index: usize, most: usize) -> Result<usize, NoMemory>
        requires some { 1 ≤ most }
        requires within { index + most ≤ length other.now }
        ensures { IfOk result (PutsSome self.old self.new most (drop index other.now)) }
    {
        let piece = other.piece_within(index, most);
        self.push_all(piece)?;
        Ok(piece.len())
    }

    // Puts the pages that begin at an index once more at the end, as many as have at most `most` numbers, and tells how many; 0
    // if no page begins there, or none may begin at the end.
    fn push_pages_again(&mut self, index: usize, most: usize) -> Result<usize, NoMemory>
        requires { index + most ≤ length self.old }
        ensures { IfOk result (λ pages. (pages * 63 ≤ most)
            × (self.new ≡ self.old ++ take (pages * 63) (drop index self.old))) }
    {
        make_room(
            &mut self.pool,
            &mut self.pages,
            &mut self.rest,
            &mut self.remembered,
        )?;
        let count = most / PAGE_LENGTH;
        if index % PAGE_LENGTH != 0 || !has_room(&self.pages, &self.rest, count) {
            return Ok(0);
        }
        put_again(&mut self.pages, index / PAGE_LENGTH, count)?;
        Ok(count)
    }

    // Copies some numbers from an index on to the start of a block, one at least and at most `most`, and tells how many.
    fn read_into(&self, block: &mut [u32], index: usize, most: usize) -> usize
        requires some { 1 ≤ most }
        requires within { index + most ≤ length self.now }
        requires room { length block.old ≡ 63 }
        ensures some { 1 ≤ result }
        ensures most { result ≤ most }
        ensures few { result ≤ 63 }
        ensures room { length block.new ≡ 63 }
        ensures value { take result block.new ≡ take result (drop index self.now) }
    {
        let piece = self.piece_within(index, most.min(PAGE_LENGTH));
        copy_to_start(block, piece);
        piece.len()
    }

    // The numbers from an index on, as far as they are kept in a row, at most `most`.
    fn piece_within(&self, index: usize, most: usize) -> &[u32]
        requires some { 1 ≤ most }
        requires within { index + most ≤ length self.now }
        ensures some { 1 ≤ length result.now }
        ensures most { length result.now ≤ most }
        ensures value { result.now ≡ take (length result.now) (drop index self.now) }
    {
        first_numbers(self.piece(index), most)
    }

    /// The number at an index, counted from 0.
    #[inline(always)]
    pub fn number_at(&self, index: usize) -> u32
        requires { index < length self.now }
        ensures { result ≡ get_or self.now index 0 }
    {
        self.piece(index)[0]
    }

    /// The numbers from an index on, as far as they are kept in a row: up to the end of its page, or of the list after the last page.
    #[inline(always)]
    pub fn piece(&self, index: usize) -> &[u32]
        requires { index < length self.now }
        ensures { IsPiece self.now index result.now }
    {
        let paged = self.pages.len() * PAGE_LENGTH;
        if index >= paged {
            return rest_from(&self.rest, index - paged);
        }
        let page = index / PAGE_LENGTH;
        rest_of_page(&self.pool, self.pages[page] as usize, index % PAGE_LENGTH)
    }

    /// How many numbers from an index on are surely 0: 0 if the number itself is not. All up to the first other number are
    /// counted, but for what follows after some 1,000.
    #[inline(always)]
    pub fn zeros_from(&self, index: usize) -> usize
        requires { index < length self.now }
        ensures { IsZeroFrom self.now index result }
    {
        if self.number_at(index) != 0 {
            return 0;
        }
        self.count_zeros(index)
    }

    // How many numbers from an index on are 0, as far as these are looked at.
    fn count_zeros(&self, index: usize) -> usize
        requires { index < length self.now }
        ensures { IsZeroFrom self.now index result }
    {
        let end = self.len();
        let here = self.zeros_in_piece(index);
        let next = index + here;
        let pages = self.zero_pages_from(next) * PAGE_LENGTH;
        if pages == 0 || next + pages >= end {
            return here + pages;
        }
        here + pages + self.zeros_in_piece(next + pages)
    }

    // How many numbers from an index on are 0, as far as they are kept in a row.
    fn zeros_in_piece(&self, index: usize) -> usize
        requires { index < length self.now }
        ensures { IsZeroFrom self.now index result }
    {
        leading_same(self.piece(index), 0)
    }

    // How many pages from an index on have 0 alone, as far as these are looked at.
    fn zero_pages_from(&self, index: usize) -> usize
        requires { index ≤ length self.now }
        ensures { IsZeroFrom self.now index (result * 63) }
    {
        let page = index / PAGE_LENGTH;
        if index % PAGE_LENGTH != 0 || page >= self.pages.len() {
            return 0;
        }
        zero_pages(
            self.pool.as_slice(),
            first_numbers(rest_from(&self.pages, page), LOOKED_AT),
        )
    }
}
