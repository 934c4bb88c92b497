// Blocks of numbers, which are compared at once.
ghost use Rattle.std.specs.Prelude.{◌≡◌, ◌<◌, ◌≤◌, ℕ, IsTrue, length, get_or, ◌+◌};

/// How many numbers a page has: nine weeks of days, of which 2,319 are 400 years.
pub const PAGE_LENGTH: usize = 63;

// How many numbers are compared at once: half a page, so that two blocks are a page, and a number is in both.
pub(crate) const BLOCK: usize = 32;

// How many numbers are compared at once if fewer than a block are left.
const SMALL_BLOCK: usize = 8;

// How many numbers of one stretch are looked at for 0 in one call.
const COUNTED: usize = 1_024;

// How many of the first numbers are this one; at most `COUNTED` of them are looked at.
#[inline(always)]
pub(crate) fn leading_same(numbers: &[u32], number: u32) -> usize
    ensures few { result ≤ length numbers.now }
    ensures same { (k : ℕ) → k < result → get_or numbers.now k 0 ≡ number }
{
    let end = numbers.len().min(COUNTED);
    let blocks = same_blocks::<BLOCK>(numbers, number, 0, end);
    let small = same_blocks::<SMALL_BLOCK>(numbers, number, blocks, end);
    same_before(numbers, number, small, end)
}

// The end of the whole blocks of this number from an index on, before which all have it, and up to an end.
#[inline(always)]
fn same_blocks<const N: usize>(numbers: &[u32], number: u32, from: usize, end: usize) -> usize
    requires order { from ≤ end }
    requires within { end ≤ length numbers.now }
    requires same { (k : ℕ) → k < from → get_or numbers.now k 0 ≡ number }
    requires some { 0 < N }
    ensures most { result ≤ end }
    ensures same { (k : ℕ) → k < result → get_or numbers.now k 0 ≡ number }
{
    let mut at = from;
    while end - at >= N {
        if !is_block_of::<N>(numbers, at, number) {
            return at;
        }
        at += N;
    }
    at
}

// Whether each number of the block that begins at an index is this one. No index is left out, so that several are compared at once.
#[inline(always)]
pub(crate) fn is_block_of<const N: usize>(numbers: &[u32], from: usize, number: u32) -> bool
    requires { from + N ≤ length numbers.now }
    ensures { IsTrue result → (k : ℕ) → from ≤ k → k < from + N → get_or numbers.now k 0 ≡ number }
{
    let mut all = true;
    for k in 0..N {
        all = (numbers[from + k] == number) & all;
    }
    all
}

// The first index from one on, and before an end, that has another number than this one; the end if there is none.
#[inline(always)]
fn same_before(numbers: &[u32], number: u32, from: usize, end: usize) -> usize
    requires order { from ≤ end }
    requires within { end ≤ length numbers.now }
    requires same { (k : ℕ) → k < from → get_or numbers.now k 0 ≡ number }
    ensures most { result ≤ end }
    ensures same { (k : ℕ) → k < result → get_or numbers.now k 0 ≡ number }
{
    for k in from..end {
        if numbers[k] != number {
            return k;
        }
    }
    end
}

// Whether two pages have the same numbers.
#[inline(always)]
pub(crate) fn are_equal(xs: &[u32], ys: &[u32]) -> bool
    requires xs { length xs.now ≡ 63 }
    requires ys { length ys.now ≡ 63 }
    ensures { IsTrue result → xs.now ≡ ys.now }
{
    is_same_block(xs, ys, 0) && is_same_block(xs, ys, PAGE_LENGTH - BLOCK)
}

// Whether the numbers of the block that begins at an index are the same. No index is left out, so that several are compared at once.
#[inline(always)]
fn is_same_block(xs: &[u32], ys: &[u32], from: usize) -> bool
    requires xs { from + 32 ≤ length xs.now }
    requires ys { from + 32 ≤ length ys.now }
    ensures { IsTrue result → (k : ℕ) → from ≤ k → k < from + 32
        → get_or xs.now k 0 ≡ get_or ys.now k 0 }
{
    let mut all = true;
    for k in 0..BLOCK {
        all = (xs[from + k] == ys[from + k]) & all;
    }
    all
}
