// The days of a set in a row.
use rr_model::NoMemory;
use std::alloc::Global;

// The days that a byte keeps.
const DAYS_OF_BYTE: u32 = 8;

/// Days in a row, each in the set or not. It takes a bit for each.
#[derive(Drop)]
pub(crate) struct Row {
    bytes: Vec<u8>,
    len: u32,
}

impl Row {
    /// A row of days with none in it.
    pub(crate) fn new(alloc: Global) -> Row {
        Row {
            bytes: Vec::new(alloc),
            len: 0,
        }
    }

    /// Puts a day at the end, which is in the set or not.
    pub(crate) fn put(&mut self, has: bool) -> Result<(), NoMemory> {
        if self.len % DAYS_OF_BYTE == 0 {
            self.bytes.push(0)?;
        }
        let index = self.len;
        self.len = self.len.saturating_add(1);
        if has {
            self.set(index);
        }
        Ok(())
    }

    // The day of an index is in the set.
    fn set(&mut self, index: u32) {
        let place = place_of(index);
        if place < self.bytes.len() {
            self.bytes[place] = self.bytes[place] | bit_of(index);
        }
    }

    /// Keeps the first `len` days alone.
    pub(crate) fn keep(&mut self, len: u32) {
        self.len = self.len.min(len);
    }

    /// How many days they are.
    pub(crate) fn len(&self) -> u32 {
        self.len
    }

    /// Whether the day of an index is in the set.
    pub(crate) fn has(&self, index: u32) -> bool {
        match self.bytes.get(place_of(index)) {
            Some(byte) => index < self.len && *byte & bit_of(index) != 0,
            None => false,
        }
    }

    /// The day of an index is not in the set any more.
    pub(crate) fn take(&mut self, index: u32) {
        let place = place_of(index);
        if place < self.bytes.len() {
            let byte = self.bytes[place];
            self.bytes[place] = byte ^ (byte & bit_of(index));
        }
    }

    /// The index of the first day in the set, from an index on.
    pub(crate) fn next_from(&self, from: u32) -> Option<u32> {
        for index in from..self.len {
            if self.has(index) {
                return Some(index);
            }
        }
        None
    }
}

// The place of the byte that keeps the day of an index.
fn place_of(index: u32) -> usize {
    (index / DAYS_OF_BYTE) as usize
}

// The bit of the day of an index in its byte.
fn bit_of(index: u32) -> u8 {
    match index % DAYS_OF_BYTE {
        0 => 1,
        1 => 2,
        2 => 4,
        3 => 8,
        4 => 16,
        5 => 32,
        6 => 64,
        _ => 128,
    }
}
