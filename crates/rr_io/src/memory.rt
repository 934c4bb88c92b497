// A source and a sink in memory whose failures are listed.
ghost use Rattle.std.specs.Prelude.{◌≡◌, ◌^◌, ◌<◌, ◌≤◌, ◌++◌, [], ◌∷◌, Some, OnOk, OnErr};
ghost use Rattle.rr_io.specs.Names.{bytes_at, Sets};
ghost use Rattle.rr_io.specs.Outside.{IsFrontIfTold, KeepsHeld, IsPut};
ghost use Rattle.rr_io.specs.Memory.{FailsExactly, IsNextToFail, IsPutCounted, PutsAs, fetches_after, first_of, next_first};

use crate::names::{Names, front};
use crate::text::whole;
use crate::{FetchError, PutError, Sink, Source, Text};
use rr_model::{MAX_INPUT, NoMemory};
use std::alloc::Global;
use std::marker::Model;

/// Names with bytes, and the numbers of the fetches that are to fail. A name that is not there fails too.
///
/// Fetches are numbered from 1, those that end with `NoMemory` among them, and the number stays at the last value of a `u64`.
#[derive(Drop)]
pub struct MemorySource {
    alloc: Global,
    names: Names,
    failing: Vec<u64>,
    fetches: u64,
    failed: Vec<String>,
}

impl Model for MemorySource {
    ghost use Rattle.std.specs.Prelude.{map, string_bytes};
    ghost use Rattle.rr_io.specs.Memory.{Fetches};

    ghost Value = { Fetches };

    ghost view = { λ s. record {
      names = s.names;
      failing = s.failing.items;
      fetches = s.fetches;
      failed = map string_bytes s.failed.items;
    } };
}

/// Bytes, and which puts are to fail after how many bytes.
///
/// Puts are numbered from 1, those that end with `NoMemory` among them, and the number stays at the last value of a `u64`.
#[derive(Drop)]
pub struct MemorySink {
    bytes: Vec<u8>,
    failing: Vec<(u64, usize)>,
    puts: u64,
    faults: u64,
}

impl Model for MemorySink {
    ghost use Rattle.rr_io.specs.Memory.{Puts};

    ghost Value = { Puts };

    ghost view = { λ s. record {
      bytes = s.bytes.items;
      failing = s.failing.items;
      puts = s.puts;
      faults = s.faults;
    } };
}

impl MemorySource {
    /// No names and no listed failures.
    pub fn new(alloc: Global) -> Self
        ensures { result ≡ record { names = []; failing = []; fetches = 0; failed = [] } }
    {
        MemorySource {
            alloc,
            names: Names::new(alloc),
            failing: Vec::new(alloc),
            fetches: 0,
            failed: Vec::new(alloc),
        }
    }

    /// Puts these bytes under the name, in place of those that it had. Every other name keeps its own.
    pub fn hold(&mut self, name: &str, bytes: &[u8]) -> Result<(), NoMemory>
        ensures ok { OnOk result (Sets self.old.names self.new.names name.now bytes.now) }
        ensures rest { self.new ≡ record self.old { names = self.new.names } }
        ensures err { OnErr result (self.new ≡ self.old) }
    {
        self.names.hold(name, bytes)
    }

    /// Lets the fetch of this number fail. The first fetch has number 1.
    pub fn fail(&mut self, fetch: u64) -> Result<(), NoMemory>
        ensures ok { OnOk result
            (self.new ≡ record self.old { failing = self.old.failing ++ fetch ∷ [] }) }
        ensures err { OnErr result (self.new ≡ self.old) }
    {
        self.failing.push(fetch)?;
        Ok(())
    }

    // Notes that a fetch of this name failed.
    fn note(&mut self, name: &str) -> Result<(), NoMemory>
        ensures ok { OnOk result
            (self.new ≡ record self.old { failed = self.old.failed ++ name.now ∷ [] }) }
        ensures err { OnErr result (self.new ≡ self.old) }
    {
        let noted = String::from_str(self.alloc, name)?;
        self.failed.push(noted)?;
        Ok(())
    }
}

impl Source for MemorySource {
    ghost use Rattle.rr_io.specs.Names.{bytes_at};

    ghost held = { λ s. bytes_at s.names };

    ghost failed = { λ s. s.failed };

    fn fetch(&mut self, alloc: Global, name: &str) -> Result<Vec<u8>, FetchError>
        ensures bytes { IsFrontIfTold MAX_INPUT (bytes_at self.old.names name.now) result }
        ensures fails { FailsExactly result (IsNextToFail self.old name.now) }
        ensures rest { self.new ≡ fetches_after result name.now self.old }
    {
        self.fetch_within(alloc, name, MAX_INPUT)
    }

    fn fetch_within(
        &mut self,
        alloc: Global,
        name: &str,
        limit: usize,
    ) -> Result<Vec<u8>, FetchError>
        requires { limit < 2 ^ 62 }
        ensures bytes { IsFrontIfTold limit (bytes_at self.old.names name.now) result }
        ensures fails { FailsExactly result (IsNextToFail self.old name.now) }
        ensures rest { self.new ≡ fetches_after result name.now self.old }
    {
        self.fetches = self.fetches.saturating_add(1);
        if self.failing.contains(&self.fetches) {
            self.note(name)?;
            return Err(FetchError::Failed);
        }
        let Some(bytes) = self.names.get(name) else {
            self.note(name)?;
            return Err(FetchError::Failed);
        };
        Ok(front(alloc, bytes, limit)?)
    }
}

// How many bytes the put of this number appends before it fails, if it is to fail.
fn first_of(failing: &[(u64, usize)], put: u64) -> Option<usize>
    ensures { result ≡ first_of failing.now put }
{
    for &(number, first) in failing {
        if number == put {
            return Some(first);
        }
    }
    None
}

impl MemorySink {
    /// No bytes and no listed failures.
    pub fn new(alloc: Global) -> Self
        ensures { result ≡ record { bytes = []; failing = []; puts = 0; faults = 0 } }
    {
        MemorySink {
            bytes: Vec::new(alloc),
            failing: Vec::new(alloc),
            puts: 0,
            faults: 0,
        }
    }

    /// Lets the put of this number fail once it has appended its first bytes, as many as `first`, or all if it has fewer.
    ///
    /// The first put has number 1. If one put is listed twice, the earlier entry counts.
    pub fn fail(&mut self, put: u64, first: usize) -> Result<(), NoMemory>
        ensures ok { OnOk result
            (self.new ≡ record self.old { failing = self.old.failing ++ (put, first) ∷ [] }) }
        ensures err { OnErr result (self.new ≡ self.old) }
    {
        self.failing.push((put, first))?;
        Ok(())
    }

    /// All the bytes that were appended.
    pub fn bytes(&self) -> &[u8]
        ensures { result.now ≡ self.now.bytes }
    {
        &self.bytes
    }
}

impl Sink for MemorySink {
    ghost use Rattle.std.specs.Prelude.{Some};

    ghost written = { λ s. Some s.bytes };

    ghost faults = { λ s. s.faults };

    fn put(&mut self, bytes: &[u8]) -> Result<(), PutError>
        ensures puts { PutsAs (next_first self.old) result bytes.now self.old.bytes self.new.bytes }
        ensures never_falls { self.old.faults ≤ self.new.faults }
        ensures rest { IsPutCounted result self.old self.new }
    {
        self.puts = self.puts.saturating_add(1);
        match first_of(&self.failing, self.puts) {
            None => {
                self.bytes.extend_from_slice(bytes)?;
                Ok(())
            }
            Some(first) => {
                self.bytes
                    .extend_from_slice(&bytes[..first.min(bytes.len())])?;
                self.faults = self.faults.saturating_add(1);
                Err(PutError::Failed)
            }
        }
    }

    fn put_text<T: Text>(&mut self, alloc: Global, text: &T) -> Result<(), PutError>
        ensures puts { PutsAs (next_first self.old) result (T.bytes text.now)
            self.old.bytes self.new.bytes }
        ensures never_falls { self.old.faults ≤ self.new.faults }
        ensures rest { IsPutCounted result self.old self.new }
    {
        match whole(alloc, text) {
            Ok(bytes) => self.put(bytes.as_slice()),
            Err(NoMemory) => {
                self.puts = self.puts.saturating_add(1);
                Err(PutError::NoMemory)
            }
        }
    }
}
