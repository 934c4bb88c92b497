// A source and a sink in memory that never fail.
ghost use Rattle.std.specs.Prelude.{◌≡◌, ◌^◌, ◌<◌, ◌++◌, [], Some, OnOk, OnErr, IsErrOf};
ghost use Rattle.rr_io.specs.Names.{bytes_or_none, Sets};
ghost use Rattle.rr_io.specs.Outside.{IsFrontOf, IsPut};

use crate::names::{Names, front};
use crate::text::whole;
use crate::{FetchError, PutError, Sink, Source, Text};
use rr_model::{MAX_INPUT, NoMemory};
use std::alloc::Global;
use std::marker::Model;

/// Names with bytes, of which no fetch fails. A name that is not there has no bytes.
#[derive(Drop)]
pub struct SteadySource {
    names: Names,
}

impl Model for SteadySource {
    ghost use Rattle.std.specs.Prelude.{ℕ, List};

    ghost Value = { List (List ℕ × List ℕ) };

    ghost view = { λ s. s.names };
}

/// Bytes, to which no put fails.
#[derive(Drop)]
pub struct SteadySink {
    bytes: Vec<u8>,
}

impl Model for SteadySink {
    ghost use Rattle.std.specs.Prelude.{ℕ, List};

    ghost Value = { List ℕ };

    ghost view = { λ s. s.bytes.items };
}

impl SteadySource {
    /// A source to which no name was added yet: each name has no bytes. It takes no memory.
    pub fn new(alloc: Global) -> Self
        ensures { result ≡ [] }
    {
        SteadySource {
            names: Names::new(alloc),
        }
    }

    /// Puts these bytes under the name, in place of those that it had. Every other name keeps its own.
    pub fn hold(&mut self, name: &str, bytes: &[u8]) -> Result<(), NoMemory>
        ensures ok { OnOk result (Sets self.old self.new name.now bytes.now) }
        ensures err { OnErr result (self.new ≡ self.old) }
    {
        self.names.hold(name, bytes)
    }
}

impl Source for SteadySource {
    ghost use Rattle.std.specs.Prelude.{[], Some};
    ghost use Rattle.rr_io.specs.Names.{bytes_or_none};

    ghost held = { λ s name. Some (bytes_or_none s name) };

    ghost failed = { λ _. [] };

    fn fetch(&mut self, alloc: Global, name: &str) -> Result<Vec<u8>, FetchError>
        ensures bytes { IsFrontOf MAX_INPUT (bytes_or_none self.old name.now) result }
        ensures steady { IsErrOf result FetchError.Failed → ⊥ }
        ensures same { self.new ≡ self.old }
    {
        self.fetch_within(alloc, name, MAX_INPUT)
    }

    fn fetch_within(
        &mut self,
        alloc: Global,
        name: &str,
        limit: usize,
    ) -> Result<Vec<u8>, FetchError>
        requires { limit < 2 ^ 62 }
        ensures bytes { IsFrontOf limit (bytes_or_none self.old name.now) result }
        ensures steady { IsErrOf result FetchError.Failed → ⊥ }
        ensures same { self.new ≡ self.old }
    {
        match self.names.get(name) {
            None => Ok(Vec::new(alloc)),
            Some(bytes) => Ok(front(alloc, bytes, limit)?),
        }
    }
}

impl SteadySink {
    /// A sink to which nothing was put yet. It takes no memory.
    pub fn new(alloc: Global) -> Self
        ensures { result ≡ [] }
    {
        SteadySink {
            bytes: Vec::new(alloc),
        }
    }

    /// All the bytes that were put.
    pub fn bytes(&self) -> &[u8]
        ensures { result.now ≡ self.now }
    {
        &self.bytes
    }
}

impl Sink for SteadySink {
    ghost use Rattle.std.specs.Prelude.{Some};

    ghost written = { λ s. Some s };

    ghost faults = { λ _. 0 };

    fn put(&mut self, bytes: &[u8]) -> Result<(), PutError>
        ensures ok { OnOk result (self.new ≡ self.old ++ bytes.now) }
        ensures err { OnErr result (self.new ≡ self.old) }
        ensures steady { IsErrOf result PutError.Failed → ⊥ }
    {
        self.bytes.extend_from_slice(bytes)?;
        Ok(())
    }

    fn put_text<T: Text>(&mut self, alloc: Global, text: &T) -> Result<(), PutError>
        ensures ok { OnOk result (self.new ≡ self.old ++ T.bytes text.now) }
        ensures err { OnErr result (self.new ≡ self.old) }
        ensures steady { IsErrOf result PutError.Failed → ⊥ }
    {
        let bytes = whole(alloc, text)?;
        self.put(bytes.as_slice())
    }
}
