// Files, standard input and standard output.
ghost use Rattle.std.specs.Prelude.{◌≡◌, ◌<◌, ◌≤◌, ◌^◌, ◌-◌, [], None, IsErrOf, IsSome, OnErr, OnOk, length, option_map, slice_get};
ghost use Rattle.rr_io.specs.Outside.{IsFrontIfTold, failed_after, faults_after, next_number};

use crate::text::{PieceError, write_pieces};
use crate::write_fault::{WriteFault, fault_of};
use crate::{FetchError, PutError, Sink, Source, Text};
use rr_model::MAX_INPUT;
use std::alloc::Global;
use std::fs;
use std::io::{self, ErrorKind, Read, Write};
use std::marker::Model;
use std::rt::Files;

/// The files of the system by their paths, and standard input by the name `-`.
#[derive(Drop)]
pub struct HostSource<R: Files + Input + Drop> {
    alloc: Global,
    rt: R,
    failed: Vec<String>,
    // Why the last of them failed.
    why: Option<ErrorKind>,
}

impl<R: Files + Input + Drop> Model for HostSource<R> {
    ghost use Rattle.std.specs.Prelude.{ℕ, List, map, string_bytes};

    ghost Value = { List (List ℕ) };

    ghost view = { λ s. map string_bytes s.failed.items };
}

// How many of the first bytes of a put are kept.
const FRONT: usize = 64;

/// The standard output of the system.
#[derive(Drop)]
pub struct HostSink<R: Print + Drop> {
    rt: R,
    faults: u64,
    // Why a put failed, the last time that one did.
    why: Option<WriteFault>,
    // The first bytes of the last put, `kept` of them.
    front: [u8; FRONT],
    kept: usize,
}

impl<R: Print + Drop> Model for HostSink<R> {
    ghost use Rattle.rr_io.specs.Host.{Faults};

    ghost Value = { Faults };

    ghost view = { λ s. record { faults = s.faults; why = s.why } };
}

// What a reader gives, up to `limit + 1` bytes. A read that a signal interrupts is tried again.
fn read_front<F: Read + Drop>(alloc: Global, reader: F, limit: usize) -> io::Result<Vec<u8>>
    requires { limit < 2 ^ 62 }
    ensures { IsFrontIfTold limit (F.remaining reader) result }
{
    let mut bytes = Vec::new(alloc);
    reader.take(limit as u64 + 1).read_to_end(&mut bytes)?;
    Ok(bytes)
}

impl<R: Files + Input + Drop> HostSource<R> {
    /// No name has failed. The runtime reaches the files and standard input, and the names that fail are kept with the allocator.
    pub fn new(alloc: Global, rt: R) -> Self
        ensures { result ≡ [] }
    {
        HostSource {
            alloc,
            rt,
            failed: Vec::new(alloc),
            why: None,
        }
    }

    /// The name whose fetch failed last, and why.
    pub fn failure(&self) -> Option<(&str, Option<ErrorKind>)>
        ensures { option_map (λ f. f.0.now) result ≡ slice_get self.now (length self.now - 1) }
    {
        match self.failed.last() {
            None => None,
            Some(name) => Some((name.as_str(), self.why)),
        }
    }

    fn read_name(&self, alloc: Global, name: &str, limit: usize) -> io::Result<Vec<u8>>
        requires { limit < 2 ^ 62 }
    {
        if name == "-" {
            return read_front(alloc, self.rt.reader(), limit);
        }
        let file = fs::open(&self.rt, name)?;
        read_front(alloc, file, limit)
    }
}

impl<R: Files + Input + Drop> Source for HostSource<R> {
    ghost use Rattle.std.specs.Prelude.{None};

    ghost held = { λ _ _. None };

    ghost failed = { λ failed. failed };

    fn fetch(&mut self, alloc: Global, name: &str) -> Result<Vec<u8>, FetchError>
        ensures { self.new ≡ failed_after result name.now self.old }
    {
        self.fetch_within(alloc, name, MAX_INPUT)
    }

    fn fetch_within(
        &mut self,
        alloc: Global,
        name: &str,
        limit: usize,
    ) -> Result<Vec<u8>, FetchError>
        requires { limit < 2 ^ 62 }
        ensures { self.new ≡ failed_after result name.now self.old }
    {
        // The name and room for it first: a fetch that fails then wants no memory to note it.
        let noted = String::from_str(self.alloc, name)?;
        self.failed.reserve(1)?;
        match self.read_name(alloc, name, limit) {
            Ok(bytes) => Ok(bytes),
            Err(error) if error.kind() == ErrorKind::OutOfMemory => Err(FetchError::NoMemory),
            Err(error) => {
                self.failed.push(noted)?;
                self.why = Some(error.kind());
                Err(FetchError::Failed)
            }
        }
    }
}

impl<R: Print + Drop> HostSink<R> {
    /// No put has failed. The runtime reaches standard output.
    pub fn new(rt: R) -> Self
        ensures { result ≡ record { faults = 0; why = None } }
    {
        HostSink {
            rt,
            faults: 0,
            why: None,
            front: [0; FRONT],
            kept: 0,
        }
    }

    /// The first bytes of the last put, 64 at most; none after a text that was put piece by piece.
    pub fn front(&self) -> &[u8] {
        &self.front[..self.kept.min(FRONT)]
    }

    /// Why a put failed, the last time that one did.
    pub fn failure(&self) -> Option<WriteFault>
        ensures { result ≡ self.now.why }
    {
        self.why
    }

    // Counts a fault of this kind.
    fn fault(&mut self, kind: ErrorKind) -> PutError
        ensures result { result ≡ PutError.Failed }
        ensures counts { self.new.faults ≡ next_number self.old.faults }
        ensures never_falls { self.old.faults ≤ self.new.faults }
        ensures why { IsSome self.new.why }
    {
        self.faults = self.faults.saturating_add(1);
        self.why = Some(fault_of(kind));
        PutError::Failed
    }

    // Keeps the first bytes of a put. The faults stay.
    fn keep_front(&mut self, bytes: &[u8])
        ensures { self.new ≡ self.old }
    {
        let kept = bytes.len().min(FRONT);
        self.front[..kept].copy_from_slice(&bytes[..kept]);
        self.kept = kept;
    }
}

impl<R: Print + Drop> Sink for HostSink<R> {
    ghost use Rattle.std.specs.Prelude.{None};

    ghost written = { λ _. None };

    ghost faults = { λ s. s.faults };

    fn put(&mut self, bytes: &[u8]) -> Result<(), PutError>
        ensures counts { self.new.faults ≡ faults_after result self.old.faults }
        ensures never_falls { self.old.faults ≤ self.new.faults }
        ensures ok { OnOk result (self.new ≡ self.old) }
        ensures err { OnErr result (IsSome self.new.why) }
    {
        self.keep_front(bytes);
        // Goes on after a short write. A write that takes nothing of some bytes is an error.
        match io::writer(&self.rt).write_all(bytes) {
            Ok(()) => Ok(()),
            Err(error) => Err(self.fault(error.kind())),
        }
    }

    fn put_text<T: Text>(&mut self, alloc: Global, text: &T) -> Result<(), PutError>
        ensures counts { self.new.faults ≡ faults_after result self.old.faults }
        ensures never_falls { self.old.faults ≤ self.new.faults }
        ensures ok { OnOk result (self.new ≡ self.old) }
        ensures err { IsErrOf result PutError.Failed → IsSome self.new.why }
    {
        self.kept = 0;
        match write_pieces(alloc, text, io::writer(&self.rt)) {
            Ok(_) => Ok(()),
            Err(PieceError::NoMemory) => Err(PutError::NoMemory),
            Err(PieceError::Failed(error)) => Err(self.fault(error.kind())),
        }
    }
}
