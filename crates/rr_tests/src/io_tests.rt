// Sources and sinks, in memory and of the system.
ghost use Rattle.std.specs.Prelude.{◌++◌, OnOk};
ghost use Rattle.std.specs.Io.KnownBytes.{Appends};

use crate::rows::{is_said, printed};
use rr_io::{
    FetchError, HostSink, HostSource, MemorySink, MemorySource, Sink, Source, SteadySink,
    SteadySource, Text,
};
use rr_model::MAX_INPUT;
use std::alloc::Global;
use std::fmt::Write;
use std::{env, fs, io, process};

// How many bytes a fetch gives.
fn fetched<S: Source>(alloc: Global, source: &mut S, name: &str) -> Result<usize, FetchError> {
    Ok(source.fetch(alloc, name)?.len())
}

// What four fetches give, of which the second is to fail, and the third has a name that is not there.
fn memory_fetches(alloc: Global) -> Option<String> {
    let mut source = MemorySource::new(alloc);
    source.hold("a", b"old").ok()?;
    source.hold("a", b"bytes").ok()?;
    source.fail(2).ok()?;
    let first = fetched(alloc, &mut source, "a");
    let second = fetched(alloc, &mut source, "a");
    let third = fetched(alloc, &mut source, "b");
    let fourth = fetched(alloc, &mut source, "a");
    printed(alloc, &(first, second, third, fourth))
}

// Says what a put of `abc` gives, and the bytes that the sink then has.
fn say_put(sink: &mut MemorySink, said: &mut String) -> Option<()> {
    let put = sink.put(b"abc");
    let bytes = str::from_utf8(sink.bytes()).ok()?;
    write!(said, "{put:?} {bytes}|").ok()
}

// Four puts, of which the second and the third are to fail.
fn memory_puts(alloc: Global) -> Option<String> {
    let mut sink = MemorySink::new(alloc);
    sink.fail(2, 2).ok()?;
    sink.fail(2, 0).ok()?;
    sink.fail(3, 9).ok()?;
    let mut said = String::new(alloc);
    for _ in 0..4 {
        say_put(&mut sink, &mut said)?;
    }
    Some(said)
}

#[test]
fn memory_fails_where_it_is_listed(rt: HostRuntime) {
    let wanted = "(Ok(5), Err(Failed), Err(Failed), Ok(5))";
    is_said(&rt, memory_fetches(rt.alloc()), wanted, "fetches");
    let wanted = "Ok(()) abc|Err(Failed) abcab|Err(Failed) abcababc|Ok(()) abcababcabc|";
    is_said(&rt, memory_puts(rt.alloc()), wanted, "puts");
}

// A text of two parts, written one after the other.
#[derive(Drop)]
struct Parts<'a> {
    first: &'a [u8],
    last: &'a [u8],
}

impl Text for Parts<'_> {
    ghost bytes = { λ p. p.first.now ++ p.last.now };

    fn write_to<W: io::Write>(&self, out: &mut W) -> io::Result<()>
        ensures { OnOk result (Appends (W.contents out.old) (W.contents out.new)
            (self.now.first.now ++ self.now.last.now)) }
    {
        out.write_all(self.first)?;
        out.write_all(self.last)
    }
}

// Says what a put of a text of `abc` and `de` gives, and the bytes that the sink then has.
fn say_text(alloc: Global, sink: &mut MemorySink, said: &mut String) -> Option<()> {
    let text = Parts {
        first: b"abc",
        last: b"de",
    };
    let put = sink.put_text(alloc, &text);
    let bytes = str::from_utf8(sink.bytes()).ok()?;
    write!(said, "{put:?} {bytes}|").ok()
}

// Three puts of a text, of which the second is to fail in its second part.
fn memory_texts(alloc: Global) -> Option<String> {
    let mut sink = MemorySink::new(alloc);
    sink.fail(2, 4).ok()?;
    let mut said = String::new(alloc);
    for _ in 0..3 {
        say_text(alloc, &mut sink, &mut said)?;
    }
    Some(said)
}

#[test]
fn memory_takes_texts(rt: HostRuntime) {
    let wanted = "Ok(()) abcde|Err(Failed) abcdeabcd|Ok(()) abcdeabcdabcde|";
    is_said(&rt, memory_texts(rt.alloc()), wanted, "texts");
}

// What a steady source that holds bytes under one name gives for a name.
fn steady_fetch(alloc: Global, name: &str) -> Option<String> {
    let mut source = SteadySource::new(alloc);
    source.hold("a", b"bytes").ok()?;
    String::from_utf8(source.fetch(alloc, name).ok()?).ok()
}

// What a steady sink has after two puts.
fn steady_puts(alloc: Global) -> Option<String> {
    let mut sink = SteadySink::new(alloc);
    sink.put(b"ab").ok()?;
    sink.put(b"c").ok()?;
    str::from_utf8(sink.bytes()).ok()?.to_string(alloc).ok()
}

#[test]
fn steady_gives_and_takes_all(rt: HostRuntime) {
    is_said(&rt, steady_fetch(rt.alloc(), "a"), "bytes", "a");
    is_said(&rt, steady_fetch(rt.alloc(), "b"), "", "b");
    is_said(&rt, steady_puts(rt.alloc()), "abc", "puts");
}

// The path of a file for this process alone.
fn temporary_file(alloc: Global, rt: &HostRuntime) -> Option<String> {
    let folder = env::temp_dir(rt).ok()?;
    let folder = folder.as_path().to_str()?;
    format!(in alloc; "{folder}/rr_io-{}", process::id(rt.process())).ok()
}

// Writes bytes to a file, and says how many of them the system's source gives.
fn given_of(
    alloc: Global,
    rt: &HostRuntime,
    file: &str,
    bytes: &[u8],
) -> Option<Result<usize, FetchError>> {
    fs::write(rt, file, bytes).ok()?;
    Some(fetched(alloc, &mut HostSource::new(alloc, rt), file))
}

// What the source gives of no file, of a short one and of one that is too long, and what the sink takes.
fn host_said(alloc: Global, rt: &HostRuntime) -> Option<String> {
    let file = temporary_file(alloc, rt)?;
    let missing = fetched(alloc, &mut HostSource::new(alloc, rt), file.as_str());
    let short = given_of(alloc, rt, file.as_str(), b"bytes")?;
    let long = vec![in alloc; 0u8; MAX_INPUT + 2].ok()?;
    let long = given_of(alloc, rt, file.as_str(), long.as_slice())?;
    fs::remove_file(rt, file.as_str()).ok()?;
    let put = HostSink::new(rt).put(b"");
    printed(alloc, &(missing, short, long == Ok(MAX_INPUT + 1), put))
}

#[test]
fn host_reads_files_and_writes(rt: HostRuntime) {
    let wanted = "(Err(Failed), Ok(5), true, Ok(()))";
    is_said(&rt, host_said(rt.alloc(), &rt), wanted, "files");
}
