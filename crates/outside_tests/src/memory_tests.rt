//! What no clause says of the objects in memory: that the calls succeed with ample memory.
use crate::calls::{Calls, expect_calls, loaded, sink_answer};
use ipe_io::{MemRack, MemShelf, MemSink, MemSource, Rack, Source, fill, put_file};
use std::alloc::Global;
use std::fmt::Write;
use std::test::Fail;

/// A source, and what its bytes are read into.
#[derive(Drop)]
struct Reading {
    source: MemSource,
    into: [u8; 5],
}

/// The count that a call answers, the bytes that are read into, and the faults.
impl Calls for Reading {
    fn answer(&mut self, alloc: Global, call: &str) -> Result<String, Fail> {
        let count = match call {
            "read" => self.source.read(&mut self.into),
            _ => fill(&mut self.source, &mut self.into),
        };
        let into = std::str::from_utf8(&self.into)?;
        Ok(format!(in alloc; "{count:?} {into} {}", self.source.faults())?)
    }
}

/// Makes calls of a source of seven bytes in chunks of three, of whose reads one fails.
fn read_source(alloc: Global, fails: u32, lines: &str) -> Result<(), Fail> {
    let mut reading = Reading {
        source: MemSource::new(alloc, b"abcdefg", 3, &[fails])?,
        into: *b".....",
    };
    expect_calls(alloc, &mut reading, lines)
}

/// The second read fails.
const READS: &str = "read|Ok(3) abc.. 0
read|Err(Failed) abc.. 1
read|Ok(3) def.. 1
read|Ok(1) gef.. 1
read|Ok(0) gef.. 1";

/// The fifth read fails.
const FILLS: &str = "fill|Ok(5) abcde 0
fill|Ok(2) fgcde 0
fill|Err(Failed) fgcde 1";

/// A read gives at most the chunk, a listed call fails and takes nothing, and `fill` goes on up to the end.
#[test]
fn a_source_in_memory_gives_chunks(rt: HostRuntime) -> Result<(), Fail> {
    read_source(rt.alloc(), 1, READS)?;
    read_source(rt.alloc(), 4, FILLS)
}

/// The answer, the bytes held, how many of them are flushed, and the faults.
impl Calls for MemSink {
    fn answer(&mut self, alloc: Global, call: &str) -> Result<String, Fail> {
        let mut text = sink_answer(alloc, self, call)?;
        let bytes = std::str::from_utf8(self.bytes())?;
        write!(&mut text, " {bytes} {} {}", self.flushed(), self.faults())?;
        Ok(text)
    }
}

/// Makes calls of a sink with this room, of whose calls one fails.
fn write_sink(alloc: Global, room: usize, fails: u32, lines: &str) -> Result<(), Fail> {
    let mut sink = MemSink::new(alloc, room, &[fails])?;
    expect_calls(alloc, &mut sink, lines)
}

/// There is room for five bytes, and the third call fails.
const WRITES: &str = "write abc|Ok(3) abc 0 0
write abc|Ok(2) abcab 0 0
write |Err(Failed) abcab 0 1
write |Ok(0) abcab 0 1
write a|Err(Failed) abcab 0 2
flush|Ok(()) abcab 5 2";

/// There is room for three bytes.
const PUTS: &str = "put ab|Ok(()) ab 0 0
put cd|Err(Failed) abc 0 1";

/// A write takes what there is room for, and so does a piece that is written whole. A full sink takes an empty piece, and fails at
/// every other.
#[test]
fn a_sink_in_memory_takes_what_fits(rt: HostRuntime) -> Result<(), Fail> {
    write_sink(rt.alloc(), 5, 2, WRITES)?;
    write_sink(rt.alloc(), 3, 99, PUTS)
}

/// What a rack answers to a call of the file at a place, or the name, the bytes and how many of them are flushed.
fn answer_at(
    alloc: Global,
    rack: &mut MemRack,
    kind: &str,
    at: u32,
    piece: &str,
) -> Result<String, Fail> {
    if at >= rack.files() {
        return Err(Fail::new("no such file"));
    }
    let answer = match kind {
        "write" => format!(in alloc; "{:?}", rack.write(at, piece.as_bytes()))?,
        "put" => format!(in alloc; "{:?}", put_file(rack, at, piece.as_bytes()))?,
        "flush" => format!(in alloc; "{:?}", rack.flush(at))?,
        _ => {
            let bytes = std::str::from_utf8(rack.file(at))?;
            format!(in alloc; "{} {bytes} {}", rack.name(at), rack.flushed(at))?
        }
    };
    Ok(answer)
}

/// The answer, the number of files, and the faults.
impl Calls for MemRack {
    fn answer(&mut self, alloc: Global, call: &str) -> Result<String, Fail> {
        let Some((kind, rest)) = call.split_once(' ') else {
            return Err(Fail::new(format_args!("{call}: no name and no place")));
        };
        let mut text = if kind == "add" {
            format!(in alloc; "{:?}", self.add(alloc, rest))?
        } else {
            let (at, piece) = rest.split_once(' ').unwrap_or((rest, ""));
            answer_at(alloc, self, kind, at.parse::<u32>()?, piece)?
        };
        write!(&mut text, " {} {}", self.files(), self.faults())?;
        Ok(text)
    }
}

/// There is room for two files of three bytes, and calls 3 and 7 fail, counted from 0 over all kinds.
const RACK: &str = "add a|Ok(0) 1 0
add b|Ok(1) 2 0
add c|Err(Failed) 2 1
write 0 x|Err(Failed) 2 2
put 0 xy|Ok(()) 2 2
put 1 uvwx|Err(Failed) 2 3
flush 1|Err(Failed) 2 4
flush 0|Ok(()) 2 4
file 0|a xy 2 2 4
file 1|b uvw 0 2 4";

/// A rack of two files refuses the third, and one number counts its calls of all kinds.
#[test]
fn a_rack_in_memory_has_two_files(rt: HostRuntime) -> Result<(), Fail> {
    let mut rack = MemRack::new(rt.alloc(), 2, 3, &[3, 7])?;
    expect_calls(rt.alloc(), &mut rack, RACK)
}

/// What the load of a name answers, and the faults of the names a, b and c.
impl Calls for MemShelf {
    fn answer(&mut self, alloc: Global, call: &str) -> Result<String, Fail> {
        let mut text = loaded(alloc, self, call)?;
        let (a, b, c) = (self.faults("a"), self.faults("b"), self.faults("c"));
        write!(&mut text, " {a} {b} {c}")?;
        Ok(text)
    }
}

/// There is a file a, and the second load fails.
const ONE_FILE: &str = "a|12 0 0 0
a|Failed 1 0 0
b|Failed 1 1 1
c|Failed 1 2 2";

/// There are files a and b.
const TWO_FILES: &str = "b|3 0 0 0
c|Failed 0 0 1";

/// Makes the loads of a shelf with one file.
fn load_one_file(alloc: Global) -> Result<(), Fail> {
    let mut shelf = MemShelf::new(alloc, "a", b"12", &[1])?;
    expect_calls(alloc, &mut shelf, ONE_FILE)
}

/// Makes the loads of a shelf with two files.
fn load_two_files(alloc: Global) -> Result<(), Fail> {
    let mut shelf = MemShelf::new(alloc, "a", b"12", &[])?;
    shelf.also(alloc, "b", b"3")?;
    expect_calls(alloc, &mut shelf, TWO_FILES)
}

/// Faults are counted by name, and those of a second file begin with those of all other names.
#[test]
fn a_shelf_in_memory_counts_faults_by_name(rt: HostRuntime) -> Result<(), Fail> {
    load_one_file(rt.alloc())?;
    load_two_files(rt.alloc())
}
