//! What no clause says of the real objects: what the system sees of them. The files stand in the current folder.
use crate::calls::{Calls, expect_calls, loaded, sink_answer};
use ipe_io::{
    AddFault, Failed, FileRack, FileShelf, LoadFault, Rack, Shelf, Sink, Source, StdSink,
    StdSource, fill, put_all, put_file,
};
use std::alloc::{AllocError as OutOfMemory, Global};
use std::fs::{File, Files};
use std::io::Write;
use std::test::Fail;
use std::{fs, io};
use test_lines::expect;

/// That many bytes, in which no two that are 65,536 apart are equal.
fn long_text(alloc: Global, size: u32) -> Result<Vec<u8>, OutOfMemory> {
    let mut text = Vec::new(alloc);
    for at in 0..size {
        text.push((at % 251) as u8)?;
    }
    Ok(text)
}

/// Whether a shelf loads these bytes.
fn loads<S: Shelf>(alloc: Global, shelf: &mut S, name: &str, want: &[u8]) -> bool {
    match shelf.load(alloc, name) {
        Ok(bytes) => bytes.as_slice() == want,
        Err(_) => false,
    }
}

/// Whether a file holds these bytes.
fn holds(rt: HostRuntime, name: &str, want: &[u8]) -> bool {
    loads(rt.alloc(), &mut FileShelf::new(rt.alloc(), rt), name, want)
}

/// Adds two files, and between them one in a folder that is not there, and writes a text to each, the second in two pieces. Answers
/// whether each call did what it must.
fn add_and_write<R: Rack>(
    alloc: Global,
    rack: &mut R,
    first: &[u8],
    second: &[u8],
    flush: bool,
) -> bool {
    if rack.add(alloc, "ipe_io_a") != Ok(0) {
        return false;
    }
    if rack.add(alloc, "no_such_folder/ipe_io") != Err(AddFault::Failed) {
        return false;
    }
    if rack.add(alloc, "ipe_io_b") != Ok(1) {
        return false;
    }
    let (front, back) = second.split_at(second.len() / 2);
    if put_file(rack, 0, first).is_err()
        || put_file(rack, 1, front).is_err()
        || put_file(rack, 1, back).is_err()
    {
        return false;
    }
    !flush || rack.flush(0).is_ok() && rack.flush(1).is_ok()
}

/// Whether the calls of a rack did what they must, and its second file holds nothing before the flush of all, and its text after it. A shelf
/// that loaded the file before the flush does not read it again.
fn is_held_back(rt: HostRuntime) -> bool {
    let alloc = rt.alloc();
    let mut rack = FileRack::new(alloc, rt);
    let mut shelf = FileShelf::new(alloc, rt);
    add_and_write(alloc, &mut rack, b"", b"123", false)
        && loads(alloc, &mut shelf, "ipe_io_b", b"")
        && rack.flush_all().is_ok()
        && holds(rt, "ipe_io_b", b"123")
        && loads(alloc, &mut shelf, "ipe_io_b", b"")
}

/// Whether the second file of a rack that was dropped without a flush holds its text.
fn is_written_at_drop(rt: HostRuntime) -> bool {
    let alloc = rt.alloc();
    let mut rack = FileRack::new(alloc, rt);
    let done = add_and_write(alloc, &mut rack, b"4", b"567", false);
    drop(rack);
    done && holds(rt, "ipe_io_b", b"567")
}

/// Whether the load of a file that is not there fails.
fn is_missed(rt: HostRuntime) -> bool {
    let loaded = FileShelf::new(rt.alloc(), rt).load(rt.alloc(), "ipe_io_none");
    matches!(loaded, Err(LoadFault::Failed))
}

/// Whether two files of a new rack that is flushed hold these texts and nothing else.
fn rewritten(rt: HostRuntime, first: &[u8], second: &[u8]) -> bool {
    let alloc = rt.alloc();
    let mut rack = FileRack::new(alloc, rt);
    add_and_write(alloc, &mut rack, first, second, true)
        && holds(rt, "ipe_io_a", first)
        && holds(rt, "ipe_io_b", second)
}

/// Whether each of three runs over the same two files, with pieces of a text of these lengths, did what it must.
fn all_rewritten(rt: HostRuntime, text: &[u8]) -> Option<bool> {
    for (first, second) in [(70_000, 65_537), (65_536, 3), (1, 0)] {
        let second = text.get(7..)?.get(..second)?;
        if !rewritten(rt, text.get(..first)?, second) {
            return Some(false);
        }
    }
    Some(true)
}

/// Files of the folder: a rack writes them, a shelf loads them, and what a rack holds back is written by a flush, and when the rack is
/// dropped. Each run's rack empties the files that are there: shorter texts replace longer ones, also ones longer than the 64 KiB that
/// are held back.
#[test]
fn a_rack_writes_files(rt: HostRuntime) -> Result<(), Fail> {
    assert!(rt; is_held_back(rt) && is_missed(rt));
    assert!(rt; is_written_at_drop(rt));
    let text = long_text(rt.alloc(), 70_000)?;
    assert!(rt; all_rewritten(rt, &text) == Some(true));
    fs::remove_file(&rt, "ipe_io_a")?;
    fs::remove_file(&rt, "ipe_io_b")?;
    Ok(())
}

/// A file that takes one byte a call.
#[derive(Drop)]
struct ByteByByte {
    file: File,
}

impl Write for ByteByByte {
    fn write(&mut self, piece: &[u8]) -> io::Result<usize> {
        self.file.write(&piece[..piece.len().min(1)])
    }

    fn flush(&mut self) -> io::Result<()> {
        self.file.flush()
    }
}

/// A sink, and the system that has the file which it writes.
#[derive(Drop)]
struct Written<K: Sink + Drop, R: Files + Copy + Drop> {
    sink: K,
    system: R,
}

/// `load` answers what the file holds; other calls are those of the sink.
impl<K: Sink + Drop, R: Files + Copy + Drop> Calls for Written<K, R> {
    fn answer(&mut self, alloc: Global, call: &str) -> Result<String, Fail> {
        match call {
            "load" => loaded(alloc, &mut FileShelf::new(alloc, self.system), "ipe_io_c"),
            _ => Ok(sink_answer(alloc, &mut self.sink, call)?),
        }
    }
}

/// The sink holds nothing back, and its writer takes one byte a call.
const BYTE_BY_BYTE: &str = "write abc|Ok(1)
write |Ok(0)
put bcdef|Ok(())
load|abcdef";

/// The sink holds bytes back.
const BUFFERED: &str = "put 98|Ok(())
put 7|Ok(())
load|
flush|Ok(())
load|987";

/// Makes the calls of the first sink.
fn write_byte_by_byte(rt: HostRuntime) -> Result<(), Fail> {
    let file = fs::create(&rt, "ipe_io_c")?;
    let sink = StdSink::new(rt.alloc(), ByteByByte { file });
    expect_calls(rt.alloc(), &mut Written { sink, system: rt }, BYTE_BY_BYTE)
}

/// Makes the calls of the second sink.
fn write_buffered(rt: HostRuntime) -> Result<(), Fail> {
    let sink = StdSink::buffered(rt.alloc(), fs::create(&rt, "ipe_io_c")?)?;
    expect_calls(rt.alloc(), &mut Written { sink, system: rt }, BUFFERED)
}

/// A sink reports what its writer took, and no more. One that holds nothing back writes at once, the other at the flush.
#[test]
fn a_sink_writes_a_file(rt: HostRuntime) -> Result<(), Fail> {
    write_byte_by_byte(rt)?;
    write_buffered(rt)?;
    fs::remove_file(&rt, "ipe_io_c")?;
    Ok(())
}

/// Writes and flushes a text: 1,024 bytes, then 69,632, more than are held back, and then 1,024 each time.
fn put_text<K: Sink>(sink: &mut K, text: &[u8]) -> Result<(), Failed> {
    let (short, rest) = text.split_at(text.len().min(1024));
    let (long, rest) = rest.split_at(rest.len().min(69_632));
    put_all(sink, short)?;
    put_all(sink, long)?;
    for piece in rest.chunks(1024) {
        put_all(sink, piece)?;
    }
    sink.flush()
}

/// The end of each call that writes a text to a file and then a byte 8, whether a shelf loads the text, and why it loads no more.
fn long_written(rt: HostRuntime, text: &[u8]) -> Result<String, Fail> {
    let alloc = rt.alloc();
    let mut sink = StdSink::buffered(alloc, fs::create(&rt, "ipe_io_d")?)?;
    let whole = put_text(&mut sink, text);
    let same = holds(rt, "ipe_io_d", text);
    let last = put_text(&mut sink, b"8");
    let fault = FileShelf::new(alloc, rt).load(alloc, "ipe_io_d").err();
    Ok(format!(in alloc; "{whole:?} {same} {last:?} {fault:?}")?)
}

/// How many pieces of 188 bytes of a source are those of the text, how many of them are lent, not moved, and how many bytes are left in
/// `rest` after them.
fn lent_and_moved<S: Source>(source: &mut S, text: &[u8], rest: &mut [u8; 188]) -> (u32, u32, u32) {
    let mut same: u32 = 0;
    let mut lent: u32 = 0;
    for want in text.chunks_exact(188) {
        if let Some(piece) = source.lend(188) {
            lent = lent.saturating_add(1);
            if piece == want {
                same = same.saturating_add(1);
            }
        } else if fill(source, rest) == Ok(188) && rest.as_slice() == want {
            same = same.saturating_add(1);
        }
    }
    (
        same,
        lent,
        fill(source, rest).map_or(999, |count| count as u32),
    )
}

/// The numbers of that text's file, and the last byte.
fn read_back(rt: HostRuntime, text: &[u8]) -> Result<String, Fail> {
    let alloc = rt.alloc();
    let mut source = StdSource::new(alloc, fs::open(&rt, "ipe_io_d")?)?;
    let mut rest = [0; 188];
    let (same, lent, left) = lent_and_moved(&mut source, text, &mut rest);
    Ok(format!(in alloc; "{same} {lent} {left} {:?}", rest.get(100))?)
}

/// The longest file that a shelf loads has 1,048,576 bytes. A file is read as it was written: what a source lends and what it moves are
/// together its bytes in order. The first record of 188 bytes and each that lies across one of 15 ends of the buffer of 65,536 bytes is
/// moved, and those after it are lent: all but 16 of 5,577, and 101 bytes are left, of which the last is the 8.
#[test]
fn the_longest_file_is_read_as_it_was_written(rt: HostRuntime) -> Result<(), Fail> {
    let text = long_text(rt.alloc(), 1_048_576)?;
    let written = long_written(rt, &text)?;
    expect(
        "the longest file",
        &written,
        "Ok(()) true Ok(()) Some(TooLong)",
    )?;
    expect(
        "its pieces",
        &read_back(rt, &text)?,
        "5577 5561 101 Some(56)",
    )?;
    fs::remove_file(&rt, "ipe_io_d")?;
    Ok(())
}
