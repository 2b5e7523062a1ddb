//! Recordings in memory, by hand.
use ipe_io::{MemSource, Recording, Source, StdSource};
use std::alloc::{AllocError as OutOfMemory, Global};
use std::fmt::Write;
use std::test::Fail;
use test_lines::expect_lines;
use test_recordings::bytes_of;
use ts_record::{Record, RecordReader, lend_record};

/// The form of a name.
fn form_of(name: &str) -> Option<Recording> {
    match name {
        "Plain" => Some(Recording::Plain),
        "Stamped" => Some(Recording::Stamped),
        "M2ts" => Some(Recording::M2ts),
        _ => None,
    }
}

/// Appends the moment of a record whose packet is filled with this number.
fn put_record(text: &mut String, record: &Record, number: u8) -> Result<(), Fail> {
    if record.bytes != [number; 188] {
        return Err(Fail::new("another packet"));
    }
    match record.moment {
        Some(moment) => write!(text, "{moment} ")?,
        None => text.push_str("none ")?,
    }
    Ok(())
}

/// Asks for records until none comes, and appends their moments and the last answer. Nothing is asked of a closed reader.
fn put_answers<S: Source>(
    text: &mut String,
    reader: &mut RecordReader,
    source: &mut S,
) -> Result<(), Fail> {
    for number in 0..9u8 {
        if !reader.is_open() {
            text.push_str("closed ")?;
            return Ok(());
        }
        match reader.next(source) {
            Ok(Some(record)) => put_record(text, &record, number)?,
            Ok(None) => {
                text.push_str("end ")?;
                return Ok(());
            }
            Err(fault) => {
                write!(text, "{fault:?} ")?;
                return Ok(());
            }
        }
    }
    Ok(())
}

/// The source of a recording, of which one call fails.
fn source_of(alloc: Global, bytes: &str, call: &str) -> Result<MemSource, Fail> {
    let call = call.parse::<u32>()?;
    Ok(MemSource::new(alloc, &bytes_of(alloc, bytes)?, 100, &[call])?)
}

/// Appends the answers of a reader over a source, then those over one that has a record more, the tail, and the faults of the first.
fn put_all_answers(
    alloc: Global,
    text: &mut String,
    reader: &mut RecordReader,
    source: &mut MemSource,
) -> Result<(), Fail> {
    put_answers(text, reader, source)?;
    let mut more = MemSource::new(alloc, &[0; 196], 100, &[])?;
    put_answers(text, reader, &mut more)?;
    write!(text, "{} {}", reader.tail(), source.faults())?;
    Ok(())
}

/// All that a reader answers over the recording of a form, after `!` the call that fails, and bytes.
fn answers_of(alloc: Global, given: &str) -> Result<String, Fail> {
    let (form, bytes) = given.split_once(": ").unwrap_or(("", given));
    let (form, call) = form.split_once(" !").unwrap_or((form, "99"));
    let Some(form) = form_of(form) else {
        return Err(Fail::new(format_args!("{given}: no form")));
    };
    let mut reader = RecordReader::new(form);
    let mut source = source_of(alloc, bytes, call)?;
    let mut text = String::new(alloc);
    put_all_answers(alloc, &mut text, &mut reader, &mut source)?;
    Ok(text)
}

/// A form, after `!` which call of the source fails, and a recording's bytes; after `|` the moments and the answer after them, what is
/// answered when the reader is asked again, the bytes left over, and the faults of the source.
///
/// Of Stamped: 2^32 + 5 microseconds; the last moment, and the first stamp that is none. Of m2ts: both permission bits are set in the
/// first stamp, and ten units later the stamps have gone round; one permission bit; two records of three calls each: the stamp, 100
/// and 88 bytes of the packet.
const RECORDINGS: &str = "Plain: |end end 0 0
Plain: 00*188 01*188 EE*187|0 0 end end 187 0
Stamped: 0000000100000005 00*188 EE*195|4294967301 end end 195 0
Stamped: 3FFFFFFFFFFFFFFF 00*188 4000000000000000 01*188|4611686018427387903 none end end 0 0
M2ts: FFFFFFFF 00*188 00000009 01*188 80000009 02*188 EE*4|1073741823 1073741833 1073741833 end end 4 0
M2ts: 40000007 00*188 EE*191|7 end end 191 0
M2ts !0: 00000001 00*188 00000002 01*188|Failed closed 0 1
M2ts !1: 00000001 00*188 00000002 01*188|Failed closed 0 1
M2ts !2: 00000001 00*188 00000002 01*188|Failed closed 0 1
M2ts !3: 00000001 00*188 00000002 01*188|1 Failed closed 0 1
M2ts !4: 00000001 00*188 00000002 01*188|1 Failed closed 0 1
M2ts !5: 00000001 00*188 00000002 01*188|1 Failed closed 0 1";

/// Records have moments, the rest is the tail, and a failed read closes the reader.
#[test]
fn recordings_are_read_so(rt: HostRuntime) -> Result<(), Fail> {
    expect_lines(rt.alloc(), answers_of, RECORDINGS)
}

/// 1,024 records of m2ts, the packet of each filled with its number, and five bytes after them.
fn many_records(alloc: Global) -> Result<Vec<u8>, OutOfMemory> {
    let mut bytes = Vec::new(alloc);
    for number in 0..1024u32 {
        bytes.extend_from_slice(&[0, 1, 2, 3])?;
        bytes.extend_from_slice(&[(number % 256) as u8; 188])?;
    }
    bytes.extend_from_slice(&[0xEE; 5])?;
    Ok(bytes)
}

/// The next record, lent where the source has it in hand, otherwise moved.
fn lent_or_moved<S: Source>(source: &mut S, reader: &mut RecordReader) -> Option<Record> {
    if !reader.is_open() {
        return None;
    }
    if let Some(lent) = lend_record(source, reader) {
        return Some(Record {
            moment: lent.moment,
            bytes: *lent.bytes,
        });
    }
    let mut place = Record {
        moment: None,
        bytes: [0; 188],
    };
    match reader.next_into(source, &mut place) {
        Ok(true) => Some(place),
        _ => None,
    }
}

/// The next record, moved.
fn moved<S: Source>(source: &mut S, reader: &mut RecordReader) -> Option<Record> {
    if !reader.is_open() {
        return None;
    }
    reader.next(source).unwrap_or(None)
}

/// Whether two records have the same moment and the same packet.
fn is_same(one: &Record, other: &Record) -> bool {
    one.moment == other.moment && one.bytes.as_slice() == other.bytes.as_slice()
}

/// How many records two readers give alike, the one lent or moved, the other moved, until neither gives one; None where they differ.
fn alike<S: Source, T: Source>(
    lent: &mut S,
    lender: &mut RecordReader,
    read: &mut T,
    reader: &mut RecordReader,
) -> Option<u32> {
    for count in 0..9999u32 {
        match (lent_or_moved(lent, lender), moved(read, reader)) {
            (Some(one), Some(other)) if is_same(&one, &other) => {}
            (None, None) => return Some(count),
            _ => return None,
        }
    }
    None
}

/// How many of those records are the same lent and read, and the tails.
fn lent_and_read(alloc: Global) -> Result<(Option<u32>, u32, u32), Fail> {
    let bytes = many_records(alloc)?;
    let mut lent = StdSource::new(alloc, bytes.as_slice())?;
    let mut read = MemSource::new(alloc, &bytes, 65_536, &[])?;
    let mut lender = RecordReader::new(Recording::M2ts);
    let mut reader = RecordReader::new(Recording::M2ts);
    let count = alike(&mut lent, &mut lender, &mut read, &mut reader);
    Ok((count, lender.tail(), reader.tail()))
}

/// Three lengths of the buffer that a `StdSource` lends out of, so that records lie across its ends. Only a reader that has seen the
/// end has a tail.
#[test]
fn records_lent_are_those_read(rt: HostRuntime) -> Result<(), Fail> {
    assert_eq!(rt; lent_and_read(rt.alloc())?, (Some(1024), 5, 5));
    Ok(())
}
