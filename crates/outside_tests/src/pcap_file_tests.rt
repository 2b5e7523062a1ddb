//! Captures written by hand from the format's fields (draft-ietf-opsawg-pcap sections 4 and 5).
use ipe_io::{MemSource, Source};
use pcap_file::{CaptureReader, LinkType, NextFault, datagram_of, record_head, write_head};
use std::alloc::Global;
use std::test::Fail;
use test_lines::expect_lines;
use test_recordings::bytes_of;

/// A capture of raw IP, least significant byte first, with two records of 20 bytes; the second is no IP.
const RAW: &str = "D4C3B2A1 0200 0400 00000000 00000000 00000400 65000000
00000000 00000000 14000000 14000000
4500001400000000401100000A000001EF010203
01000000 02000000 14000000 3C000000
1500001400000000401100000A000001EF010203";

/// A capture of Ethernet with nanoseconds, most significant byte first, of one frame with an IPv4 datagram of 20 bytes.
const ETHERNET: &str = "A1B23C4D 0002 0004 00000000 00000000 00040000 00000001
00000001 00000002 00000028 0000003C
01005E010203 020000000001 0800
4500001400000000401100000A000001EF010203
000000000000";

/// Lets the records of a capture stand so many times.
fn repeat(alloc: Global, bytes: &mut Vec<u8>, times: u16) -> Result<(), Fail> {
    let Some(records) = bytes.get(24..) else {
        return Err("no head".into());
    };
    let records = Vec::from_slice(alloc, records)?;
    for _ in 1..times {
        bytes.extend_from_slice(&records)?;
    }
    Ok(())
}

/// Changes a capture: `to` keeps so many bytes of it, `times` says how often its records stand, and a number is the place of a byte
/// that has this hexadecimal value.
fn change(alloc: Global, bytes: &mut Vec<u8>, key: &str, value: &str) -> Result<(), Fail> {
    match key {
        "to" => bytes.truncate(value.parse::<usize>()?),
        "times" => repeat(alloc, bytes, value.parse::<u16>()?)?,
        _ => {
            let Some(byte) = bytes.get_mut(key.parse::<usize>()?) else {
                return Err(Fail::new(format_args!("{key}: no such byte")));
            };
            *byte = u8::from_str_radix(value, 16)?;
        }
    }
    Ok(())
}

/// A capture, how many bytes a read gives at most, and which call fails.
#[derive(Drop)]
struct Given {
    bytes: Vec<u8>,
    by: usize,
    fail: u32,
}

/// Takes a word of what is given.
fn take_word(alloc: Global, given: &mut Given, word: &str) -> Result<(), Fail> {
    let (key, value) = word.split_once('=').unwrap_or((word, ""));
    match key {
        "by" => given.by = value.parse::<usize>()?,
        "fail" => given.fail = value.parse::<u32>()?,
        _ => change(alloc, &mut given.bytes, key, value)?,
    }
    Ok(())
}

/// A source of the capture of these words: a read gives at most `by` bytes, 7 where nothing is said, and the call `fail` fails.
fn source_of(alloc: Global, words: &str) -> Result<MemSource, Fail> {
    let (name, words) = words.split_once(' ').unwrap_or((words, "by=7"));
    let mut given = Given {
        bytes: bytes_of(alloc, if name == "raw" { RAW } else { ETHERNET })?,
        by: 7,
        fail: u32::MAX,
    };
    for word in words.split(' ') {
        take_word(alloc, &mut given, word)?;
    }
    if given.by == 0 {
        return Err(Fail::new("reads of no byte"));
    }
    Ok(MemSource::new(alloc, &given.bytes, given.by, &[given.fail])?)
}

/// Whether a record holds a datagram of 20 bytes.
fn holds_datagram(link: LinkType, record: &[u8]) -> bool {
    match datagram_of(link, record) {
        Some(datagram) => datagram.len() == 20,
        None => false,
    }
}

/// Reads the records: how many of them hold a datagram of 20 bytes, and how they end.
fn read_all<S: Source>(reader: &mut CaptureReader, source: &mut S) -> (u32, Result<(), NextFault>) {
    let link = reader.link();
    let mut datagrams: u32 = 0;
    for _ in 0..10_001u32 {
        if !reader.is_open() {
            break;
        }
        match reader.next(source) {
            Ok(Some(record)) => {
                if holds_datagram(link, record) {
                    datagrams = datagrams.saturating_add(1);
                }
            }
            Ok(None) => return (datagrams, Ok(())),
            Err(fault) => return (datagrams, Err(fault)),
        }
    }
    (datagrams, Err(NextFault::Failed))
}

/// Why the capture of these words is not opened, or the number of its records, of the datagrams of 20 bytes in them, and how they end.
fn answers_of(alloc: Global, words: &str) -> Result<String, Fail> {
    let mut source = source_of(alloc, words)?;
    let mut reader = match CaptureReader::open(alloc, &mut source) {
        Ok(reader) => reader,
        Err(fault) => return Ok(format!(in alloc; "{fault:?}")?),
    };
    let (datagrams, end) = read_all(&mut reader, &mut source);
    Ok(format!(in alloc; "{} {datagrams} {end:?}", reader.records())?)
}

/// A capture and what differs in it; after `|` why it is not opened, or how many records are read, how many hold a datagram, and the
/// end.
///
/// A read fails in the head, between records and within one. Where the third read of 96 bytes fails, the second gave both records: the
/// fault of one that is too long comes first.
const CAPTURES: &str = "raw|2 1 Ok(())
ethernet|1 1 Ok(())
raw to=0|Capture(Empty)
raw to=23|Capture(CutHead)
raw 0=4D|Capture(Magic)
raw 6=03|Capture(Version)
raw 20=71|Capture(Link)
raw 23=10|Capture(Link)
raw to=24|0 0 Ok(())
raw to=25|0 0 Err(Capture(CutHead))
raw to=59|0 0 Err(Capture(CutRecord))
raw to=75|1 1 Err(Capture(CutHead))
raw to=76|1 1 Err(Capture(CutRecord))
raw 32=01 34=04|0 0 Err(Capture(RecordTooLong))
raw fail=0|Failed
raw fail=3|Failed
raw fail=5|0 0 Err(Failed)
raw fail=13|1 1 Err(Failed)
raw by=96 fail=2 34=05|0 0 Err(Capture(RecordTooLong))
raw by=96 fail=2|2 1 Err(Failed)
raw to=60 times=10000 by=999|10000 10000 Ok(())
raw to=60 times=10000 by=65536|10000 10000 Ok(())
raw to=60 times=10000 by=360024|10000 10000 Ok(())";

/// Fields of both heads, each place at which a capture may end or a read may fail, and more than the reader holds at once.
#[test]
fn captures_are_read_up_to_their_first_fault(rt: HostRuntime) -> Result<(), Fail> {
    expect_lines(rt.alloc(), answers_of, CAPTURES)
}

/// The head of a capture, or that of a record of so many bytes.
fn head_of(alloc: Global, what: &str) -> Result<String, Fail> {
    if what == "capture" {
        let mut head = [0xFF; 24];
        write_head(&mut head);
        return Ok(hex::encode_upper(alloc, head)?);
    }
    let mut head = [0xFF; 16];
    record_head(&mut head, what.parse::<u32>()?);
    Ok(hex::encode_upper(alloc, head)?)
}

/// The head of a raw IP capture, and of records of 20 and of 65,538 bytes.
const HEADS: &str = "capture|D4C3B2A10200040000000000000000000000040065000000
20|00000000000000001400000014000000
65538|00000000000000000200010002000100";

/// Each byte of a head is written.
#[test]
fn heads_are_written(rt: HostRuntime) -> Result<(), Fail> {
    expect_lines(rt.alloc(), head_of, HEADS)
}
