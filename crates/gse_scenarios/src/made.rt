//! Baseband frames by hand, and what comes of them: tables of text, a case a line, in three columns with `|` between.
//!
//! 1. The name of the case.
//! 2. Its frames, with `;` between; `255 of` before a frame says how often it comes. A frame is words: hexadecimal digits, with `*` and how
//!    often they come, or names of `piece_of`. `0158/90` is a header (EN 302 307-1 clause 5.1.6) with DFL 0x158, CRC-8 0x90, MATYPE 0x5000,
//!    and 0 in all other fields; a header in full is MATYPE, UPL, DFL, SYNC, SYNCD and CRC-8. Zeros fill the frame up.
//! 3. What comes of them: `unreadable` frames are refused, `other` are of other input streams, `given` says how often the service gives
//!    the datagram, and the other words are its lines in the report. What is not named is 0.
//!
//! All carry the same datagram, so that it is enough to say how often it is given. An independent program worked out each CRC-8 and CRC-32.
use crate::report::{Due, Form, ServiceDue, comes};
use std::alloc::{AllocError as OutOfMemory, Global};
use std::test::Fail;
use test_recordings::{Datagram, bytes_of, number_of};

const SERVICE: &str = "[[service]]
name = \"files\"
kind = \"gse\"
isi = 0
rules = [\"239.0.0.0/8\"]
";

const FILTER: &str = "filter = [\"01:00:5E:01:02:03\"]\n";

pub const IN_300: Form = Form {
    settings: &["carrier = \"bb\"\nframe_bytes = 300\n", SERVICE],
    size: 300,
};

pub const FILTERED: Form = Form {
    settings: &["carrier = \"bb\"\nframe_bytes = 300\n", SERVICE, FILTER],
    size: 300,
};

pub const IN_4200: Form = Form {
    settings: &["carrier = \"bb\"\nframe_bytes = 4200\n", SERVICE],
    size: 4200,
};

/// What all carry: an IPv4 header alone (RFC 791 section 3.1).
const SENT: [Datagram; 1] = [Datagram {
    size: 20,
    to: [239, 1, 2, 3],
}];

/// What follows the frames of each case: the datagram once more.
const GOOD: &str = "00F0/A3 WHOLE";

/// The digits of a piece by its name. A word that is no name is digits itself.
fn piece_of(word: &str) -> &str {
    match word {
        // the datagram, its first eight bytes, and the other twelve
        "DATAGRAM" => "450000140000000040110000 0A000001EF010203",
        "FIRST8" => "4500001400000000",
        "LAST12" => "401100000A000001EF010203",
        // the datagram in a complete packet to 01:00:5E:01:02:03, to a label that it re-uses, to all, to three bytes, and to another
        "WHOLE" => "C01C080001005E010203 450000140000000040110000 0A000001EF010203",
        "AGAIN" => "F0160800 450000140000000040110000 0A000001EF010203",
        "FOR_ALL" => "E0160800 450000140000000040110000 0A000001EF010203",
        "FOR_THREE" => "D0190800010203 450000140000000040110000 0A000001EF010203",
        "FOR_OTHER" => "C01C0800020000000001 450000140000000040110000 0A000001EF010203",
        // Frag ID 1: Total Length 28, the label 01:00:5E:01:02:03 and eight bytes; ten bytes; the last two or twelve, with the CRC-32
        "START" => "801301001C080001005E010203 4500001400000000",
        "MIDDLE" => "300B01 401100000A000001EF01",
        "END" => "700701 0203 4C365E23",
        "REST" => "701101 401100000A000001EF010203 4C365E23",
        _ => word,
    }
}

/// Appends the digits of a word.
fn put_word(digits: &mut String, word: &str) -> Result<(), OutOfMemory> {
    match word.split_once('/') {
        Some((dfl, crc)) => write!(digits, "50000000{dfl}000000{crc} "),
        None => write!(digits, "{} ", piece_of(word)),
    }
}

/// Appends a frame of pieces, the first its header.
pub fn put_frame(into: &mut Vec<u8>, pieces: &[&[u8]], size: usize) -> Result<(), OutOfMemory> {
    let end = into.len().saturating_add(size);
    for piece in pieces {
        into.extend_from_slice(piece)?;
    }
    for _ in into.len()..end {
        into.push(0)?;
    }
    Ok(())
}

/// The bytes of words.
fn bytes_of_words(alloc: Global, words: &str) -> Result<Vec<u8>, Fail> {
    let mut digits = String::new(alloc);
    for word in words.split_whitespace() {
        put_word(&mut digits, word)?;
    }
    bytes_of(alloc, &digits)
}

/// Appends a frame as often as it comes.
fn put_words(alloc: Global, into: &mut Vec<u8>, frame: &str, size: usize) -> Result<(), Fail> {
    let (times, words) = frame.split_once(" of ").unwrap_or(("1", frame));
    let bytes = bytes_of_words(alloc, words)?;
    let mut frame = Vec::new(alloc);
    put_frame(&mut frame, &[&bytes], size)?;
    for _ in 0..times.trim().parse::<u16>()? {
        into.extend_from_slice(&frame)?;
    }
    Ok(())
}

/// The frames of a case and the good one after them.
fn recording_of(alloc: Global, frames: &str, size: usize) -> Result<Vec<u8>, Fail> {
    let mut recording = Vec::new(alloc);
    for frame in frames.split(';') {
        put_words(alloc, &mut recording, frame, size)?;
    }
    put_words(alloc, &mut recording, GOOD, size)?;
    Ok(recording)
}

/// What the report says of the stream, where a case has these numbers and the good frame follows.
fn stream_of(alloc: Global, numbers: &str) -> Result<String, Fail> {
    let unreadable = number_of(numbers, "unreadable")?;
    let other = number_of(numbers, "other")?;
    let records = number_of(numbers, "heard")?
        .saturating_add(1)
        .saturating_add(unreadable)
        .saturating_add(other);
    Ok(format!(in alloc; "records={records} unreadable={unreadable} other={other}")?)
}

/// What the report says of the service, which has the good frame too.
fn service_of(alloc: Global, numbers: &str) -> Result<String, Fail> {
    let mut words = "heard=1 units=1".to_string(alloc)?;
    for word in numbers.split_whitespace() {
        let (name, _) = word.split_once('=').ok_or("no number")?;
        match name {
            "unreadable" | "other" | "given" => {}
            _ => write!(words, " {word}")?,
        }
    }
    Ok(words)
}

/// Compares what comes of a recording with the numbers of a case and the good frame.
fn comes_of(
    alloc: Global,
    name: &str,
    form: &Form<'_>,
    recording: &[u8],
    numbers: &str,
) -> Result<(), Fail> {
    let of_service = service_of(alloc, numbers)?;
    let stream = stream_of(alloc, numbers)?;
    let given = number_of(numbers, "given")?.saturating_add(1);
    let given = format!(in alloc; "0*{given}")?;
    let service = ServiceDue {
        name: "files",
        file: "files.pcap",
        numbers: &of_service,
        sent: &SENT,
        given: &given,
    };
    let due = Due {
        stream: &stream,
        services: &[service],
    };
    comes(alloc, name, form, recording, &due)
}

/// Receives the frames of a line and the good one after them.
fn line_comes(alloc: Global, form: &Form<'_>, line: &str) -> Result<(), Fail> {
    let (name, rest) = line.split_once('|').ok_or("no frames")?;
    let (frames, numbers) = rest.split_once('|').ok_or("no numbers")?;
    let recording = recording_of(alloc, frames, form.size)?;
    comes_of(alloc, name, form, &recording, numbers)
}

/// Of each case of a table comes what must come, and the datagram after it.
pub fn all_come(alloc: Global, form: &Form<'_>, table: &str) -> Result<(), Fail> {
    for line in table.lines() {
        line_comes(alloc, form, line)?;
    }
    Ok(())
}
