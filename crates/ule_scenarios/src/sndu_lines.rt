//! A line of a table -> packets of SNDUs by hand, the run of `ule 256` over them, and the file that it must write.
//!
//! A line has four columns with `|` between, and spaces between the words of a column.
//!
//! 1. What the case shows.
//! 2. The SNDUs of a stream (RFC 4326 section 4), one after the other. `8028_0800/36.1/442B55D0` has these hexadecimal digits before its
//!    datagram, a datagram of 36 bytes for 239.1.0.1, and this CRC-32, which an independent program worked out. Others have names.
//! 3. The packets that are received (ISO/IEC 13818-1 clause 2.4.3). `15/77:367-532` is one of PID 256 with continuity_counter 15 and
//!    pointer_field 77, in which a unit starts; it carries the bytes of the stream from 367 up to before 532, as many as there are. In
//!    `0:183-367` no unit starts. Another packet has `0x` and all digits before these bytes. One without `:` carries none.
//! 4. The SNDUs whose datagrams are delivered.
use scenario_runs::expect;
use std::alloc::Global;
use std::test::Fail;
use test_recordings::{
    CAPTURE_HEAD, Datagram, FileLeft, Left, bytes_of, datagram_of, faultless, go_on, put_datagram,
    put_record, start,
};

/// How many bytes a packet has.
const PACKET: usize = 188;

/// An SNDU by its name. A word that is no name is an SNDU itself.
fn sndu_of(word: &str) -> &str {
    match word {
        // 44 bytes
        "SHORT" => "8028_0800/36.0/08D78115",
        "NEXT" => "8028_0800/36.1/442B55D0",
        "LAST" => "8028_0800/36.2/1375D2BB",
        // 400 bytes, which take three packets
        "LONG" => "818C_0800/392.3/CBEF73B0",
        "OTHER" => "818C_0800/392.4/4429A9C4",
        // these leave two bytes of their second packet, one, and none
        "LEAVES_TWO" => "8168_0800/356.5/3074AB99",
        "LEAVES_ONE" => "8169_0800/357.5/D92DDF8D",
        "LEAVES_NONE" => "816A_0800/358.5/A8D8E5A2",
        _ => word,
    }
}

/// The datagram of `36.1`: its size, and the last byte of its destination.
fn datagram_in(text: &str) -> Result<Datagram, Fail> {
    let (size, last) = text.split_once('.').ok_or("no destination")?;
    let last = last.parse::<u8>()?;
    Ok(Datagram {
        size: size.parse()?,
        to: [239, 1, 0, last],
    })
}

/// Appends the bytes of hexadecimal digits, in pieces with `_` between.
fn put_digits(alloc: Global, into: &mut Vec<u8>, digits: &str) -> Result<(), Fail> {
    for piece in digits.split('_') {
        into.extend_from_slice(&bytes_of(alloc, piece)?)?;
    }
    Ok(())
}

/// Appends the bytes of an SNDU.
fn put_sndu(alloc: Global, into: &mut Vec<u8>, word: &str) -> Result<(), Fail> {
    let (head, rest) = sndu_of(word).split_once('/').ok_or("no datagram")?;
    let (datagram, crc) = rest.split_once('/').ok_or("no CRC-32")?;
    put_digits(alloc, into, head)?;
    put_datagram(into, &datagram_in(datagram)?)?;
    put_digits(alloc, into, crc)
}

/// Appends the record of the datagram of an SNDU.
fn put_delivered(alloc: Global, into: &mut Vec<u8>, word: &str) -> Result<(), Fail> {
    let (_, rest) = sndu_of(word).split_once('/').ok_or("no datagram")?;
    let (datagram, _) = rest.split_once('/').ok_or("no CRC-32")?;
    put_record(into, &datagram_of(alloc, &datagram_in(datagram)?)?)
}

/// The bytes of `183-367`: from a place of the stream up to before another, as many as there are.
fn between<'a>(stream: &'a [u8], places: &str) -> Result<&'a [u8], Fail> {
    let (from, to) = places.split_once('-').ok_or("no end")?;
    let from = from.parse::<usize>()?;
    let to = to.parse::<usize>()?;
    let bytes = stream.get(from..to.min(stream.len()));
    Ok(bytes.ok_or("no such bytes")?)
}

/// Appends a packet of all that stands before these bytes, the bytes, and bytes FF after them.
fn put_other(alloc: Global, into: &mut Vec<u8>, head: &str, bytes: &[u8]) -> Result<(), Fail> {
    let end = into.len().saturating_add(PACKET);
    put_digits(alloc, into, head)?;
    into.extend_from_slice(bytes)?;
    for _ in into.len()..end {
        into.push(0xFF)?;
    }
    if into.len() != end {
        return Err("a longer packet".into());
    }
    Ok(())
}

/// Appends a packet.
fn put_packet(alloc: Global, into: &mut Vec<u8>, stream: &[u8], word: &str) -> Result<(), Fail> {
    let (head, places) = word.split_once(':').unwrap_or((word, "0-0"));
    let bytes = between(stream, places)?;
    if let Some(digits) = head.strip_prefix("0x") {
        return put_other(alloc, into, digits, bytes);
    }
    let packet = match head.split_once('/') {
        Some((counter, pointer)) => start(counter.parse()?, pointer.parse()?, bytes),
        None => go_on(head.parse()?, bytes),
    };
    into.extend_from_slice(&packet)?;
    Ok(())
}

/// The stream of SNDUs.
fn stream_of(alloc: Global, words: &str) -> Result<Vec<u8>, Fail> {
    let mut stream = Vec::new(alloc);
    for word in words.split_whitespace() {
        put_sndu(alloc, &mut stream, word)?;
    }
    Ok(stream)
}

/// The packets that carry a stream.
fn recording_of(alloc: Global, stream: &[u8], words: &str) -> Result<Vec<u8>, Fail> {
    let mut recording = Vec::new(alloc);
    for word in words.split_whitespace() {
        put_packet(alloc, &mut recording, stream, word)?;
    }
    Ok(recording)
}

/// The capture of the datagrams of SNDUs.
fn capture_of(alloc: Global, words: &str) -> Result<Vec<u8>, Fail> {
    let mut capture = Vec::from_slice(alloc, &CAPTURE_HEAD)?;
    for word in words.split_whitespace() {
        put_delivered(alloc, &mut capture, word)?;
    }
    Ok(capture)
}

/// Runs `ule 256` over a recording, which must write this capture, flushed, and nothing else.
pub fn writes(alloc: Global, name: &str, recording: &[u8], capture: &[u8]) -> Result<(), Fail> {
    let files = [FileLeft::whole("ule.pcap", capture)];
    let left = Left::flushed(&[], "", &files);
    let given = faultless(&["ule", "256"], &[], recording);
    expect(alloc, name, &given, &left)
}

/// The datagrams of a line are delivered, and no other.
fn line_comes(alloc: Global, line: &str) -> Result<(), Fail> {
    let (name, rest) = line.split_once('|').ok_or("no SNDUs")?;
    let (sndus, rest) = rest.split_once('|').ok_or("no packets")?;
    let (packets, delivered) = rest.split_once('|').ok_or("no datagrams")?;
    let stream = stream_of(alloc, sndus)?;
    let recording = recording_of(alloc, &stream, packets)?;
    let capture = capture_of(alloc, delivered)?;
    writes(alloc, name, &recording, &capture)
}

/// Of each line of a table comes what must come.
pub fn all_come(alloc: Global, table: &str) -> Result<(), Fail> {
    for line in table.lines() {
        line_comes(alloc, line)?;
    }
    Ok(())
}
