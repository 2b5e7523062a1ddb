//! One service that moves: which version is in force, whatever becomes of the INT and of the units at its change.
//!
//! A line has columns with `|` between: the name of a case; a stream, whose settings the receiver has; what stands in the recording; and the
//! columns of `received`. Streams are `once`, of the files that move once, `twice`, of those that move twice, and `other`, of another
//! platform. The words of a recording are:
//!
//! - `0-99` are the records from 0 to 99 of the stream, `101` is one.
//! - `twice/200` is one of another stream.
//! - `100+200` is a packet with the sections of the INT of two packets, in the first one's place.
use crate::change_plans::{FOUR_FILES, ONCE, OTHER, TWICE, records_of, stream_of};
use crate::received::{Reception, comes};
use std::alloc::Global;
use std::test::Fail;
use test_recordings::range_of;

/// The streams.
#[derive(Drop)]
struct Streams {
    once: Vec<u8>,
    twice: Vec<u8>,
    other: Vec<u8>,
}

impl Streams {
    fn new(alloc: Global) -> Result<Streams, Fail> {
        let once = stream_of(alloc, ONCE, FOUR_FILES)?;
        let twice = stream_of(alloc, TWICE, FOUR_FILES)?;
        let other = stream_of(alloc, OTHER, FOUR_FILES)?;
        Ok(Streams { once, twice, other })
    }

    /// The stream of a name, without a record where there is none.
    fn of(&self, name: &str) -> &[u8] {
        match name {
            "once" => &self.once,
            "twice" => &self.twice,
            "other" => &self.other,
            _ => &[],
        }
    }
}

/// The section that stands behind the pointer 0 of a packet.
fn section_in(packet: &[u8]) -> Result<&[u8], Fail> {
    let high = packet.get(6).ok_or("a shorter packet")?;
    let low = packet.get(7).ok_or("a shorter packet")?;
    let size = 3 + 256 * usize::from(*high & 0x0F) + usize::from(*low);
    Ok(packet.get(5..5 + size).ok_or("a longer section")?)
}

/// Appends a packet with the head of the first, and the sections of both.
fn put_both(into: &mut Vec<u8>, first: &[u8], second: &[u8]) -> Result<(), Fail> {
    let end = into.len().saturating_add(188);
    into.extend_from_slice(first.get(..5).ok_or("a shorter packet")?)?;
    into.extend_from_slice(section_in(first)?)?;
    into.extend_from_slice(section_in(second)?)?;
    for _ in into.len()..end {
        into.push(0xFF)?;
    }
    Ok(())
}

/// The record of a stream that a word names.
fn record_of<'a>(stream: &'a [u8], word: &str) -> Result<&'a [u8], Fail> {
    let number = word.parse::<usize>()?;
    records_of(stream, number, number)
}

/// Appends what a word of a recording says, with a stream for words that name none.
fn put_word(into: &mut Vec<u8>, streams: &Streams, own: &str, word: &str) -> Result<(), Fail> {
    let (name, records) = word.split_once('/').unwrap_or((own, word));
    let stream = streams.of(name);
    match records.split_once('+') {
        Some((first, second)) => {
            put_both(into, record_of(stream, first)?, record_of(stream, second)?)
        }
        None => {
            let (first, last) = range_of(records)?;
            into.extend_from_slice(records_of(stream, first, last)?)?;
            Ok(())
        }
    }
}

/// The recording of words.
fn recording_of(alloc: Global, streams: &Streams, own: &str, words: &str) -> Result<Vec<u8>, Fail> {
    let mut recording = Vec::new(alloc);
    for word in words.split_whitespace() {
        put_word(&mut recording, streams, own, word)?;
    }
    Ok(recording)
}

/// What comes under the settings of the files that move once.
const OF_ONCE: Reception = Reception {
    settings: ONCE,
    services: &[("files", FOUR_FILES)],
    whole: "stream records=103 other=97|files heard=4 units=4 gives 0-3|table units=2 version=1 rules 239.2.0.0/16",
};

/// What comes under those of the files that move twice.
const OF_TWICE: Reception = Reception {
    settings: TWICE,
    whole: "stream records=203 other=196|files heard=4 units=4 gives 0-3|table units=3 version=2 rules 239.2.0.0/16",
    ..OF_ONCE
};

const CASES: &str = "nothing is lost|once|0-102
the INT of the change is lost|once|0-99 101-102|stream records=102 other=99|files heard=2 units=2 gives 0-1|table units=1 version=0 rules 239.2.0.0/16
the first INT is lost|once|1-102|stream records=102 other=97|table units=1 version=1 rules 239.2.0.0/16
# the unit under way has no event
the last packet before the change is lost|once|0-1 3-102|stream records=102 other=97|files heard=3 units=3 gives 0 2-3
the first packet behind the change is lost|once|0-100 102|stream records=102 other=97|files heard=3 units=2 gives 0-1
# what comes on the PID that was left is of nobody
packets of the old PID come behind the change|once|0-1 100 2 101-102|stream records=6 other=1|files heard=3 units=3 gives 0 2-3
packets of the new PID come before the change|once|0-2 101 100 102|stream records=6 other=1|files heard=3 units=2 gives 0-1
an old INT comes again|once|0-2 100-101 0 102|stream records=7|table units=3 version=1 rules 239.2.0.0/16
an INT of a version that the plan doesn't have|once|0-2 twice/200 101-102|stream records=6 other=2|files heard=2 units=2 gives 0-1|table units=2 version=0 rules 239.2.0.0/16
an INT of another platform|once|0-2 other/100 101-102|stream records=6 other=2|files heard=2 units=2 gives 0-1|table units=2 version=0 rules 239.2.0.0/16
two changes|twice|0-202
two versions end in one packet|twice|0-1 100+200 101 201-202|stream records=6 other=1|files heard=3 units=3 gives 0 2-3
the older of two versions comes last|twice|0-1 200+100 101 201-202|stream records=6 other=1|files heard=3 units=3 gives 0 2-3";

/// What comes under the settings of a stream.
fn reception_of(own: &str) -> Result<Reception<'static>, Fail> {
    match own {
        "once" => Ok(OF_ONCE),
        "twice" => Ok(OF_TWICE),
        _ => Err("no such settings".into()),
    }
}

/// What comes of a recording is what a line says.
fn line_comes(alloc: Global, streams: &Streams, line: &str) -> Result<(), Fail> {
    if line.starts_with("#") {
        return Ok(());
    }
    let (case, rest) = line.split_once('|').ok_or("no stream")?;
    let (own, rest) = rest.split_once('|').ok_or("no recording")?;
    let (words, columns) = rest.split_once('|').unwrap_or((rest, ""));
    let reception = reception_of(own)?;
    let recording = recording_of(alloc, streams, own, words)?;
    comes(alloc, case, &reception, &recording, columns)
}

/// The version in force is the highest that an accepted INT of the platform has said; a service is received where this version has it.
#[test]
fn a_service_is_heard_where_the_version_in_force_has_it(rt: HostRuntime) -> Result<(), Fail> {
    let streams = Streams::new(rt.alloc())?;
    for line in CASES.lines() {
        line_comes(rt.alloc(), &streams, line)?;
    }
    Ok(())
}
