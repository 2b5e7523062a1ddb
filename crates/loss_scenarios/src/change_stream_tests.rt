//! The stream of a plan that changes, packet by packet (ISO/IEC 13818-1 clause 2.4.3.2).
use crate::change_plans::{BOTH, EIGHT, FOUR_FILES, ONCE, records_of, stream_of};
use std::alloc::Global;
use std::test::Fail;
use test_recordings::{bytes_of, is_piece};

/// The packets that are no null packets, a line each: the slot; the head, with PID, whether a unit starts in it, and counter; byte 10 of an
/// INT's packet.
///
/// version_number stands in bits 1 to 5 of byte 5 of a section, which is byte 10 of the packet, between the two reserved bits and
/// current_next_indicator (clause 2.4.4). Counters of a new PID begin at 0, those of the INT and of a PID that stays go on.
const FILES_MOVE: &str = "0 47425810 C1
1 47420110
2 47020111
100 47425811 C3
101 47420210
102 47020211";

const BOTH_MOVE: &str = "0 47425810 C1
1 47420010
2 47420110
100 47425811 C3
101 47420011
102 47420210
200 47425812 C5
201 47420012
202 47420211
300 47425813 C7
301 4742C810
302 47420310";

/// The head of a null packet.
const NULL: &str = "471FFF10";

/// What a slot must have, where a line has its number.
fn at_slot(lines: &str, slot: usize) -> Result<Option<&str>, Fail> {
    for line in lines.lines() {
        let (number, words) = line.split_once(' ').ok_or("no head")?;
        if number.parse::<usize>()? == slot {
            return Ok(Some(words));
        }
    }
    Ok(None)
}

/// Whether a packet has the head and the version of a line.
fn is_told(alloc: Global, packet: &[u8], words: &str) -> Result<bool, Fail> {
    let (head, version) = words.split_once(' ').unwrap_or((words, ""));
    let head = bytes_of(alloc, head)?;
    let version = bytes_of(alloc, version)?;
    Ok(is_piece(packet, 0, &head) && is_piece(packet, 10, &version))
}

/// The first slot of a stream with another head or another version, or how many packets there are. Each line must be that of a slot.
fn difference(alloc: Global, stream: &[u8], packets: usize, lines: &str) -> Result<usize, Fail> {
    let mut told = 0usize;
    for slot in 0..packets {
        let words = at_slot(lines, slot)?;
        let packet = records_of(stream, slot, slot)?;
        if !is_told(alloc, packet, words.unwrap_or(NULL))? {
            return Ok(slot);
        }
        told = told.saturating_add(usize::from(words.is_some()));
    }
    if told != lines.lines().count() {
        return Err("a line of no slot".into());
    }
    Ok(stream.len() / 188)
}

/// The stream of a list of datagrams has so many packets, those of the lines and null packets.
fn goes_out(
    alloc: Global,
    case: &str,
    settings: &str,
    list: &str,
    packets: usize,
    lines: &str,
) -> Result<(), Fail> {
    let stream = stream_of(alloc, settings, list)?;
    let slot = difference(alloc, &stream, packets, lines)?;
    if slot != packets {
        return Err(Fail::new(format_args!("{case}: slot {slot}")));
    }
    Ok(())
}

#[test]
fn a_part_follows_the_cycle_of_the_part_before_it(rt: HostRuntime) -> Result<(), Fail> {
    let alloc = rt.alloc();
    goes_out(alloc, "the files move", ONCE, FOUR_FILES, 103, FILES_MOVE)?;
    goes_out(alloc, "both services move", BOTH, EIGHT, 303, BOTH_MOVE)
}
