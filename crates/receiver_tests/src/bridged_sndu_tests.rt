//! SNDUs by hand (RFC 4326 sections 4 and 5), each whole in one packet; their CRC-32 was worked out apart from this program.
use crate::bridge_outlet::{outlet_of, put_text, text_of};
use crate::buffers::{empty_slots, zeros};
use bridge_frame::Bridge;
use std::alloc::Global;
use std::test::Fail;
use test_lines::expect;
use test_recordings::{on_pid, start};
use ts_record::Record;

/// What it is; the packet's PID; the SNDU, where FRAME is an Ethernet frame of 60 bytes; and what a bridge of PID 256 delivers of the packet and
/// a duplicate of it: frames, others, refused.
const SNDUS: &str = "alone|256|80400001 FRAME BC0730EC|1 0 0
to an address|256|00460001 0200000000AA FRAME 23319065|1 0 0
behind an optional header|256|80440201 07070001 FRAME 1EC673B5|1 0 0
behind an unknown mandatory one|256|80400003 FRAME 74833B79|0 0 0
a datagram|256|80180800 4500001400000000 401100000A000001 EF010203 64AEE84A|0 0 0
13 bytes|256|80110001 FF*6 020000000001 88 126439E9|0 0 0
14 bytes|256|80120001 FF*6 020000000001 88B5 B324BCEC|0 1 0
a wrong CRC-32|256|80400001 FRAME BC0730ED|0 0 0
on PID 257|257|80400001 FRAME BC0730EC|0 0 0
without a moment|256|80400001 FRAME BC0730EC|0 0 0";

/// The columns of a line.
#[derive(Clone, Copy)]
struct Case<'a> {
    name: &'a str,
    pid: u16,
    unit: &'a str,
    due: &'a str,
}

/// Reads a line.
fn read_line(line: &str) -> Option<Case<'_>> {
    let (name, rest) = line.split_once('|')?;
    let (pid, rest) = rest.split_once('|')?;
    let (unit, due) = rest.split_once('|')?;
    Some(Case {
        name,
        pid: pid.parse::<u16>().ok()?,
        unit,
        due,
    })
}

/// The record of the packet with the SNDU of a case.
fn record_of(alloc: Global, case: &Case<'_>) -> Result<Record, Fail> {
    let mut unit = Vec::new(alloc);
    put_text(alloc, &mut unit, case.unit)?;
    let is_without = case.name == "without a moment";
    Ok(Record {
        moment: if is_without { None } else { Some(0) },
        bytes: on_pid(start(0, 0, &unit), case.pid),
    })
}

/// What an outlet with room for so many frames is given of a record and a duplicate of it.
fn outcome_of(alloc: Global, item: &Record, room: u64) -> Result<String, Fail> {
    let mut bridge = Bridge::over(zeros(alloc, 32_771)?, empty_slots(alloc, 0)?, true);
    bridge.select(256);
    let mut outlet = outlet_of(room);
    let first = bridge.step(item, &mut outlet);
    let again = bridge.step(item, &mut outlet);
    if first.is_ok() != (outlet.refused == 0) || again.is_err() {
        return Err(Fail::new("an answer does not fit"));
    }
    Ok(text_of(alloc, &outlet)?)
}

/// Receives the SNDU of a line into an outlet with room for so many frames.
fn receive(alloc: Global, line: &str, room: u64) -> Result<(), Fail> {
    let Some(case) = read_line(line) else {
        return Err(Fail::new(format_args!("{line}: no case")));
    };
    let item = record_of(alloc, &case)?;
    expect(case.name, &outcome_of(alloc, &item, room)?, case.due)
}

#[test]
fn frames_in_sndus_are_delivered(rt: HostRuntime) -> Result<(), Fail> {
    for line in SNDUS.lines() {
        receive(rt.alloc(), line, 9)?;
    }
    Ok(())
}

/// After a refused frame the bridge stands as after one that was taken: the duplicate gives nothing.
#[test]
fn a_refused_frame_is_received_all_the_same(rt: HostRuntime) -> Result<(), Fail> {
    let line = "refused|256|80400001 FRAME BC0730EC|0 0 1";
    receive(rt.alloc(), line, 0)
}
