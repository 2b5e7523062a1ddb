//! Packets by hand, after ISO/IEC 13818-1 clause 2.4.3.2.
use hex::FromHex;
use std::alloc::{AllocError as OutOfMemory, Global};
use std::process::Abort;
use std::test::Fail;
use test_lines::{expect, expect_lines};
use ts_packet::{Continuity, parse, write_header, write_null, write_packet};

/// The packet that begins with 6 bytes, and has FF after them.
fn packet_of(digits: &str) -> Result<[u8; 188], Fail> {
    let mut bytes = [0xFF; 188];
    bytes[..6].copy_from_slice(&<[u8; 6]>::from_hex(digits)?);
    Ok(bytes)
}

/// PID, start indicator, counter, discontinuity indicator and bytes of payload of a packet, or the fault.
fn text_of(alloc: Global, bytes: &[u8; 188]) -> Result<String, OutOfMemory> {
    match parse(bytes) {
        Ok(it) => format!(in alloc;
            "{:04x} {} {} {} {}",
            it.pid,
            it.starts,
            it.counter,
            it.broken,
            it.payload.len()
        ),
        Err(fault) => format!(in alloc; "{fault:?}"),
    }
}

/// The same of the packet that begins with these digits.
fn read_of(alloc: Global, digits: &str) -> Result<String, Fail> {
    Ok(text_of(alloc, &packet_of(digits)?)?)
}

/// First the first packet of an SDT (EN 300 468: PID 0x0011).
/// Then adaptation fields of 0, 1, 182 and 183 bytes: the flags stand in the first of them.
/// Then packets with several faults, of which the first test that fails is named.
const PACKETS: &str = "\
474011100042|0011 true 0 false 184
471fff10ffff|1fff false 0 false 184
4701003a0080|0100 false 10 false 183
4701003f0180|0100 false 15 true 182
47010030b67f|0100 false 0 false 1
47010030b700|Adaptation
488100c00000|NoSync
478100c00000|Marked
470100c00000|Adaptation
47010060b700|NoPayload
470100500000|Scrambled
470100900000|Scrambled";

#[test]
fn packets_are_read_and_each_fault_is_named(rt: HostRuntime) -> Result<(), Fail> {
    expect_lines(rt.alloc(), read_of, PACKETS)
}

/// Fails where the packet of a line follows otherwise.
fn follow(alloc: Global, continuity: &mut Continuity, line: &str) -> Result<(), Fail> {
    let Some((given, due)) = line.split_once('|') else {
        return Err(Fail::new("no bar"));
    };
    let bytes = packet_of(given)?;
    let packet = parse(&bytes)?;
    let link = format!(in alloc; "{:?}", continuity.see(&bytes, &packet))?;
    expect(given, &link, due)
}

/// The packets of one recording.
const FOLLOWING: &str = "\
4701001e0000|First
4701001f0000|Next
470100100000|Next
470100100000|Repeat
470100100000|Repeat
470100100001|Gap
470100110000|Next
470100130000|Gap
470100340180|Gap";

#[test]
fn packets_follow_by_counter_and_bytes(rt: HostRuntime) -> Result<(), Fail> {
    let mut continuity = Continuity::new();
    for line in FOLLOWING.lines() {
        follow(rt.alloc(), &mut continuity, line)?;
    }
    Ok(())
}

/// Asserts that a packet begins with 6 bytes, and has FF after them.
fn assert_packet(rt: &impl Abort, bytes: &[u8; 188], digits: &str) -> Result<(), Fail> {
    assert!(rt; *bytes == packet_of(digits)?, "{digits}");
    Ok(())
}

#[test]
fn packets_are_written(rt: HostRuntime) -> Result<(), Fail> {
    let mut payload = [0xFF; 184];
    payload[0] = 0x00;
    payload[1] = 0x42;
    let mut bytes = [0; 188];
    write_packet(&mut bytes, 0x0011, true, 0, &payload);
    assert_packet(&rt, &bytes, "474011100042")?;
    write_packet(&mut bytes, 0x0100, false, 15, &payload);
    assert_packet(&rt, &bytes, "4701001f0042")?;
    write_packet(&mut bytes, 0x1FFF, true, 3, &payload);
    assert_packet(&rt, &bytes, "475fff130042")?;
    // a header alone: the payload of the last packet stays
    write_header(&mut bytes, 0x0100, false, 1);
    assert_packet(&rt, &bytes, "470100110042")?;
    write_null(&mut bytes);
    assert_packet(&rt, &bytes, "471fff10ffff")
}
