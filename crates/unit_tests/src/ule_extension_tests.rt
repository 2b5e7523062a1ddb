//! Chains by hand, after RFC 4326 sections 4.4 and 5.
use crate::cases::expect_read;
use std::alloc::{AllocError as OutOfMemory, Global};
use std::test::Fail;
use ule_extension::{bridged, datagram, walk};

/// A Type, and the bytes after it.
fn typed(bytes: &[u8]) -> Option<(u16, &[u8])> {
    let [high, low, rest @ ..] = bytes else {
        return None;
    };
    Some((u16::from_be_bytes([*high, *low]), rest))
}

/// The EtherType at the end of the chain and the bytes after it, or the fault.
fn end_of(alloc: Global, bytes: &[u8]) -> Result<String, OutOfMemory> {
    let Some((first_type, bytes)) = typed(bytes) else {
        return "no Type".to_string(alloc);
    };
    match walk(first_type, bytes) {
        Ok(it) => format!(in alloc; "{:04x} [{}]", it.ether_type, hex::encode(alloc, it.bytes)?),
        Err(fault) => format!(in alloc; "{fault:?}"),
    }
}

/// RFC 4326 section 5: H-LEN 1 to 5 is a header of 2 to 10 bytes, the last two of which are the next Type.
/// Of 2,001 padding headers the last is cut.
const CHAINS: &str = "\
0800 0102|0800 [0102]
0600|0600 []
0100 86dd 09|86dd [09]
0301 01020304 0207 0506 0800 07|0800 [07]
05ff 00*8 0800|0800 []
05ff 00*8 08|Cut
0100 0100*2000|Cut
0000 0102|Test
0001 0102|Bridged
0002|Mandatory(2)
00ff 0102|Mandatory(255)
0100 0001 02|Bridged";

#[test]
fn chains_are_followed_and_each_fault_is_named(rt: HostRuntime) -> Result<(), Fail> {
    expect_read(rt.alloc(), end_of, CHAINS)
}

/// The datagram after a chain, or the fault.
fn datagram_of(alloc: Global, bytes: &[u8]) -> Result<String, OutOfMemory> {
    let Some((first_type, bytes)) = typed(bytes) else {
        return "no Type".to_string(alloc);
    };
    match datagram(first_type, bytes) {
        Ok(datagram) => hex::encode(alloc, datagram),
        Err(fault) => format!(in alloc; "{fault:?}"),
    }
}

/// RFC 4326 section 4.7: the EtherType announces the version. The datagram is an IPv4 header and no more (RFC 791 section 3.1).
const DATAGRAMS: &str = "\
0800 450000140000000040110000 0a000001 ef010203|4500001400000000401100000a000001ef010203
0100 0800 450000140000000040110000 0a000001 ef010203 0000|4500001400000000401100000a000001ef010203
86dd 450000140000000040110000 0a000001 ef010203|Datagram(Version)
0800 450000140000000040110000 0a000001 ef0102|Datagram(Short)
0806 450000140000000040110000 0a000001 ef010203|NotIp
0100 08|Extension(Cut)";

#[test]
fn datagrams_are_lent_and_each_fault_is_named(rt: HostRuntime) -> Result<(), Fail> {
    expect_read(rt.alloc(), datagram_of, DATAGRAMS)
}

/// The bridged frame after a chain.
fn frame_of(alloc: Global, bytes: &[u8]) -> Result<String, OutOfMemory> {
    let Some((first_type, bytes)) = typed(bytes) else {
        return "no Type".to_string(alloc);
    };
    match bridged(first_type, bytes) {
        Some(frame) => hex::encode(alloc, frame),
        None => "none".to_string(alloc),
    }
}

/// RFC 4326 section 5.2: a frame of at least an Ethernet header stands after Type 1.
const FRAMES: &str = "\
0001 0102030405060708090a0b0c0d0e0f|0102030405060708090a0b0c0d0e0f
0100 0001 00*14|0000000000000000000000000000
0001 00*13|none
0800 0102030405060708090a0b0c0d0e0f|none";

#[test]
fn frames_are_lent(rt: HostRuntime) -> Result<(), Fail> {
    expect_read(rt.alloc(), frame_of, FRAMES)
}
