//! Plans and records by hand, for tests.
//!
//! A word says what the packet of a record carries, then its PID and its continuity_counter: `256/0` or `section:258/1`.
//!
//! | Word | What the packet carries |
//! |---|---|
//! | `256/0` | an SNDU |
//! | `head:256/0`, `tail:256/1` | the first 10 bytes of an SNDU, which end the packet; its other 18 bytes |
//! | `section:258/0` | a datagram_section |
//! | `int:600/0`, `next:600/1` | the sections of two versions of an INT |
//! | `frame:512/0` | three datagram_sections of a frame that goes on |
//! | `timeless:256/0` | an SNDU, in a record without a moment |
//! | `marked:256/0` | an SNDU, with transport_error_indicator |
//! | `scrambled:256/0` | an SNDU, scrambled |
//! | `unsynced:256/0` | an SNDU, after another sync_byte |
//! | `unloaded:256/0` | an adaptation field alone |
use service_plan::{Plan, read_plan};
use std::alloc::Global;
use std::test::Fail;
use test_recordings::settings::settings_of;
use test_recordings::units::{INT, NEXT_INT, SECTION, SNDU};
use test_recordings::{go_on, on_pid, start};
use ts_record::Record;

/// The plan of these settings.
pub(crate) fn plan_of(alloc: Global, settings: &[&str]) -> Result<Plan, Fail> {
    let settings = settings_of(alloc, settings)?;
    let Ok(plan) = read_plan(alloc, settings.as_bytes()) else {
        return Err("settings".into());
    };
    Ok(plan)
}

/// Three datagram_sections of one MPE-FEC frame (EN 301 192 clauses 7 and 9), with the addresses 0, 20 and 40. The last has
/// table_boundary, and none has frame_boundary.
const FRAME: [u8; 108] = [
    0x3E, 0xB0, 0x21, 0x03, 0x02, 0xC1, 0x00, 0x00, 0x00, 0x00, 0x00, 0x00, 0x45, 0x00, 0x00, 0x14,
    0x00, 0x00, 0x00, 0x00, 0x40, 0x11, 0x00, 0x00, 0x0A, 0x00, 0x00, 0x01, 0xEF, 0x01, 0x02, 0x03,
    0x1E, 0x4C, 0x39, 0x1A, 0x3E, 0xB0, 0x21, 0x03, 0x02, 0xC1, 0x00, 0x00, 0x00, 0x00, 0x00, 0x14,
    0x45, 0x00, 0x00, 0x14, 0x00, 0x00, 0x00, 0x00, 0x40, 0x11, 0x00, 0x00, 0x0A, 0x00, 0x00, 0x01,
    0xEF, 0x01, 0x02, 0x03, 0x6B, 0x78, 0x65, 0x57, 0x3E, 0xB0, 0x21, 0x03, 0x02, 0xC1, 0x00, 0x00,
    0x00, 0x08, 0x00, 0x28, 0x45, 0x00, 0x00, 0x14, 0x00, 0x00, 0x00, 0x00, 0x40, 0x11, 0x00, 0x00,
    0x0A, 0x00, 0x00, 0x01, 0xEF, 0x01, 0x02, 0x03, 0xC6, 0x45, 0xCF, 0x00,
];

/// The packet with them.
pub(crate) fn packet_of_frame() -> [u8; 188] {
    on_pid(start(0, 0, &FRAME), 512)
}

/// The packet in which an SNDU begins 10 bytes before the end: the pointer field leads past 173 bytes FF.
fn head_of_sndu(counter: u8) -> [u8; 188] {
    let mut bytes = [0xFF; 183];
    bytes[173..].copy_from_slice(&SNDU[..10]);
    start(counter, 173, &bytes)
}

/// The packet of an SNDU with another byte at a place of its head.
fn with_byte(counter: u8, place: usize, byte: u8) -> [u8; 188] {
    let mut bytes = start(counter, 0, &SNDU);
    if place < 188 {
        bytes[place] = byte;
    }
    bytes
}

/// The packet of PID 256 that carries what a word says.
fn packet_of(what: &str, counter: u8) -> Option<[u8; 188]> {
    let count = counter % 16;
    match what {
        "sndu" | "timeless" => Some(start(counter, 0, &SNDU)),
        "head" => Some(head_of_sndu(counter)),
        "tail" => Some(go_on(counter, &SNDU[10..])),
        "section" => Some(start(counter, 0, &SECTION)),
        "int" => Some(start(counter, 0, &INT)),
        "next" => Some(start(counter, 0, &NEXT_INT)),
        "frame" => Some(start(counter, 0, &FRAME)),
        "marked" => Some(with_byte(counter, 1, 0xC1)),
        "scrambled" => Some(with_byte(counter, 3, 0x90 + count)),
        "unsynced" => Some(with_byte(counter, 0, 0x46)),
        "unloaded" => Some(with_byte(counter, 3, 0x20 + count)),
        _ => None,
    }
}

/// The record of a word, at moment 0.
pub(crate) fn record_of(word: &str) -> Option<Record> {
    let (what, place) = word.split_once(':').unwrap_or(("sndu", word));
    let (pid, counter) = place.split_once('/')?;
    let packet = packet_of(what, counter.parse::<u8>().ok()?)?;
    Some(Record {
        moment: if what == "timeless" { None } else { Some(0) },
        bytes: on_pid(packet, pid.parse::<u16>().ok()?),
    })
}
