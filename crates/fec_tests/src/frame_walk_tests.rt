//! Datagrams found in frames of 256 rows, whether their sections came or not.
ghost use Rattle.std.specs.Prelude.{◌≡◌};

use crate::tables::empty_table;
use fec_frame::{Table, TableAnswer};
use frame_walk::Walk;
use std::alloc::Global;
use std::test::Fail;
use test_lines::expect;

/// RFC 791 clause 3.1: a datagram of 20 bytes to 239.1.2.3.
const DATAGRAM: [u8; 20] = [
    0x45, 0, 0, 20, 0, 0, 0, 0, 0x40, 0x11, 0, 0, 10, 0, 0, 1, 239, 1, 2, 3,
];

/// EN 301 192 clause 9: the first parity byte of rows with these bytes in column 0 and zeros in the others, by long division in an
/// independent program.
const PARITY: [u8; 20] = [
    0xE9, 0, 0, 0x1E, 0, 0, 0, 0, 0x60, 0x97, 0, 0, 0x0F, 0, 0, 0x8F, 0x16, 0x8F, 0x03, 0x8C,
];

/// How many rows of a table are corrected and how many are not, and what a walk over it finds: D for the datagram.
fn found(alloc: Global, table: &mut Table<Global>) -> Result<String, Fail> {
    let counts = table.solve();
    let mut text = format!(in alloc; "{} corrected, {} left, ", counts.mended, counts.left)?;
    let mut walk = Walk::over(table);
    for _ in 0..4 {
        match walk.next() {
            Some(datagram) => text.push(if datagram == &DATAGRAM[..] { 'D' } else { '?' })?,
            None => text.push('.')?,
        }
    }
    Ok(text)
}

/// Of three datagrams in a frame the second is lost, and the section of the third has one more after it.
#[test]
fn a_walk_goes_on_after_unknown_bytes(rt: HostRuntime) -> Result<(), Fail> {
    let alloc = rt.alloc();
    let mut table = empty_table(alloc)?;
    let mut pair = [0; 40];
    pair[..20].copy_from_slice(&DATAGRAM);
    pair[20..].copy_from_slice(&DATAGRAM);
    let placed = table.data(0, false, false, &DATAGRAM) == TableAnswer::Placed
        && table.data(40, true, false, &pair) == TableAnswer::Placed;
    assert!(rt; placed);
    let due = "0 corrected, 20 left, DDD.";
    expect("a walk", &found(alloc, &mut table)?, due)
}

/// EN 301 192 clause 9: of a frame of three datagrams only one column of parity came: column 0 and 63 of parity are unknown.
#[test]
fn datagrams_come_back_without_their_sections(rt: HostRuntime) -> Result<(), Fail> {
    let alloc = rt.alloc();
    let mut table = empty_table(alloc)?;
    let mut column = [0; 256];
    column[..20].copy_from_slice(&PARITY);
    column[20..40].copy_from_slice(&PARITY);
    column[40..60].copy_from_slice(&PARITY);
    assert!(rt; table.parity(0, 190, 63, false, &column) == TableAnswer::Placed);
    let due = "256 corrected, 0 left, DDD.";
    expect("a walk", &found(alloc, &mut table)?, due)
}
