//! Sections by the syntax of EN 301 192, written by hand; an independent program gave their CRC_32.
use crate::cases::{expect_digits, expect_read};
use hex::FromHex;
use mpe_section::{Fec, Mpe, RealTime, read_fec, read_mpe, write_fec, write_mpe, write_mpe_around};
use section_codec::SectionRef;
use std::alloc::{AllocError as OutOfMemory, Global};
use std::test::Fail;
use test_recordings::bytes_of;

const MAC: [u8; 6] = [1, 0, 0x5E, 1, 2, 3];

/// An IPv4 datagram of its header alone, to 239.1.2.3.
const DATAGRAM: &str = "4500001400000000401100000a000001ef010203";

/// Appends delta_t, table_boundary, frame_boundary and address, and bytes.
fn put_timed(text: &mut String, time: &RealTime, bytes: &[u8]) -> Result<(), OutOfMemory> {
    write!(
        text,
        " {} {} {} {} ",
        time.delta, time.table_boundary, time.frame_boundary, time.address
    )?;
    for byte in bytes {
        write!(text, "{byte:02x}")?;
    }
    Ok(())
}

/// The section of a table_id and a body.
fn section_of(bytes: &[u8]) -> Option<SectionRef<'_>> {
    let (table_id, body) = bytes.split_first()?;
    Some(SectionRef {
        table_id: *table_id,
        body,
    })
}

/// MAC address, real-time parameters and datagram.
fn text_of_mpe(alloc: Global, mpe: &Mpe<'_>) -> Result<String, OutOfMemory> {
    let mut text = hex::encode(alloc, mpe.mac)?;
    put_timed(&mut text, &mpe.real_time, mpe.datagram)?;
    Ok(text)
}

/// A table_id and a body -> the fields of an MPE section, or the fault.
fn mpe_of(alloc: Global, bytes: &[u8]) -> Result<String, OutOfMemory> {
    let Some(section) = section_of(bytes) else {
        return "no table_id".to_string(alloc);
    };
    match read_mpe(&section) {
        Ok(mpe) => text_of_mpe(alloc, &mpe),
        Err(fault) => format!(in alloc; "{fault:?}"),
    }
}

/// EN 301 192 clause 7: each field at its place, the first four bytes of the address as parameters too, and bytes after the
/// datagram. Then one byte is changed, the table_id is another, or the datagram is missing.
const DATAGRAMS: &str = "\
3e 0302c1 0000 015e0001 45000014 00000000401100000a000001 ef010203 ff|01005e010203 21 true true 131073 4500001400000000401100000a000001ef010203
3e 0302c0 0000 015e0001 45000014 00000000401100000a000001 ef010203|Next
3e 0302e1 0000 015e0001 45000014 00000000401100000a000001 ef010203|Scrambled
3e 0302c5 0000 015e0001 45000014 00000000401100000a000001 ef010203|Scrambled
3e 0302c3 0000 015e0001 45000014 00000000401100000a000001 ef010203|LlcSnap
3e 0302c1 0100 015e0001 45000014 00000000401100000a000001 ef010203|Numbers
3e 0302c1 0001 015e0001 45000014 00000000401100000a000001 ef010203|Numbers
3e 0302c1 0000 015e0001 55000014 00000000401100000a000001 ef010203|Datagram(Version)
3e 0302c1 0000 015e0001 45000015 00000000401100000a000001 ef010203|Datagram(Length)
3f 0302c1 0000 015e0001 45000014 00000000401100000a000001 ef010203|Table
3e 0302c1 0000|Datagram(Short)";

#[test]
fn datagrams_are_read_and_each_fault_is_named(rt: HostRuntime) -> Result<(), Fail> {
    expect_read(rt.alloc(), mpe_of, DATAGRAMS)
}

/// The same section is written, and no byte after it; what it has around the datagram; and one with delta_t 200, table_boundary
/// and address 6,720 in the place of the address's first four bytes (EN 301 192 clause 9).
#[test]
fn datagrams_are_written(rt: HostRuntime) -> Result<(), Fail> {
    let alloc = rt.alloc();
    let datagram = <[u8; 20]>::from_hex(DATAGRAM)?;
    let mut into = [0xEE; 37];
    assert!(rt; write_mpe(MAC, None, &datagram, &mut into) == 36);
    let want = "3eb0210302c10000015e00014500001400000000401100000a000001ef010203599a2733ee";
    expect_digits(alloc, &into, want)?;
    let mut around = [0; 16];
    assert!(rt; write_mpe_around(MAC, &datagram, &mut around) == 12);
    expect_digits(alloc, &around, "3eb0210302c10000015e0001599a2733")?;
    let real_time = RealTime {
        delta: 200,
        table_boundary: true,
        frame_boundary: false,
        address: 6720,
    };
    assert!(rt; write_mpe(MAC, Some(real_time), &datagram, &mut into) == 36);
    let want = "3eb0210302c100000c881a404500001400000000401100000a000001ef0102033a8978beee";
    expect_digits(alloc, &into, want)
}

/// EN 301 192 clause 7: the longest datagram fills a section of 4,096 bytes.
#[test]
fn a_datagram_of_4080_bytes_fills_a_section(rt: HostRuntime) -> Result<(), Fail> {
    let mut datagram = [0u8; 4080];
    datagram[..20].copy_from_slice(&<[u8; 20]>::from_hex(
        "45000ff000000000401100000a000001ef010203",
    )?);
    let mut into = [0u8; 4096];
    assert!(rt; write_mpe(MAC, None, &datagram, &mut into) == 4096);
    let want =
        "3ebffd 0302c1 0000 015e0001 45000ff0 00000000401100000a000001 ef010203 00*4060 64a8f067";
    assert!(rt; into.as_slice() == bytes_of(rt.alloc(), want)?.as_slice());
    Ok(())
}

/// Padding columns, section_number, last_section_number, real-time parameters and column.
fn text_of_fec(alloc: Global, fec: &Fec<'_>) -> Result<String, OutOfMemory> {
    let mut text = format!(in alloc; "{} {} {}", fec.padding, fec.number, fec.last)?;
    put_timed(&mut text, &fec.real_time, fec.column)?;
    Ok(text)
}

/// Rows in two bytes, a table_id and a body -> the fields of an MPE-FEC section, or the fault.
fn fec_of(alloc: Global, bytes: &[u8]) -> Result<String, OutOfMemory> {
    let [high, low, section @ ..] = bytes else {
        return "no rows".to_string(alloc);
    };
    let Some(section) = section_of(section) else {
        return "no table_id".to_string(alloc);
    };
    match read_fec(&section, u16::from_be_bytes([*high, *low])) {
        Ok(fec) => text_of_fec(alloc, &fec),
        Err(fault) => format!(in alloc; "{fault:?}"),
    }
}

/// EN 301 192 clause 9: two rows, and each fault by one byte that is changed or missing.
const COLUMNS: &str = "\
0002 78 beffff 05 3f 00140500 0708|190 5 63 1 false true 1280 0708
0200 78 beffff 05 3f 00140500 07*256|Rows
0001 78 befffe 05 3f 00000000 07|Next
0001 78 bfffff 05 3f 00000000 07|Padding
0001 78 beffff 05 04 00000000 07|Number
0001 78 beffff 05 40 00000000 07|Number
0000 3e beffff 05 3f 000000|Table
0000 78 beffff 05 3f 000000|Rows";

#[test]
fn columns_are_read_and_each_fault_is_named(rt: HostRuntime) -> Result<(), Fail> {
    expect_read(rt.alloc(), fec_of, COLUMNS)
}

/// EN 301 192 clause 9: a column of 256 rows is written, and read again.
#[test]
fn a_column_is_written_and_read(rt: HostRuntime) -> Result<(), Fail> {
    let column = [7u8; 256];
    let fec = Fec {
        padding: 190,
        number: 5,
        last: 63,
        real_time: RealTime {
            delta: 1,
            table_boundary: false,
            frame_boundary: true,
            address: 1280,
        },
        column: &column,
    };
    let mut into = [0u8; 272];
    assert!(rt; write_fec(&fec, &mut into) == 272);
    let want = "78b10d beffff 05 3f 00140500 07*256 abbaf929";
    assert!(rt; into.as_slice() == bytes_of(rt.alloc(), want)?.as_slice());
    let section = SectionRef {
        table_id: 0x78,
        body: &into[3..268],
    };
    assert!(rt; read_fec(&section, 256) == Ok(fec));
    Ok(())
}
