//! Frames of 256 rows, packet by packet: when each is closed, and what is counted (EN 301 192 clauses 7 and 9).
ghost use Rattle.std.specs.Prelude.{◌≡◌, ◌<◌, ◌^◌, IfOk};

use crate::buffers::zeros;
use crate::counting_outlet::{DATAGRAM, Noted, SERVICE, Seen, rises};
use fec_frame::Table;
use fec_reception::FecReception;
use ipe_io::Failed;
use mpe_section::{Fec, RealTime, write_fec, write_mpe};
use std::alloc::{AllocError as OutOfMemory, Global};
use std::test::Fail;
use test_lines::expect;
use test_recordings::{go_on, start};
use ts_packet::parse;

/// EN 301 192 clause 9: the first parity byte of rows with the bytes of `DATAGRAM` in column 0 and zeros in the others, by long
/// division in an independent program.
const PARITY: [u8; 20] = [
    0xE9, 0, 0, 0x1E, 0, 0, 0, 0, 0x60, 0x97, 0, 0, 0x0F, 0, 0, 0x8F, 0x16, 0x8F, 0x03, 0x8C,
];

/// The datagram_section of `DATAGRAM`.
fn data_section(delta: u16, address: u32, table_boundary: bool) -> [u8; 36]
    requires delta { delta < 2 ^ 12 }
    requires address { address < 2 ^ 18 }
{
    let mut unit = [0; 36];
    let real_time = RealTime {
        delta,
        table_boundary,
        frame_boundary: false,
        address,
    };
    let _ = write_mpe([0; 6], Some(real_time), &DATAGRAM, &mut unit);
    unit
}

/// The one column of a frame whose application data is one `DATAGRAM`, with frame_boundary.
fn column_section(delta: u16) -> [u8; 272]
    requires delta { delta < 2 ^ 12 }
{
    let mut column = [0; 256];
    column[..20].copy_from_slice(&PARITY);
    let mut unit = [0; 272];
    let fec = Fec {
        padding: 190,
        number: 0,
        last: 0,
        real_time: RealTime {
            delta,
            table_boundary: true,
            frame_boundary: true,
            address: 0,
        },
        column: &column,
    };
    let _ = write_fec(&fec, &mut unit);
    unit
}

/// A table of 256 rows.
fn new_table(alloc: Global) -> Result<Table<Global>, OutOfMemory>
    ensures rows { IfOk result (λ table. table.rows ≡ 256) }
{
    let bytes = zeros(alloc, 65_280)?;
    let marks = zeros(alloc, 65_280)?;
    Ok(Table::over(256, bytes, marks, zeros(alloc, 16_640)?))
}

/// A reception of frames of 256 rows, its outlet, and the number of packets taken.
#[derive(Drop)]
struct Receiver {
    reception: FecReception<Global>,
    outlet: Noted,
    packets: u8,
}

/// A receiver whose outlet takes so many datagrams. With time slicing moments count ten units to ten milliseconds.
fn new_receiver(alloc: Global, sliced: bool, room: u64) -> Result<Receiver, OutOfMemory> {
    let table = new_table(alloc)?;
    Ok(Receiver {
        reception: FecReception::over(zeros(alloc, 4096)?, table, sliced, 10),
        outlet: Noted::new(&DATAGRAM, SERVICE, room),
        packets: 0,
    })
}

/// Takes a packet.
fn take(receiver: &mut Receiver, bytes: &[u8; 188], moment: u64) -> Result<(), Failed> {
    receiver.packets = receiver.packets.wrapping_add(1);
    let outlet = &mut receiver.outlet;
    match parse(bytes) {
        Ok(packet) => receiver
            .reception
            .take(bytes, &packet, moment, SERVICE, outlet),
        Err(_) => Err(Failed),
    }
}

/// Takes the packet in which a section starts, with the next continuity_counter.
fn take_start(receiver: &mut Receiver, section: &[u8], moment: u64) -> bool {
    let packet = start(receiver.packets, 0, section);
    take(receiver, &packet, moment).is_ok()
}

/// Takes the packet of a datagram_section.
fn take_data(receiver: &mut Receiver, fields: &str) -> Option<bool> {
    let (delta, fields) = fields.split_once(' ')?;
    let (address, fields) = fields.split_once(' ')?;
    let (boundary, moment) = fields.split_once(' ')?;
    let delta = delta.parse::<u16>().ok()?;
    let address = address.parse::<u32>().ok()?;
    let moment = moment.parse::<u64>().ok()?;
    if delta > 4095 || address > 262_143 {
        return None;
    }
    let section = data_section(delta, address, boundary == "end");
    Some(take_start(receiver, &section, moment))
}

/// Takes the two packets of a column.
fn take_column(receiver: &mut Receiver, delta: u16) -> Option<bool> {
    if delta > 4095 {
        return None;
    }
    let section = column_section(delta);
    let first = take_start(receiver, &section, 0);
    let packet = go_on(receiver.packets, &section[183..]);
    let second = take(receiver, &packet, 0);
    Some(first && second.is_ok())
}

/// Does what the words say; false where a datagram was refused.
fn act(receiver: &mut Receiver, words: &str) -> Option<bool> {
    let (word, fields) = words.split_once(' ')?;
    match word {
        "data" => take_data(receiver, fields),
        "column" => take_column(receiver, fields.parse::<u16>().ok()?),
        "begin" => {
            receiver.reception.begin_anew();
            Some(true)
        }
        _ => Some(
            receiver
                .reception
                .close(SERVICE, &mut receiver.outlet)
                .is_ok(),
        ),
    }
}

/// What is counted so far.
fn seen(receiver: &Receiver) -> Seen {
    Seen {
        counts: receiver.reception.counts(),
        outlet: receiver.outlet,
    }
}

/// Fails where a line has another outcome than the one after its bar: how much the numbers rise.
fn check(alloc: Global, receiver: &mut Receiver, line: &str) -> Result<(), Fail> {
    let (words, due) = line.split_once('|').unwrap_or(("", ""));
    let old = seen(receiver);
    let Some(is_ok) = act(receiver, words) else {
        return Err(Fail::new(format_args!("{line}: no such act")));
    };
    let outcome = rises(alloc, &old, &seen(receiver), is_ok)?;
    expect(line, &outcome, due)
}

/// Fails where a line has another outcome with a new receiver, whose outlet takes so many datagrams.
fn check_all(alloc: Global, sliced: bool, room: u64, lines: &str) -> Result<(), Fail> {
    let mut receiver = new_receiver(alloc, sliced, room)?;
    for line in lines.lines() {
        check(alloc, &mut receiver, line)?;
    }
    Ok(())
}

/// Without time slicing. A line has `data`, with the index of the frame, the address, `end` where table_boundary is set, and the moment;
/// `column`, with the index; `end of recording`; or `begin anew`.
///
/// A frame of two datagrams is closed by the next index, one of a datagram and a column by frame_boundary, and the last one at the end.
/// A datagram behind the application data table closes none. Of the first frame no row lacks application data, since table_boundary
/// tells zeros after its datagrams; of the second, 20 rows lack none; of the third all 256 do, and no column came.
const UNSLICED: &str = "data 0 0 - 0|heard 1 units 1
data 0 20 end 0|heard 1 units 1
data 1 0 - 0|heard 1 units 1 frames 1 datagrams 2 delivered 2
column 1|heard 2 units 1 frames 1 rows_mended 236 datagrams 1 delivered 1
data 2 0 - 0|heard 1 units 1
data 3 48880 - 0|heard 1 units 1 unread 1
end of recording|frames 1 rows_left 256 datagrams 1 delivered 1";

/// With time slicing: a delta_t of 3 announces the next burst after 30 units of time, and not one before.
const SLICED: &str = "data 3 0 - 100|heard 1 units 1
data 3 20 - 129|heard 1 units 1
data 3 40 - 159|heard 1 units 1 frames 1 rows_left 256 datagrams 2 delivered 2
begin anew|
end of recording|";

/// After a refused datagram of a frame none is offered, and all are counted.
const REFUSED: &str = "data 0 0 - 0|heard 1 units 1
data 0 20 - 0|heard 1 units 1
data 0 40 end 0|heard 1 units 1
data 1 0 - 0|heard 1 units 1 frames 1 datagrams 3 delivered 1 refused 1 failed 1";

#[test]
fn each_frame_is_closed_once(rt: HostRuntime) -> Result<(), Fail> {
    check_all(rt.alloc(), false, 1000, UNSLICED)?;
    check_all(rt.alloc(), true, 1000, SLICED)?;
    check_all(rt.alloc(), false, 1, REFUSED)
}
