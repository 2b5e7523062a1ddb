//! What is counted of packets by hand, and which datagrams are delivered.
use crate::reception_cases::{Case, SECTIONS, SNDUS, packet_of, read_line};
use addr_rules::MacList;
use ipe_io::Failed;
use section_codec::SectionForm;
use service_reception::{Reception, UnitReader};
use std::alloc::Global;
use std::test::Fail;
use test_lines::expect_lines;
use test_recordings::units::{DATAGRAM, SECTION, SNDU};
use test_recordings::{NotedOutlet, counts_of, go_on, start};
use ts_packet::parse;
use ule_unit::UleForm;
use unit_stream::UnitForm;

/// The service of all tests.
const SERVICE: u32 = 3;

/// Takes a packet, where it can be read.
fn take<K: UnitReader>(
    reception: &mut Reception<K, Global>,
    bytes: &[u8; 188],
    filter: &MacList,
    noted: &mut NotedOutlet,
) -> Result<(), Failed> {
    match parse(bytes) {
        Ok(packet) => reception.take(bytes, &packet, 0, filter, SERVICE, noted),
        Err(_) => Ok(()),
    }
}

/// A reception that has taken nothing.
fn reception_of<K: UnitReader>(alloc: Global) -> Result<Reception<K, Global>, Fail> {
    let buffer = vec![in alloc; 0u8; K::LONGEST]?;
    Ok(Reception::over(buffer))
}

/// A filter that lists an address, or none.
fn filter_of(alloc: Global, listed: Option<[u8; 6]>) -> Result<MacList, Fail> {
    let mut filter = MacList::new(alloc);
    if let Some(mac) = listed {
        filter.push(mac)?;
    }
    Ok(filter)
}

/// Fails where a reception has counted other numbers than those of the words, or where not as many right datagrams came.
fn expect_counts<K: UnitReader>(
    name: &str,
    reception: &Reception<K, Global>,
    noted: &NotedOutlet,
    words: &str,
) -> Result<(), Fail> {
    let counts = counts_of(words)?;
    if reception.counts() != counts || noted.order().len() as u64 != counts.datagrams {
        return Err(Fail::new(name));
    }
    Ok(())
}

/// Takes the packets of a case, and the one of a good unit.
fn take_case<K: UnitReader>(
    reception: &mut Reception<K, Global>,
    filter: &MacList,
    case: &Case<'_>,
    packets: [[u8; 188]; 2],
    noted: &mut NotedOutlet,
) -> Result<(), Fail> {
    let [packet, good] = packets;
    for _ in 0..case.times {
        take(reception, &packet, filter, noted)?;
    }
    take(reception, &good, filter, noted)?;
    expect_counts(case.name, reception, noted, case.counts)
}

/// The same of a reception that has taken nothing.
fn take_anew<K: UnitReader>(
    alloc: Global,
    case: &Case<'_>,
    packets: [[u8; 188]; 2],
) -> Result<(), Fail> {
    let filter = filter_of(alloc, case.filter)?;
    let mut reception = reception_of::<K>(alloc)?;
    let mut noted = NotedOutlet::new(100);
    take_case(&mut reception, &filter, case, packets, &mut noted)
}

/// The same of each case of a table.
fn all_counted<K: UnitReader>(alloc: Global, good: &[u8], table: &str) -> Result<(), Fail> {
    for line in table.lines() {
        let Some(case) = read_line(line) else {
            return Err(Fail::new(format_args!("{line}: no case")));
        };
        let packet = packet_of(alloc, &case)?;
        take_anew::<K>(alloc, &case, [packet, start(1, 0, good)])?;
    }
    Ok(())
}

#[test]
fn each_packet_and_a_good_unit_after_it_are_counted(rt: HostRuntime) -> Result<(), Fail> {
    all_counted::<UleForm>(rt.alloc(), &SNDU, SNDUS)?;
    all_counted::<SectionForm>(rt.alloc(), &SECTION, SECTIONS)
}

/// An SNDU with 2,000 optional headers of two bytes (RFC 4326 section 5) and the datagram.
fn two_thousand_headers() -> [u8; 4028] {
    let mut unit = [0; 4028];
    unit[..4].copy_from_slice(&[0x8F, 0xB8, 1, 0]);
    for place in 0..1999usize {
        unit[4 + 2 * place] = 1;
    }
    unit[4002] = 8;
    unit[4004..4024].copy_from_slice(&DATAGRAM);
    unit[4024..].copy_from_slice(&[0xD4, 0xEF, 0x46, 0xC7]);
    unit
}

/// Takes the 22 packets of that unit, and one that does not follow.
fn take_headers(
    reception: &mut Reception<UleForm, Global>,
    filter: &MacList,
    noted: &mut NotedOutlet,
) -> Result<(), Fail> {
    let unit = two_thousand_headers();
    take(reception, &start(0, 0, &unit), filter, noted)?;
    for (number, piece) in unit[183..].chunks(184).enumerate() {
        take(reception, &go_on(number as u8 + 1, piece), filter, noted)?;
    }
    take(reception, &start(0, 0, &SNDU), filter, noted)?;
    expect_counts(
        "2,000 headers",
        reception,
        noted,
        "heard=23 gaps=1 units=2 datagrams=2",
    )
}

#[test]
fn two_thousand_headers_are_passed(rt: HostRuntime) -> Result<(), Fail> {
    let filter = MacList::new(rt.alloc());
    let mut reception = reception_of::<UleForm>(rt.alloc())?;
    let mut noted = NotedOutlet::new(100);
    take_headers(&mut reception, &filter, &mut noted)
}

/// Of two units in a packet: from which call on the outlet refuses; what is answered, how many calls there are, and how many datagrams are
/// right.
const REFUSALS: &str = "1|Err(Failed) 1 0
2|Err(Failed) 2 1
3|Ok(()) 2 2";

/// The packet with both units.
fn packet_of_two() -> [u8; 188] {
    let mut units = [0; 56];
    units[..28].copy_from_slice(&SNDU);
    units[28..].copy_from_slice(&SNDU);
    start(0, 0, &units)
}

/// What comes of the packet where the outlet refuses from this call on.
fn offered_of(alloc: Global, refuses_from: &str) -> Result<String, Fail> {
    let mut noted = NotedOutlet::new(refuses_from.parse::<usize>()?);
    let filter = MacList::new(alloc);
    let mut reception = reception_of::<UleForm>(alloc)?;
    let taken = take(&mut reception, &packet_of_two(), &filter, &mut noted);
    Ok(format!(in alloc; "{taken:?} {} {}", noted.calls(), noted.order().len())?)
}

/// Where the outlet refuses the first of two units, the second is not offered.
#[test]
fn after_a_refused_datagram_none_is_offered(rt: HostRuntime) -> Result<(), Fail> {
    expect_lines(rt.alloc(), offered_of, REFUSALS)
}

/// Takes the beginning of a unit, begins anew, and takes the rest of the unit and a whole one.
fn begin_anew_in_a_unit(
    reception: &mut Reception<UleForm, Global>,
    filter: &MacList,
    noted: &mut NotedOutlet,
) -> Result<(), Fail> {
    let mut unit = [0u8; 200];
    unit[..4].copy_from_slice(&[0x80, 0xC4, 8, 0]);
    take(reception, &start(0, 0, &unit), filter, noted)?;
    reception.begin_anew();
    expect_counts("begun anew", reception, noted, "")?;
    take(reception, &go_on(1, &unit[183..]), filter, noted)?;
    take(reception, &start(2, 0, &SNDU), filter, noted)?;
    let counts = "heard=2 units=1 datagrams=1";
    expect_counts("the rest and a unit", reception, noted, counts)
}

/// Where a reception begins anew, the unit under way is dropped without an event, and nothing is counted.
#[test]
fn a_unit_under_way_ends_where_a_reception_begins_anew(rt: HostRuntime) -> Result<(), Fail> {
    let filter = MacList::new(rt.alloc());
    let mut reception = reception_of::<UleForm>(rt.alloc())?;
    let mut noted = NotedOutlet::new(100);
    begin_anew_in_a_unit(&mut reception, &filter, &mut noted)
}
