//! Data fields by hand (TS 102 606-1 clause 4.2); their CRC-32 was worked out apart from this program.
use crate::buffers::{empty_slots, zeros};
use crate::counting_outlet::{DATAGRAM, Noted, SERVICE, Seen, rises};
use addr_rules::MacList;
use bb_frame::Frame;
use gse_reassembly::{FRAG_IDS, PDU_BUFFER_SIZE};
use gse_reception::GseReception;
use ipe_io::Failed;
use std::alloc::{AllocError as OutOfMemory, Global};
use std::test::Fail;
use test_lines::expect;
use test_recordings::bytes_of;

/// What a word stands for: DATAGRAM for that of all tests, FRONT, BODY and TAIL for its first 8 bytes, the next 10 and the last 2, GROUP
/// for the address of its group, and OTHER for another address; WHOLE for a complete packet of it for all receivers; and FIRST, NEXT and
/// LAST for three fragments of it with the address, of Frag ID 1. Other words stand for themselves.
fn meaning(word: &str) -> &str {
    match word {
        "DATAGRAM" => "45 00 00 14 00 00 00 00 40 11 00 00 0A 00 00 01 EF 01 02 03",
        "FRONT" => "45 00 00 14 00 00 00 00",
        "BODY" => "40 11 00 00 0A 00 00 01 EF 01",
        "TAIL" => "02 03",
        "GROUP" => "01 00 5E 01 02 03",
        "OTHER" => "02 00 00 00 00 01",
        "WHOLE" => "E0 16 08 00 45 00 00 14 00 00 00 00 40 11 00 00 0A 00 00 01 EF 01 02 03",
        "FIRST" => "80 13 01 00 1C 08 00 01 00 5E 01 02 03 45 00 00 14 00 00 00 00",
        "NEXT" => "30 0B 01 40 11 00 00 0A 00 00 01 EF 01",
        "LAST" => "70 07 01 02 03 4C 36 5E 23",
        _ => word,
    }
}

/// The bytes of a data field.
fn field_of(alloc: Global, text: &str) -> Result<Vec<u8>, Fail> {
    let mut field = Vec::new(alloc);
    for word in text.split(' ') {
        field.extend_from_slice(&bytes_of(alloc, meaning(word))?)?;
    }
    Ok(field)
}

/// A service, its filter, and its outlet.
#[derive(Drop)]
struct Receiver {
    reception: GseReception<Global>,
    filter: MacList,
    outlet: Noted,
}

/// A receiver without a filter, whose outlet takes so many datagrams.
fn new_receiver(alloc: Global, room: u64) -> Result<Receiver, OutOfMemory> {
    let buffer = zeros(alloc, PDU_BUFFER_SIZE)?;
    Ok(Receiver {
        reception: GseReception::over(buffer, empty_slots(alloc, FRAG_IDS)?),
        filter: MacList::new(alloc),
        outlet: Noted::new(&DATAGRAM, SERVICE, room),
    })
}

/// Takes a frame with a data field.
fn take(receiver: &mut Receiver, field: &[u8]) -> Result<(), Failed> {
    if field.len() > 8191 {
        return Ok(());
    }
    let frame = Frame { isi: 3, field };
    receiver
        .reception
        .take(&frame, &receiver.filter, SERVICE, &mut receiver.outlet)
}

/// What is counted so far.
fn seen(receiver: &Receiver) -> Seen {
    Seen {
        counts: receiver.reception.counts(),
        outlet: receiver.outlet,
    }
}

/// Takes a data field, and answers how much the numbers rise.
fn outcome_of(alloc: Global, receiver: &mut Receiver, text: &str) -> Result<String, Fail> {
    let field = field_of(alloc, text)?;
    let old = seen(receiver);
    let taken = take(receiver, &field);
    Ok(rises(alloc, &old, &seen(receiver), taken.is_ok())?)
}

/// Fails where a data field has another outcome than the one after the bar.
fn check(alloc: Global, receiver: &mut Receiver, line: &str) -> Result<(), Fail> {
    let Some((field, due)) = line.split_once('|') else {
        return Err(Fail::new(format_args!("{line}: no bar")));
    };
    expect(line, &outcome_of(alloc, receiver, field)?, due)
}

/// Packets that are none, and PDUs that give nothing: what is wrong, the data field, and what it counts as.
const HOSTILE: &str = "GSE Length passes the data field: EF FF 08 00|heard 1 bad_length 1
a single byte: C0|heard 1 bad_length 1
a length that does not hold the fields: C0 07 08 00 01 00 5E 01 02|heard 1 bad_length 1
nothing: |heard 1
padding: 00 00 E0|heard 1
a label re-used first is passed over: F0 02 08 00 E0 02 08 06|heard 1 units 1 bad_length 1 unread 1
a first fragment: FIRST|heard 1
a middle passes its Total Length: 30 0E 01 00 00 00 00 00 00 00 00 00 00 00 00 00|heard 1 bad_length 1
then its Frag ID is closed: LAST|heard 1 delimited 1
18 bytes and a label, of Total Length 30: 80 1D 02 00 1E 08 00 GROUP FRONT BODY|heard 1
an end of 5 passes it: 70 0A 02 00 00 00 00 00 00 00 00 00|heard 1 bad_length 1
a first fragment passes its Total Length: A0 07 03 00 03 08 00 01 02|heard 1 bad_length 1
a middle and an end without a first: NEXT LAST|heard 1 delimited 2
three fragments: FIRST NEXT LAST|heard 1 units 1 datagrams 1 delivered 1
once more the last: LAST|heard 1 delimited 1
a first fragment: FIRST|heard 1
the same once more, and the others: FIRST NEXT LAST|heard 1 units 1 datagrams 1 delivered 1
all but the last: FIRST NEXT|heard 1
a wrong CRC-32: 70 07 01 02 03 4C 36 5E 24|heard 1 bad_check 1
an EtherType of another protocol: E0 04 08 06 01 02|heard 1 units 1 unread 1
a mandatory extension header: E0 04 00 02 08 00|heard 1 units 1 unread 1
an optional one that is cut: E0 04 02 00 01 02|heard 1 units 1 unread 1";

/// A good packet.
const GOOD: &str = "WHOLE|heard 1 units 1 datagrams 1 delivered 1";

/// Fails where a line has another outcome, or the next good packet does not arrive.
fn check_hostile(alloc: Global, receiver: &mut Receiver, line: &str) -> Result<(), Fail> {
    let Some((_, case)) = line.split_once(": ") else {
        return Err(Fail::new(format_args!("{line}: no name")));
    };
    check(alloc, receiver, case)?;
    check(alloc, receiver, GOOD)
}

#[test]
fn each_hostile_packet_is_counted(rt: HostRuntime) -> Result<(), Fail> {
    let alloc = rt.alloc();
    let mut receiver = new_receiver(alloc, 1000)?;
    for line in HOSTILE.lines() {
        check_hostile(alloc, &mut receiver, line)?;
    }
    Ok(())
}

/// Fails where a line of a text has another outcome.
fn check_all(alloc: Global, receiver: &mut Receiver, lines: &str) -> Result<(), Fail> {
    for line in lines.lines() {
        check(alloc, receiver, line)?;
    }
    Ok(())
}

/// A first fragment of Frag ID 9, the first two of Frag ID 1, and then the others.
const MIXED: &str = "80 13 09 00 1C 08 00 GROUP FRONT|heard 1
FIRST NEXT|heard 1
30 0B 09 BODY|heard 1
LAST|heard 1 units 1 datagrams 1 delivered 1
70 07 09 TAIL 4C 36 5E 23|heard 1 units 1 datagrams 1 delivered 1";

/// The filter is asked with each packet's own label; a label that is re-used is that of the packet before it in the same frame alone.
const LABELS: &str =
    "C0 1C 08 00 OTHER DATAGRAM C0 1C 08 00 GROUP DATAGRAM F0 16 08 00 DATAGRAM|heard 1 units 3 filtered 2 datagrams 1 delivered 1
F0 16 08 00 DATAGRAM|heard 1 bad_length 1";

#[test]
fn fragments_may_be_mixed_and_a_filter_is_asked(rt: HostRuntime) -> Result<(), Fail> {
    let alloc = rt.alloc();
    let mut receiver = new_receiver(alloc, 1000)?;
    check_all(alloc, &mut receiver, MIXED)?;
    receiver.filter.push([2, 0, 0, 0, 0, 1])?;
    check_all(alloc, &mut receiver, LABELS)
}

/// The text of a complete packet for all receivers with 2,000 optional extension headers before the datagram.
fn long_chain(alloc: Global) -> Result<String, Fail> {
    let mut text = "EF B6".to_string(alloc)?;
    for _ in 0..2000 {
        text.push_str(" 01 00")?;
    }
    text.push_str(" 08 00 DATAGRAM|heard 1 units 1 datagrams 1 delivered 1")?;
    Ok(text)
}

/// Takes so many frames without packets.
fn take_empty(receiver: &mut Receiver, frames: u32) {
    for turn in 0..frames {
        let _ = take(receiver, &[]);
    }
}

/// Takes a first and a middle fragment, and so many frames after them the last one.
fn check_end(alloc: Global, receiver: &mut Receiver, frames: u32, last: &str) -> Result<(), Fail> {
    check(alloc, receiver, "FIRST NEXT|heard 1")?;
    take_empty(receiver, frames);
    check(alloc, receiver, last)
}

/// A last fragment 256 received frames after the first is joined, one 257 frames after it counts as delimited.
#[test]
fn long_chains_are_passed_over_and_late_ends_are_delimited(rt: HostRuntime) -> Result<(), Fail> {
    let alloc = rt.alloc();
    let mut receiver = new_receiver(alloc, 1000)?;
    check(alloc, &mut receiver, &long_chain(alloc)?)?;
    let last = "LAST|heard 1 units 1 datagrams 1 delivered 1";
    check_end(alloc, &mut receiver, 255, last)?;
    check_end(alloc, &mut receiver, 256, "LAST|heard 1 delimited 1")
}

/// After a datagram that was refused none is offered; the frame is counted whole.
#[test]
fn a_refused_datagram_is_the_last_one_offered(rt: HostRuntime) -> Result<(), Fail> {
    let alloc = rt.alloc();
    let mut receiver = new_receiver(alloc, 1)?;
    let line = "WHOLE WHOLE WHOLE|heard 1 units 3 datagrams 3 delivered 1 refused 1 failed 1";
    check(alloc, &mut receiver, line)
}
