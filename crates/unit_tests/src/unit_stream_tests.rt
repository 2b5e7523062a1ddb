//! Packets by hand and the events that they give; units by hand and the packets that they fill.
use crate::small_form::SmallForm;
use std::alloc::{AllocError, Global};
use std::test::Fail;
use test_lines::{expect, expect_lines};
use test_recordings::bytes_of;
use ts_packet::{Link, Packet};
use unit_stream::{JoinEvent, Joiner, Listener, Packer, UnitForm, count_packets};

/// Writes an event.
fn write_event(text: &mut String, event: &JoinEvent<'_>) -> Result<(), AllocError> {
    match event {
        JoinEvent::Unit { moment, bytes } => write!(text, "unit {moment} {bytes:?};"),
        JoinEvent::BadCheck => write!(text, "bad check;"),
        JoinEvent::Delimit => write!(text, "delimit;"),
        JoinEvent::BadLength => write!(text, "bad length;"),
    }
}

/// How a packet follows.
fn link_of(word: &str) -> Result<Link, Fail> {
    match word {
        "First" => Ok(Link::First),
        "Next" => Ok(Link::Next),
        "Repeat" => Ok(Link::Repeat),
        "Gap" => Ok(Link::Gap),
        _ => Err(Fail::new("no such link")),
    }
}

/// Writes the next event, and answers whether there was one.
fn write_next(
    joiner: &mut Joiner<SmallForm, Global>,
    packet: &Packet<'_>,
    text: &mut String,
) -> Result<bool, AllocError> {
    match joiner.next(packet) {
        None => Ok(false),
        Some(event) => {
            write_event(text, &event)?;
            Ok(true)
        }
    }
}

/// The events of a packet, which `next` gives.
fn events_of(
    alloc: Global,
    joiner: &mut Joiner<SmallForm, Global>,
    link: Link,
    packet: &Packet<'_>,
    moment: u64,
) -> Result<String, AllocError> {
    let mut text = String::new(alloc);
    joiner.feed(link, packet, moment);
    for _ in 0..10 {
        if !write_next(joiner, packet, &mut text)? {
            break;
        }
    }
    Ok(text)
}

/// Writes the events that it takes, up to the first that fails.
#[derive(Drop)]
struct Writer {
    text: String,
    result: Result<(), AllocError>,
}

impl Listener for Writer {
    ghost Hears = { λ _ _ _. Unit {0} };

    fn hear(&mut self, event: &JoinEvent<'_>) {
        if self.result.is_ok() {
            self.result = write_event(&mut self.text, event);
        }
    }
}

/// The events of a packet, which a listener takes.
fn heard_events(
    alloc: Global,
    joiner: &mut Joiner<SmallForm, Global>,
    link: Link,
    packet: &Packet<'_>,
    moment: u64,
) -> Result<String, AllocError> {
    let mut writer = Writer {
        text: String::new(alloc),
        result: Ok(()),
    };
    joiner.take(link, packet, moment, &mut writer);
    writer.result?;
    Ok(writer.text)
}

/// The packets of one recording, each with how it follows, its start indicator, its payload and its events. A unit's first byte
/// is its length, and a moment is a packet's place.
const STEPS: &str = "\
First|1|00 04 07 07|
Next|0|08 63|unit 0 [4, 7, 7, 8];
Next|1|00 04 07 07|
Next|1|01 08 03 01 01 ff|unit 2 [4, 7, 7, 8];unit 3 [3, 1, 1];
Next|1|00 04 07 07|
Next|1|02 08 08 02 05|delimit;unit 5 [2, 5];
Next|1|00 04 07 07|
Next|1|09 01|delimit;
Next|1|00 04 07 07|
Gap|0|08 63|delimit;
Next|1|00 04 07 07|
Gap|1|09 01|delimit;
Next|1|00 01 02 05|bad length;
Next|1|00 02 09 03 01 01|bad check;unit 13 [3, 1, 1];
Next|1|00 04 07 07|
Repeat|1|00 04 07 07|
Next|0|08|unit 14 [4, 7, 7, 8];
Next|1|00 06 07|
Next|0|07 07|
Next|0|08 08 09|unit 17 [6, 7, 7, 7, 8, 8];";

/// Fails where a joiner does not give the events of a line, or another one does not tell them to a listener.
fn expect_events(
    alloc: Global,
    joiner: &mut Joiner<SmallForm, Global>,
    telling: &mut Joiner<SmallForm, Global>,
    line: &str,
    moment: u64,
) -> Result<(), Fail> {
    let Some((link, rest)) = line.split_once('|') else {
        return Err(Fail::new("no bar"));
    };
    let Some((starts, rest)) = rest.split_once('|') else {
        return Err(Fail::new("no indicator"));
    };
    let Some((payload, due)) = rest.split_once('|') else {
        return Err(Fail::new("no payload"));
    };
    let link = link_of(link)?;
    let payload = bytes_of(alloc, payload)?;
    let packet = Packet {
        pid: 256,
        starts: starts == "1",
        counter: 0,
        broken: false,
        payload: &payload,
    };
    expect(line, &events_of(alloc, joiner, link, &packet, moment)?, due)?;
    expect(
        line,
        &heard_events(alloc, telling, link, &packet, moment)?,
        due,
    )
}

#[test]
fn packets_give_their_events_in_order(rt: HostRuntime) -> Result<(), Fail> {
    let alloc = rt.alloc();
    let mut joiner = Joiner::<SmallForm, Global>::over(vec![in alloc; 0u8; SmallForm::LONGEST]?);
    let mut telling = Joiner::<SmallForm, Global>::over(vec![in alloc; 0u8; SmallForm::LONGEST]?);
    for (place, line) in STEPS.lines().enumerate() {
        expect_events(alloc, &mut joiner, &mut telling, line, place as u64)?;
    }
    Ok(())
}

/// Appends the first 7 bytes of each packet that units of 4, 3 and 200 bytes fill, and how many there are; then the room in the first
/// packet of the same units again, and its counter.
fn put_packets(alloc: Global, text: &mut String, packing: bool) -> Result<(), AllocError> {
    let mut bytes = [7u8; 207];
    bytes[0] = 4;
    bytes[4] = 3;
    bytes[7] = 200;
    let ends = [4, 7, 207];
    let mut packer = Packer::<SmallForm>::new(256, packing);
    let mut packet = [0; 188];
    for _ in 0..9 {
        if !packer.next(&bytes, &ends, &mut packet) {
            break;
        }
        write!(text, "{} ", hex::encode(alloc, &packet[..7])?)?;
    }
    let count = count_packets::<SmallForm>(&ends, packing);
    packer.again();
    let room = packer.next_around(&ends, &mut packet);
    write!(text, "{count}; {room:?} {:02x}", packet[3])
}

/// The same as a text.
fn packets_of(alloc: Global, given: &str) -> Result<String, Fail> {
    let mut text = String::new(alloc);
    put_packets(alloc, &mut text, given == "with packing")?;
    Ok(text)
}

/// The first packet's room stands after its pointer.
const PACKETS: &str = "\
with packing|47410010000407 47010011070707 2; Some(Room { from: 5, size: 183 }) 12
without|47410010000407 47410011000307 4741001200c807 47010013070707 4; Some(Room { from: 5, size: 4 }) 14";

#[test]
fn units_are_packetized(rt: HostRuntime) -> Result<(), Fail> {
    expect_lines(rt.alloc(), packets_of, PACKETS)
}
