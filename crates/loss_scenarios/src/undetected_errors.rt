//! Errors that no CRC-32 shows, in a stream of three services: sections, SNDUs and one MPE-FEC frame, with three datagrams each.
//!
//! A CRC-32 is right again where the 33 bits of its generator polynomial are flipped, the first a unit's last bit of a byte (ISO/IEC 13818-1
//! Annex A): five bytes differ by 01 04 C1 1D B7. `4@77` says that those from byte 77 of record 4 on do.
//!
//! Each unit has 183 bytes and fills a packet after 4 bytes of header and a pointer: a section has 12 bytes before its datagram (EN 301 192
//! clause 7.1), an SNDU 10 (RFC 4326 section 4). The MPE-FEC section has 272, in two packets.
//!
//! | Records | What stands in them |
//! |---|---|
//! | 0 | the INT |
//! | 1, 4, 7 | sections 0, 1 and 2 of the lecture |
//! | 2, 5, 8 | SNDUs 0, 1 and 2 of the files |
//! | 3, 6, 9 | sections 0, 1 and 2 of the maps |
//! | 10, 11 | their MPE-FEC section, with one column of RS data |
use crate::datagrams::capture_of_list;
use crate::received::{Reception, Service, UNDETECTED, comes};
use crate::settings_words::settings_of;
use scenario_runs::sent;
use std::alloc::{AllocError as OutOfMemory, Global};
use std::test::Fail;
use test_recordings::left_of;

const SETTINGS: &str =
    "INT LECTURE FILES [[service]] name=maps kind=fec pid=514 mode=indexed rows=256 parity=1 rules=239.3.0.0/16";

/// Two of the services that a receiver has.
#[derive(Clone, Copy)]
struct Receiver {
    settings: &'static str,
    services: [Service; 2],
    /// The packets of the third service, which are other packets here.
    other: &'static str,
}

const RECEIVERS: [Receiver; 2] = [
    Receiver {
        settings: "INT LECTURE FILES",
        services: [("lecture", LECTURE), ("files", FILES)],
        other: "other=5",
    },
    Receiver {
        settings: "INT FILES [[service]] name=maps kind=fec pid=514 mode=indexed rows=256 parity=1 rules=239.3.0.0/16",
        services: [("files", FILES), ("maps", MAPS)],
        other: "other=3",
    },
];

const LECTURE: &str = "239.1.0.0:167 239.1.0.1:167 239.1.0.2:167";

const FILES: &str = "239.2.0.0:169 239.2.0.1:169 239.2.0.2:169";

const MAPS: &str = "239.3.0.0:167 239.3.0.1:167 239.3.0.2:167";

/// What is altered, what happens to the records beside, and what comes. No number of the report shows that a unit was altered.
const CASES: &str =
    "nothing|||records=12|heard=3 units=3 gives 0-2|heard=3 units=3 gives 0-2|heard=5 units=4 frames=1 gives 0-2
one unit of each service|4@77 5@75 6@77||records=12|heard=3 units=3 gives 0-2 altered 1@60|heard=3 units=3 gives 0-2 altered 1@60|heard=5 units=4 frames=1 gives 0-2 altered 1@60
the packet before it is lost|5@75|2|records=11|heard=3 units=3 gives 0-2|heard=2 units=2 gives 1-2 altered 0@60|heard=5 units=4 frames=1 gives 0-2
the packet after it is lost, and the first comes twice|5@75|8 2*2|records=12|heard=3 units=3 gives 0-2|heard=2 repeats=1 units=2 gives 0-1 altered 1@60|heard=5 units=4 frames=1 gives 0-2
the first and the last unit|1@77 9@77||records=12|heard=3 units=3 gives 0-2 altered 0@60|heard=3 units=3 gives 0-2|heard=5 units=4 frames=1 gives 0-2 altered 2@60";

/// The words of `left_of` for what is altered, after those for what happens beside.
fn harms_of(alloc: Global, altered: &str, beside: &str) -> Result<String, Fail> {
    let mut words = beside.to_string(alloc)?;
    for word in altered.split_whitespace() {
        let (record, place) = word.split_once('@').ok_or("no place")?;
        put_harms(&mut words, record, place.parse()?)?;
    }
    Ok(words)
}

/// Appends the words for one record.
fn put_harms(words: &mut String, record: &str, place: u8) -> Result<(), OutOfMemory> {
    for (number, bits) in UNDETECTED.iter().enumerate() {
        let at = usize::from(place).saturating_add(number);
        write!(words, " {record}@{at}^{bits:02X}")?;
    }
    Ok(())
}

/// The stream of the datagrams of all services.
fn stream_of_three(alloc: Global) -> Result<Vec<u8>, Fail> {
    let settings = settings_of(alloc, SETTINGS)?;
    let list = format!(in alloc; "{LECTURE} {FILES} {MAPS}")?;
    let capture = capture_of_list(alloc, &list)?;
    sent(alloc, &settings, &capture, 10_000)
}

/// The column of a service in a line, after that of the stream.
fn place_of(service: &Service) -> usize {
    let (name, _) = *service;
    match name {
        "lecture" => 1,
        "files" => 2,
        _ => 3,
    }
}

/// The columns of what comes of the services that a receiver has.
fn columns_for(alloc: Global, receiver: &Receiver, columns: &str) -> Result<String, Fail> {
    let stream = columns.split('|').next().ok_or("no stream")?;
    let mut text = format!(in alloc;
        "stream {stream} {}|table units=1 rules 239.1.0.0/16 239.2.0.0/16 239.3.0.0/16",
        receiver.other
    )?;
    for service in &receiver.services {
        let (name, _) = *service;
        let words = columns.split('|').nth(place_of(service));
        write!(text, "|{name} {}", words.ok_or("no column")?)?;
    }
    Ok(text)
}

/// Of a recording comes what the columns of a line say, of the services that a receiver has.
fn line_comes(alloc: Global, receiver: &Receiver, stream: &[u8], line: &str) -> Result<(), Fail> {
    let (case, rest) = line.split_once('|').ok_or("nothing altered")?;
    let (altered, rest) = rest.split_once('|').ok_or("nothing beside")?;
    let (beside, columns) = rest.split_once('|').ok_or("no columns")?;
    let harms = harms_of(alloc, altered, beside)?;
    let recording = left_of(alloc, stream, 188, &harms)?;
    let columns = columns_for(alloc, receiver, columns)?;
    let reception = Reception {
        settings: receiver.settings,
        services: &receiver.services,
        whole: "",
    };
    comes(alloc, case, &reception, &recording, &columns)
}

/// Whatever errors go undetected, each datagram is there whose own unit arrived intact, and in the place of an altered one what stands in it.
#[test]
fn what_arrives_intact_is_delivered_beside_undetected_errors(rt: HostRuntime) -> Result<(), Fail> {
    let stream = stream_of_three(rt.alloc())?;
    for line in CASES.lines() {
        for receiver in &RECEIVERS {
            line_comes(rt.alloc(), receiver, &stream, line)?;
        }
    }
    Ok(())
}
