//! Sixteen services, each on its ISI: their frames go out in rotation, and each is received by itself.
//!
//! Datagrams of 280 bytes, of which a frame of 300 has one. Of four services one has one datagram, one two, one none, and one three.
use crate::report::{Due, Form, ServiceDue, comes, goes_out};
use std::alloc::{AllocError as OutOfMemory, Global};
use std::test::Fail;
use test_recordings::{Datagram, put_datagram};

/// Which datagram a frame has: the number of its service, which is the ISI too, and its number among those of the service.
const ORDER: [(u8, u8); 24] = [
    // the first of each service
    (0, 0),
    (1, 0),
    (3, 0),
    (4, 0),
    (5, 0),
    (7, 0),
    (8, 0),
    (9, 0),
    (11, 0),
    (12, 0),
    (13, 0),
    (15, 0),
    // the second ones
    (1, 1),
    (3, 1),
    (5, 1),
    (7, 1),
    (9, 1),
    (11, 1),
    (13, 1),
    (15, 1),
    // the third ones
    (3, 2),
    (7, 2),
    (11, 2),
    (15, 2),
];

/// The CRC-8 of the header by ISI, where DFL is 2320.
const CRCS: [u8; 16] = [
    0x9B, 0xD8, 0x1D, 0x5E, 0x42, 0x01, 0xC4, 0x87, 0xFC, 0xBF, 0x7A, 0x39, 0x25, 0x66, 0xA3, 0xE0,
];

const HEAD: &str = "carrier = \"bb\"\nframe_bytes = 300\n";

/// All services, by their ISIs.
const ALL: [u8; 16] = [0, 1, 2, 3, 4, 5, 6, 7, 8, 9, 10, 11, 12, 13, 14, 15];

/// The settings of services.
fn settings(alloc: Global, isis: &[u8]) -> Result<String, OutOfMemory> {
    let mut text = HEAD.to_string(alloc)?;
    for isi in isis {
        write!(
            &mut text,
            "[[service]]\nname = \"s{isi}\"\nkind = \"gse\"\nisi = {isi}\nrules = [\"239.{isi}.0.0/16\"]\n"
        )?;
    }
    Ok(text)
}

fn datagram(isi: u8, number: u8) -> Datagram {
    Datagram {
        size: 280,
        to: [239, isi, 0, number],
    }
}

/// The capture has the last service first, and all of its datagrams one after another.
fn offered(alloc: Global) -> Result<Vec<Datagram>, OutOfMemory> {
    let mut datagrams = Vec::new(alloc);
    for back in 0..16u8 {
        let isi = 15u8.saturating_sub(back);
        for (of, number) in &ORDER {
            if *of == isi {
                datagrams.push(datagram(isi, *number))?;
            }
        }
    }
    Ok(datagrams)
}

/// The frames: header, complete packet with its label, datagram.
fn stream(alloc: Global) -> Result<Vec<u8>, Fail> {
    let mut frames = Vec::new(alloc);
    for (isi, number) in &ORDER {
        let crc = *CRCS.get(usize::from(*isi)).ok_or("no such service")?;
        frames.extend_from_slice(&[0x50, *isi, 0, 0, 0x09, 0x10, 0, 0, 0, crc])?;
        frames.extend_from_slice(&[0xC1, 0x20, 8, 0, 1, 0, 0x5E, *isi, 0, *number])?;
        put_datagram(&mut frames, &datagram(*isi, *number))?;
    }
    Ok(frames)
}

/// Compares what goes out of all datagrams with the frames.
fn all_go_out(alloc: Global, form: &Form<'_>) -> Result<(), Fail> {
    let offered = offered(alloc)?;
    let stream = stream(alloc)?;
    goes_out(alloc, "sixteen services", form, &offered, 0, &stream)
}

/// One frame of each service, and so on past those that have none left.
#[test]
fn services_go_out_in_rotation(rt: HostRuntime) -> Result<(), Fail> {
    let settings = settings(rt.alloc(), &ALL)?;
    let form = Form {
        settings: &[&settings],
        size: 300,
    };
    all_go_out(rt.alloc(), &form)
}

/// Receives all frames under the settings of two services: the frames of all others are of other ISIs.
fn two_come(alloc: Global, form: &Form<'_>) -> Result<(), Fail> {
    let three = ServiceDue {
        name: "s3",
        file: "s3.pcap",
        numbers: "heard=3 units=3",
        given: "0-2",
        sent: &[datagram(3, 0), datagram(3, 1), datagram(3, 2)],
    };
    let thirteen = ServiceDue {
        name: "s13",
        file: "s13.pcap",
        numbers: "heard=2 units=2",
        given: "0-1",
        sent: &[datagram(13, 0), datagram(13, 1)],
    };
    let due = Due {
        stream: "records=24 other=19",
        services: &[three, thirteen],
    };
    comes(alloc, "two of sixteen", form, &stream(alloc)?, &due)
}

/// Two of the services.
#[test]
fn each_service_is_received_by_itself(rt: HostRuntime) -> Result<(), Fail> {
    let settings = settings(rt.alloc(), &[3, 13])?;
    let form = Form {
        settings: &[&settings],
        size: 300,
    };
    two_come(rt.alloc(), &form)
}
