//! A lecture and files, sent in baseband frames of 300 bytes: what comes of them where frames are lost, or their headers damaged.
//!
//! | Frames | Service | Datagrams |
//! |---|---|---|
//! | 0, 2, 4 | lecture | 0 and 1 whole, 2 in fragments, 3 and 4 whole |
//! | 4, 6, 8, 10, 11 | lecture | 5 in fragments, then 6 and 7 whole |
//! | 1, 3, 5, 7 | files | 0 and 1 whole, 2 in fragments, 3 whole |
//! | 7, 9 | files | 4 in fragments, then 5 whole |
//!
//! All datagrams of the lecture have one label, which later packets of a frame re-use; the files have none.
use crate::harmed::{Sent, all_come, line_comes};
use crate::report::Form;
use scenario_runs::sent;
use std::alloc::{AllocError as OutOfMemory, Global};
use std::test::Fail;
use test_recordings::settings::settings_of;
use test_recordings::{Datagram, capture_of};

const PAIR: Form = Form {
    settings: &[
        "carrier = \"bb\"
frame_bytes = 300
[[service]]
name = \"lecture\"
kind = \"gse\"
isi = 1
rules = [\"239.1.0.0/16\"]
[[service]]
name = \"files\"
kind = \"gse\"
isi = 2
address = false
rules = [\"239.2.0.0/16\"]
",
    ],
    size: 300,
};

/// How many bytes the datagrams have.
const LECTURE: [u16; 8] = [40, 50, 600, 30, 60, 1000, 20, 44];

const FILES: [u16; 6] = [100, 120, 700, 25, 290, 21];

/// Each column is said in `harmed`.
const LOSSES: &str = "nothing||records=12|heard=7 units=8|0-7|heard=5 units=6|0-5
frame 0|0|records=11|heard=6 units=5 delimited=2|3-7|heard=5 units=6|0-5
frame 3|3|records=11|heard=7 units=8|0-7|heard=4 units=5 bad_length=1|0-1 3-5
frame 4|4|records=11|heard=6 units=4 delimited=4|0-1 6-7|heard=5 units=6|0-5
frame 6|6|records=11|heard=6 units=7 bad_length=1|0-4 6-7|heard=5 units=6|0-5
frame 7|7|records=11|heard=7 units=8|0-7|heard=4 units=3 delimited=1|0-1 5
frame 9|9|records=11|heard=7 units=8|0-7|heard=4 units=4|0-3
frame 11|11|records=11|heard=6 units=5|0-4|heard=5 units=6|0-5
the frames from 2 to 6|2-6|records=7|heard=4 units=4 delimited=3|0-1 6-7|heard=3 units=5 bad_length=1|0-1 3-5
all but the last three|0-8|records=3|heard=2 units=2 delimited=2|6-7|heard=1 units=1 delimited=1|5
every other frame|1 3 5 7 9 11|records=6|heard=6 units=5|0-4||
headers of three frames|0@9^FF 5@0^10 8@4^4|records=12 unreadable=3|heard=5 units=4 delimited=2 bad_length=1|3-4 6-7|heard=4 units=5 bad_length=1|0-1 3-5
the end of the recording, in the last frame|11@299|records=11 tail_bytes=299|heard=6 units=5|0-4|heard=5 units=6|0-5
all|0-11|||||";

/// Whichever byte of a header is damaged, its CRC-8 shows it: what the columns after the harm say.
const HEADER: &str =
    "records=12 unreadable=1|heard=7 units=8|0-7|heard=4 units=5 bad_length=1|0-1 3-5";

/// The datagram of a size: to 239.1.0.1, that of the lecture, or 239.2.0.1, that of the files.
fn datagram(group: u8, size: u16) -> Datagram {
    Datagram {
        size,
        to: [239, group, 0, 1],
    }
}

/// The datagrams of both in turn, and then what the lecture has left.
fn offered(alloc: Global) -> Result<Vec<Datagram>, OutOfMemory> {
    let mut datagrams = Vec::new(alloc);
    for (number, size) in LECTURE.iter().enumerate() {
        datagrams.push(datagram(1, *size))?;
        if let Some(size) = FILES.get(number) {
            datagrams.push(datagram(2, *size))?;
        }
    }
    Ok(datagrams)
}

/// The twelve frames, for which the output has room.
fn stream(alloc: Global) -> Result<Vec<u8>, Fail> {
    let settings = settings_of(alloc, PAIR.settings)?;
    let capture = capture_of(alloc, &offered(alloc)?)?;
    sent(alloc, &settings, &capture, 12 * PAIR.size)
}

/// The datagrams of a group.
fn datagrams(alloc: Global, group: u8, sizes: &[u16]) -> Result<Vec<Datagram>, OutOfMemory> {
    let mut datagrams = Vec::new(alloc);
    for size in sizes {
        datagrams.push(datagram(group, *size))?;
    }
    Ok(datagrams)
}

/// What comes of the frames of both services: of each case of the table, and where any byte of the header of frame 3 is damaged.
fn both_come(alloc: Global, stream: &[u8], sent: &[Sent<'_>]) -> Result<(), Fail> {
    all_come(alloc, &PAIR, stream, sent, LOSSES)?;
    for place in 0..10u8 {
        let line = format!(in alloc; "a byte of the header of frame 3|3@{place}^1|{HEADER}")?;
        line_comes(alloc, &PAIR, stream, sent, &line)?;
    }
    Ok(())
}

/// The loss law over GSE: what is given was sent, in order and each once, and whatever arrived in all its frames is given.
#[test]
fn a_pair_is_received_over_losses(rt: HostRuntime) -> Result<(), Fail> {
    let alloc = rt.alloc();
    let stream = stream(alloc)?;
    let lecture = datagrams(alloc, 1, &LECTURE)?;
    let files = datagrams(alloc, 2, &FILES)?;
    let sent = [
        Sent {
            name: "lecture",
            file: "lecture.pcap",
            datagrams: &lecture,
        },
        Sent {
            name: "files",
            file: "files.pcap",
            datagrams: &files,
        },
    ];
    both_come(alloc, &stream, &sent)
}
