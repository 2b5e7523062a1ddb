//! A lecture in a burst and files in SNDUs, sent and received over a loss of 56 packets, as people would use it.
//!
//! | Records | What |
//! |---|---|
//! | 0 | the INT |
//! | 1 to 99 | files |
//! | 100 to 1201 | the burst: 100 datagrams, and 64 columns of parity |
//! | 1202 to 1872 | the other files |
//!
//! Records 200 to 255 are lost.
use crate::burst_sent::{LECTURE, SLICED, form_of};
use crate::cast::leaves;
use scenario_runs::sent;
use std::alloc::Global;
use std::test::Fail;
use test_recordings::settings::{FILES, INT, settings_of};
use test_recordings::{
    CAPTURE_HEAD, Datagram, FileLeft, datagram_of, is_piece, left_of, put_record, report_of,
};

/// A form of recording, and the bytes before the packet in record 1201. At 10,000 packets a second: 120,100 microseconds, and 27 times as
/// many ticks.
const FORMS: [(&str, &[u8]); 2] = [
    ("stamped", &[0, 0, 0, 0, 0, 1, 0xD5, 0x24]),
    ("m2ts", &[0x00, 0x31, 0x7A, 0xCC]),
];

const TAGS: &str = "service_id = 10\ncomponent_tag = 2\n";

/// The report, in the columns of `test_recordings::report_of`.
const REPORT: &str =
    "stream records=1817|lecture heard=1046 gaps=1 units=155 delimited=1 frames=1 rows_mended=1024 datagrams=100|files heard=770 units=100 datagrams=100|table units=1|rule,239.1.0.0/16,0|rule,239.2.0.0/16,2";

/// The group and the size of datagrams: number n of group x is for 239.x.x.n.
const OF_LECTURE: (u8, u16) = (1, 1344);

const OF_FILES: (u8, u16) = (2, 1400);

/// The capture of 100 datagrams of a group, or of several in turn.
fn capture_with(alloc: Global, groups: &[(u8, u16)]) -> Result<Vec<u8>, Fail> {
    let mut capture = Vec::from_slice(alloc, &CAPTURE_HEAD)?;
    for number in 0..100u8 {
        for (group, size) in groups {
            let datagram = Datagram {
                size: *size,
                to: [239, *group, *group, number],
            };
            put_record(&mut capture, &datagram_of(alloc, &datagram)?)?;
        }
    }
    Ok(capture)
}

/// The stream of both, for which the output has room.
fn stream_of(alloc: Global, settings: &str) -> Result<Vec<u8>, Fail> {
    let capture = capture_with(alloc, &[OF_LECTURE, OF_FILES])?;
    sent(alloc, settings, &capture, 400_000)
}

/// Sends both, 1,873 records, of which record 1201 has this time, and loses 56 packets.
fn recording_of(alloc: Global, settings: &str, time: &[u8]) -> Result<Vec<u8>, Fail> {
    let size = time.len().saturating_add(188);
    let stream = stream_of(alloc, settings)?;
    if stream.len() != size.saturating_mul(1873) {
        return Err("another stream".into());
    }
    if !is_piece(&stream, size.saturating_mul(1201), time) {
        return Err("another time".into());
    }
    left_of(alloc, &stream, size, "200-255")
}

/// Receives a recording, and compares all that is left.
fn both_come(alloc: Global, name: &str, settings: &str, recording: &[u8]) -> Result<(), Fail> {
    let lecture = capture_with(alloc, &[OF_LECTURE])?;
    let files = capture_with(alloc, &[OF_FILES])?;
    let report = report_of(alloc, REPORT)?;
    let captures = [
        FileLeft::whole("lecture.pcap", &lecture),
        FileLeft::whole("files.pcap", &files),
    ];
    leaves(alloc, name, settings, recording, &report, &captures)
}

/// Sends in a form, loses 56 packets, and receives.
fn comes_whole(alloc: Global, name: &str, time: &[u8]) -> Result<(), Fail> {
    let form = form_of(name)?;
    let settings = settings_of(alloc, &[form, INT, SLICED, LECTURE, FILES, TAGS])?;
    let recording = recording_of(alloc, &settings, time)?;
    both_come(alloc, name, &settings, &recording)
}

/// Both captures are whole, and the report is the same for both forms of recording.
#[test]
fn a_lecture_and_files_arrive_whole(rt: HostRuntime) -> Result<(), Fail> {
    for (form, time) in FORMS {
        comes_whole(rt.alloc(), form, time)?;
    }
    Ok(())
}
