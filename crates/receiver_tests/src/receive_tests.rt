//! Receptions of small recordings into objects in memory: files, report, and each call that fails. `receive_lines` says what the columns of a
//! line are.
use crate::receive_lines::{Wanted, all_come};
use crate::receiver_cases::plan_of;
use service_plan::ule_plan;
use std::test::Fail;
use test_recordings::settings::{FRAMES, INT, ONE_AND_TWO};

/// Both services, one of them with a duplicate; a packet of another PID, a wrong first byte, the INT, and bytes after the last record.
///
/// Each file is added, has its head, the head of its record, the datagram, and is flushed. The report is written at once, and
/// flushed. The input has two reads a record; after the second record both datagrams are written.
const CASES: &str =
    "two services|INT_OF_TWO 187||Ok|one.pcap=60/60 two.pcap=60/60|stream records=6 tail_bytes=187 unreadable=1 other=1|one heard=1 repeats=1 units=1 datagrams=1|two heard=1 units=1 datagrams=1|table units=1|rule,239.1.0.0/16,1|rule,239.2.0.0/16,2
a table that is refused|WRONG_HASH 0||Ok|one.pcap=60/60 two.pcap=60/60|stream records=6 unreadable=1 other=1|one heard=1 repeats=1 units=1 datagrams=1|two heard=1 units=1 datagrams=1|table units=1 refused=5
a call that does not come|INT_OF_TWO 0|rack=10|Ok|one.pcap=60/60 two.pcap=60/60|stream records=6 unreadable=1 other=1|one heard=1 repeats=1 units=1 datagrams=1|two heard=1 units=1 datagrams=1|table units=1|rule,239.1.0.0/16,1|rule,239.2.0.0/16,2
the rack fails|INT_OF_TWO 0|rack=0|Rack||
the rack fails|INT_OF_TWO 0|rack=1|Rack|one.pcap=0/0|
the rack fails|INT_OF_TWO 0|rack=2|Rack|one.pcap=24/0|
the rack fails|INT_OF_TWO 0|rack=3|Rack|one.pcap=24/0 two.pcap=0/0|
the rack fails|INT_OF_TWO 0|rack=4|Rack|one.pcap=24/0 two.pcap=24/0|
the rack fails|INT_OF_TWO 0|rack=5|Rack|one.pcap=40/0 two.pcap=24/0|
the rack fails|INT_OF_TWO 0|rack=6|Rack|one.pcap=60/0 two.pcap=24/0|
the rack fails|INT_OF_TWO 0|rack=7|Rack|one.pcap=60/0 two.pcap=40/0|
the rack fails|INT_OF_TWO 0|rack=8|Rack|one.pcap=60/0 two.pcap=60/0|
the rack fails|INT_OF_TWO 0|rack=9|Rack|one.pcap=60/60 two.pcap=60/0|
the output fails|INT_OF_TWO 0|output=0|Sink|one.pcap=60/60 two.pcap=60/60|
the output is not flushed|INT_OF_TWO 0|output=1|Sink|one.pcap=60/60 two.pcap=60/60|stream records=6 unreadable=1 other=1|one heard=1 repeats=1 units=1 datagrams=1|two heard=1 units=1 datagrams=1|table units=1|rule,239.1.0.0/16,1|rule,239.2.0.0/16,2
the input fails|INT_OF_TWO 0|input=0|Source|one.pcap=24/0 two.pcap=24/0|
the input fails|INT_OF_TWO 0|input=1|Source|one.pcap=24/0 two.pcap=24/0|
the input fails|INT_OF_TWO 0|input=2|Source|one.pcap=60/0 two.pcap=24/0|
the input fails|INT_OF_TWO 0|input=4|Source|one.pcap=60/0 two.pcap=60/0|
the input fails|INT_OF_TWO 0|input=12|Source|one.pcap=60/0 two.pcap=60/0|";

#[test]
fn recordings_are_received_and_each_failing_call_ends_it(rt: HostRuntime) -> Result<(), Fail> {
    let plan = plan_of(rt.alloc(), &[INT, ONE_AND_TWO])?;
    all_come(rt.alloc(), Wanted::Plan(&plan), CASES)
}

/// The report has a head and 18 lines.
const NO_RECORD: &str = "no record|EMPTY||Ok|ule.pcap=24/24|stream records=0|ule heard=0";

#[test]
fn an_empty_recording_has_a_report(rt: HostRuntime) -> Result<(), Fail> {
    let plan = ule_plan(rt.alloc(), 256)?;
    all_come(rt.alloc(), Wanted::Plan(&plan), NO_RECORD)
}

/// Of one PID nothing is reported.
const PID_256: &str = "PID 256|INT_OF_TWO 100|rack=9|Ok|ule.pcap=60/60|
PID 256|INT_OF_TWO 100|rack=2|Rack|ule.pcap=24/0|
PID 256|INT_OF_TWO 100|rack=4|Rack|ule.pcap=60/0|
PID 256|INT_OF_TWO 100|input=0|Source|ule.pcap=24/0|";

#[test]
fn one_pid_is_received_alone(rt: HostRuntime) -> Result<(), Fail> {
    all_come(rt.alloc(), Wanted::Pid, PID_256)
}

/// The first case from a source that lends.
const LENT: &str = "PID 256|INT_OF_TWO 100||Ok|ule.pcap=60/60|";

/// Records that are lent out of the input's buffer are received as those that are read.
#[test]
fn a_recording_is_received_from_a_source_that_lends(rt: HostRuntime) -> Result<(), Fail> {
    all_come(rt.alloc(), Wanted::LentPid, LENT)
}

/// A frame of three datagrams is under way at the end. They are written after the input has ended: the head of a record and the
/// datagram, three times.
const FRAME_CASES: &str =
    "a frame under way|FRAME|rack=9|Ok|lecture.pcap=132/132|stream records=1|lecture heard=1 units=3 frames=1 datagrams=3
a frame under way|FRAME|input=2|Source|lecture.pcap=24/0|
a frame under way|FRAME|rack=2|Rack|lecture.pcap=24/0|
a frame under way|FRAME|rack=3|Rack|lecture.pcap=40/0|
a frame under way|FRAME|rack=4|Rack|lecture.pcap=60/0|
a frame under way|FRAME|rack=7|Rack|lecture.pcap=112/0|
a frame under way|FRAME|rack=8|Rack|lecture.pcap=132/0|
a frame under way|FRAME|output=0|Sink|lecture.pcap=132/132|";

#[test]
fn a_frame_under_way_at_the_end_is_written(rt: HostRuntime) -> Result<(), Fail> {
    let plan = plan_of(rt.alloc(), &[FRAMES])?;
    all_come(rt.alloc(), Wanted::Plan(&plan), FRAME_CASES)
}

/// Settings of a service on ISI 3.
const BASEBAND: &str = "carrier = \"bb\"
frame_bytes = 300
[[service]]
name = \"files\"
kind = \"gse\"
isi = 3
rules = [\"239.1.0.0/16\"]
";

const BASEBAND_CASES: &str =
    "baseband frames|BASEBAND|rack=9|Ok|files.pcap=60/60|stream records=2 tail_bytes=299 unreadable=1|files heard=1 units=1 datagrams=1
baseband frames|BASEBAND|input=2|Source|files.pcap=24/0|
baseband frames|BASEBAND|input=4|Source|files.pcap=60/0|
baseband frames|BASEBAND|rack=2|Rack|files.pcap=24/0|
baseband frames|BASEBAND|rack=3|Rack|files.pcap=40/0|
baseband frames|BASEBAND|rack=4|Rack|files.pcap=60/0|
baseband frames|BASEBAND|output=0|Sink|files.pcap=60/60|";

/// Under settings of baseband frames the recording is one of frames: a cut last frame is no frame, and its bytes are counted.
#[test]
fn a_recording_of_frames_is_received_and_each_failing_call_ends_it(
    rt: HostRuntime,
) -> Result<(), Fail> {
    let plan = plan_of(rt.alloc(), &[BASEBAND])?;
    all_come(rt.alloc(), Wanted::Plan(&plan), BASEBAND_CASES)
}
