//! What happens to the stream of `pair` on its way, and what then must be received: by hand from the layout of its packets.
//!
//! A first packet of a service or one with a pointer has 183 bytes of units (ISO/IEC 13818-1 clause 2.4.4), another 184. A section has
//! 16 bytes beside its datagram (EN 301 192 clause 7.1), an SNDU with an NPA address 14 (RFC 4326 section 4).
//!
//! | Record | Packet | What stands in it |
//! |---|---|---|
//! | 0 | INT | its section |
//! | 1 | lecture, counter 0 | section 0, 166 bytes, and 17 bytes of section 1 |
//! | 3 | lecture, counter 1 | 184 bytes of section 1 |
//! | 5 | lecture, counter 2 | its last 165 bytes, and 18 bytes of section 2 |
//! | 7 | lecture, counter 3 | its last 98 bytes, stuffing |
//! | 2 | files, counter 0 | SNDU 0, 183 bytes |
//! | 4 | files, counter 1 | SNDU 1, 114 bytes, and 69 bytes of SNDU 2 |
//! | 6 | files, counter 2 | its last 45 bytes, and 138 bytes of SNDU 3 |
//! | 8 | files, counter 3 | its last 184 bytes |
//! | 9, 11, .. 27 | files, counters 4, 6, .. | 183 bytes of SNDU 4, 5, .. 13 |
//! | 10, 12, .. 28 | files, counters 5, 7, .. | its last 184 bytes |
use crate::harmed::all_come;
use crate::pair::{SERVICES, SETTINGS, stream_of_pair};
use crate::received::{Reception, comes};
use std::alloc::Global;
use std::test::Fail;

/// What comes where nothing is lost.
const WHOLE: &str =
    "stream records=29|lecture heard=4 units=3 gives 0-2|files heard=24 units=14 gives 0-13|table units=1 rules 239.1.0.0/16 239.2.0.0/16";

/// Recordings of packets, in the columns of `harmed`.
const PLAIN: &str = "nothing|
# no packet of the service comes before the gap
the first packet of the files|2|stream records=28|files heard=23 units=13 gives 1-13
# SNDU 1 and the start of SNDU 2: neither was under way
a packet behind a whole unit|4|stream records=28|files heard=23 gaps=1 units=12 gives 0 3-13
packets of both services|3-4 9|stream records=26|lecture heard=3 gaps=1 units=2 delimited=1 gives 0 2|files heard=22 gaps=2 units=11 gives 0 3 5-13
packets come twice, three times and four times|1*2 4*3 6*4|stream records=35|lecture heard=4 repeats=1 units=3 gives 0-2|files heard=24 repeats=5 units=14 gives 0-13
a bit of a section, and one of an SNDU|3@50^01 10@100^80|lecture heard=4 units=2 bad_check=1 gives 0 2|files heard=24 units=13 bad_check=1 gives 0-3 5-13
# bytes 5 and 6 are Length of SNDU 1, 111 for 110: it takes a byte of SNDU 2, which then begins with 0x6E 0x08: 28,168 bytes
a bit of a Length|4@6^01|files heard=24 units=12 bad_check=1 delimited=1 gives 0 3-13
transport_error_indicator|6@1^80|stream records=29 unreadable=1|files heard=23 gaps=1 units=12 delimited=1 gives 0-1 4-13
# SNDU 2 takes the pointer for its own byte, and where SNDU 3 begins is not told
payload_unit_start_indicator|6@1^40|files heard=24 units=12 bad_check=1 gives 0-1 4-13
transport_priority|6@1^20
# a gap before it and one after it, and SNDU 2 is under way at the second
continuity_counter|4@3^01|files heard=24 gaps=2 units=13 delimited=1 gives 0-1 3-13
# the packet of the files with counter 1 comes after the one of the lecture with counter 1: a gap, at which section 1 is under way.
# There 0x00 0x6E 0x08 begin a section of 3,595 bytes, which the next packet ends at its pointer
the PID: 512 for 513|4@2^01|lecture heard=5 gaps=1 units=2 delimited=2 gives 0 2|files heard=23 gaps=1 units=12 gives 0 3-13
the sync byte|9@0^01|stream records=29 unreadable=1|files heard=23 gaps=1 units=13 gives 0-3 5-13
all packets of the lecture|1 3 5 7|stream records=25|lecture heard=0
the INT|0|stream records=28|table units=0
# SNDUs 4 to 11: the counter goes on as if nothing was lost
16 packets, from the start of a unit on|9-24|stream records=13|files heard=8 units=6 gives 0-3 12-13";

/// Recordings with 8 bytes of time before each packet.
const STAMPED: &str = "nothing, stamped|
the end of a unit|8|stream records=28|files heard=23 gaps=1 units=13 delimited=1 gives 0-2 4-13
the sync byte, stamped|9@8^20|stream records=29 unreadable=1|files heard=23 gaps=1 units=13 gives 0-3 5-13
a time of the day|9@3^01
# Profile: 2^62 microseconds are no moment, and the record is not read
a time that is none|9@0^40|stream records=29 unreadable=1|files heard=23 gaps=1 units=13 gives 0-3 5-13
all packets of the files|2 4 6 8-28|stream records=5|files heard=0";

/// Recordings with 4 bytes of time before each packet.
const M2TS: &str = "nothing, m2ts|
# SNDU 2 is under way, and the start of SNDU 3 is lost
a packet in which one unit ends and another begins|6|stream records=28|files heard=23 gaps=1 units=12 delimited=1 gives 0-1 4-13
packets come twice, m2ts|0-28*2|stream records=58|lecture heard=4 repeats=4 units=3 gives 0-2|files heard=24 repeats=24 units=14 gives 0-13
the end of the recording|28@100|stream records=28 tail_bytes=100|files heard=23 units=13 gives 0-12
# the first bytes of SNDU 4 and the last of SNDU 12 make a unit, whose check fails
16 packets, from the middle of a unit on|10-25|stream records=13|files heard=8 units=5 bad_check=1 gives 0-3 13";

/// What comes under the settings of words.
fn reception_of(settings: &str) -> Reception<'_> {
    Reception {
        settings,
        services: &SERVICES,
        whole: WHOLE,
    }
}

/// What comes of the stream under these settings, with records of this size, is what each line of a table says.
fn pair_comes<'a>(
    alloc: Global,
    settings: &'a str,
    size: usize,
    table: &'a str,
) -> Result<(), Fail> {
    let stream = stream_of_pair(alloc, settings)?;
    all_come(alloc, &reception_of(settings), &stream, size, table)
}

/// The loss law: each service's datagrams come unchanged, in order, each at most once, and each whose unit arrived whole.
#[test]
fn what_arrives_whole_is_delivered(rt: HostRuntime) -> Result<(), Fail> {
    pair_comes(rt.alloc(), SETTINGS, 188, PLAIN)?;
    pair_comes(
        rt.alloc(),
        "recording=stamped INT LECTURE FILES",
        196,
        STAMPED,
    )?;
    pair_comes(rt.alloc(), "recording=m2ts INT LECTURE FILES", 192, M2TS)
}

/// The settings of the sender, those of the receiver, and what then comes of the whole stream.
const FILTERS: &str =
    "a filter|INT LECTURE FILES|INT LECTURE FILES filter=01:00:5E:02:00:02,01:00:5E:02:00:0C|files heard=24 units=14 filtered=12 gives 2 12
a filter|INT LECTURE FILES|INT LECTURE filter=01:00:5E:00:00:02 FILES filter=01:00:5E:00:00:02|lecture heard=4 units=3 filtered=3|files heard=24 units=14 filtered=14
a filter|INT LECTURE FILES|INT LECTURE filter=01:00:5E:01:00:01 FILES|lecture heard=4 units=3 filtered=2 gives 1
a filter|INT LECTURE FILES address=false|INT LECTURE FILES
a filter|INT LECTURE FILES address=false|INT LECTURE FILES filter=01:00:5E:00:00:02";

/// What comes of the stream of a sender is what a line says.
fn filtered_comes(alloc: Global, line: &str) -> Result<(), Fail> {
    let (case, rest) = line.split_once('|').ok_or("no sender")?;
    let (sender, rest) = rest.split_once('|').ok_or("no receiver")?;
    let (receiver, columns) = rest.split_once('|').unwrap_or((rest, ""));
    let stream = stream_of_pair(alloc, sender)?;
    comes(alloc, case, &reception_of(receiver), &stream, columns)
}

/// A multicast datagram is for 01:00:5E and the low 23 bits of its address (RFC 1112 section 6.4). An SNDU without an NPA address
/// (RFC 4326 section 4.1) is for all receivers: it is 6 bytes shorter, and the files have 24 packets all the same.
#[test]
fn a_filter_wants_its_addresses_and_what_is_for_all(rt: HostRuntime) -> Result<(), Fail> {
    for line in FILTERS.lines() {
        filtered_comes(rt.alloc(), line)?;
    }
    Ok(())
}
