//! Settings with changes, as words, and what is sent under them.
use crate::datagrams::capture_of_list;
use crate::settings_words::settings_of;
use std::alloc::Global;
use std::test::Fail;

/// The files on PID 513, and from record 3 on on PID 514: 103 packets, with the shortest cycle.
pub const ONCE: &str = "cycle=100 INT FILES MOVED";

/// The files on PIDs 513, 514 and 515: 203 packets.
pub const TWICE: &str = "cycle=100 INT FILES
[[change]] at=2 [[change.service]] name=files pid=514
[[change]] at=3 [[change.service]] name=files pid=515";

/// The same as the files that move once, of another platform.
pub const OTHER: &str = "cycle=100
[int] pid=600 platform_id=9 network_id=2 original_network_id=3 transport_stream_id=4
FILES MOVED";

/// The files move; the lecture and the files exchange their rules; both move: 303 packets.
pub const BOTH: &str = "cycle=100 INT LECTURE FILES MOVED
[[change]] at=5
[[change.service]] name=lecture rules=239.2.0.0/16
[[change.service]] name=files rules=239.1.0.0/16
[[change]] at=7
[[change.service]] name=lecture pid=712
[[change.service]] name=files pid=515";

/// Two SNDUs of 114 bytes (RFC 4326 section 4) begin in one packet, and the second ends in the next.
pub const FOUR_FILES: &str = "239.2.0.0:100 239.2.0.1:100 239.2.0.2:100 239.2.0.3:100";

/// A lecture and files, of which each unit has the 183 bytes of a packet: sections of 16 bytes beside the datagram (EN 301 192 clause
/// 7.1), SNDUs of 14.
pub const EIGHT: &str = "239.1.0.0:167 239.2.0.1:169 239.1.0.2:167 239.2.0.3:169
239.1.0.4:169 239.2.0.5:167 239.1.0.6:169 239.2.0.7:167";

/// The stream of a list of datagrams, which has 303 packets at most.
pub fn stream_of(alloc: Global, settings: &str, list: &str) -> Result<Vec<u8>, Fail> {
    let settings = settings_of(alloc, settings)?;
    let capture = capture_of_list(alloc, list)?;
    scenario_runs::sent(alloc, &settings, &capture, 100_000)
}

/// The records of a stream from one to another.
pub fn records_of(stream: &[u8], first: usize, last: usize) -> Result<&[u8], Fail> {
    if first > last || last > 1000 {
        return Err("no such records".into());
    }
    Ok(
        stream
            .get(188 * first..188 * (last + 1))
            .ok_or("fewer records")?,
    )
}
