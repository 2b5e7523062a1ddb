//! Two services that move, their stream damaged on its way: what must be received, by hand from the layout of the stream.
//!
//! | Part | Records | INT | Lecture | Files |
//! |---|---|---|---|---|
//! | 0 | 0 to 99 | 0 | 1: datagram 0, PID 512 | 2: datagram 1, PID 513 |
//! | 1 | 100 to 199 | 100 | 101: datagram 2, PID 512 | 102: datagram 3, PID 514 |
//! | 2 | 200 to 299 | 200 | 201: datagram 5, PID 512 | 202: datagram 4, PID 514 |
//! | 3 | 300 to 302 | 300 | 301: datagram 7, PID 712 | 302: datagram 6, PID 515 |
//!
//! All other records are null packets.
use crate::change_plans::{BOTH, EIGHT, stream_of};
use crate::harmed::all_come;
use crate::received::Reception;
use std::test::Fail;

/// The rules are exchanged from version 2 on.
const RECEPTION: Reception = Reception {
    settings: BOTH,
    services: &[("lecture", EIGHT), ("files", EIGHT)],
    whole: "stream records=303 other=291|lecture heard=4 units=4 gives 0 2 5 7|files heard=4 units=4 gives 1 3-4 6|table units=4 version=3 rules 239.2.0.0/16 239.1.0.0/16",
};

/// What happens to the stream, and what comes of it, in the columns of `harmed`.
const LOSSES: &str = "nothing|
the first INT|0|stream records=302 other=291|table units=3 version=3 rules 239.2.0.0/16 239.1.0.0/16
# the next one puts version 2 in force
the INT of version 1|100|stream records=302 other=292|files heard=3 units=3 gives 1 4 6|table units=3 version=3 rules 239.2.0.0/16 239.1.0.0/16
a flipped bit in the INT of version 1|100@10^04|stream records=303 other=292|files heard=3 units=3 gives 1 4 6|table units=3 version=3 rules 239.2.0.0/16 239.1.0.0/16
the INT of version 3|300|stream records=302 other=293|lecture heard=3 units=3 gives 0 2 5|files heard=3 units=3 gives 1 3-4|table units=3 version=2 rules 239.2.0.0/16 239.1.0.0/16
all but the first INT|100 200 300|stream records=300 other=295|lecture heard=3 units=3 gives 0 2 5|files heard=1 units=1 gives 1|table units=1 version=0 rules 239.1.0.0/16 239.2.0.0/16
the whole of part 1|100-199|stream records=203 other=194|lecture heard=3 gaps=1 units=3 gives 0 5 7|files heard=3 units=3 gives 1 4 6|table units=3 version=3 rules 239.2.0.0/16 239.1.0.0/16
a packet of a service that stays|101|stream records=302 other=291|lecture heard=3 gaps=1 units=3 gives 0 5 7
a flipped bit in a file|202@100^01|files heard=4 units=3 bad_check=1 gives 1 3 6
an INT and the last packet come three times|200*3 302*3|stream records=307 other=291|files heard=4 repeats=2 units=4 gives 1 3-4 6";

/// The loss law over the parts of a stream: each service's datagrams come unchanged, in order, each at most once, and each whose unit
/// arrived whole while the version in force had the service on its PID.
#[test]
fn what_arrives_whole_is_delivered_over_changes(rt: HostRuntime) -> Result<(), Fail> {
    let stream = stream_of(rt.alloc(), BOTH, EIGHT)?;
    all_come(rt.alloc(), &RECEPTION, &stream, 188, LOSSES)
}
