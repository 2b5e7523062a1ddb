//! Bursts of which packets are lost or come again: what is received of them.
//!
//! | Stream | Burst | Records | Datagrams |
//! |---|---|---|---|
//! | two bursts, stamped or m2ts | 0 | 100 to 1534 | 0 to 144 |
//! | | 1 | 20,100 to 20,868 | 145 to 199 |
//! | five bursts in m2ts, of two datagrams each | 3 | 3010 to 3037 | 6 in packets 0 to 10, and 7 |
//! | | 4 | 4010 to 4037 | 8, and 9 in packets 10 to 21 |
//! | a service that moves | 2 | 410 to 426 on PID 512 | 4 |
//! | | 3 | 610 to 637 on PID 700 | 5 and 6 |
//! | | 4 | 810 to 826 on PID 700 | 7 |
//!
//! The INT is the first record of each cycle, all others are null packets. Addresses of datagrams go on rising from the datagrams
//! that are left of one burst to those of the next, so that the announced moment alone separates the two.
use crate::burst_sent::{FIVE_IN_M2TS, MOVING, TWO_BURSTS, TWO_IN_M2TS};
use crate::cast::{Cast, all_come, stream_of};
use std::alloc::Global;
use std::test::Fail;

/// In the second case datagrams 0 to 5 of burst 0 have 8,064 bytes; the first one of burst 1 that arrives is its fifteenth, which begins at
/// byte 18,816. No section of parity of burst 0 arrives, and all of burst 1.
pub const OTHERS_AND_BOTH: &str =
    "all packets of other PIDs|0-99 1535-20099|0-199|stream records=2204|lecture heard=2204 units=328 frames=2 datagrams=200|table units=0
the end of a burst and the beginning of the next|150-1534 20100-20199|0-5 145-199|stream records=19384 other=18663|lecture heard=719 gaps=1 units=111 delimited=1 frames=2 rows_mended=1024 rows_left=1024 datagrams=61|table units=2|rule,239.1.0.0/16,0";

/// 300 packets are a fifth of the burst, and no more than 64 bytes of a row.
const OF_TWO: &str =
    "the same, and all between|150-20199|0-5 145-199|stream records=819 other=99|lecture heard=719 gaps=1 units=111 delimited=1 frames=2 rows_mended=1024 rows_left=1024 datagrams=61|table units=1|rule,239.1.0.0/16,0
300 packets of a burst, and those of other PIDs|0-99 200-499 1535-20099|0-199|stream records=1904|lecture heard=1904 gaps=1 units=286 delimited=1 frames=2 rows_mended=1024 datagrams=200|table units=0
the packets of other PIDs, and each of a burst comes twice|0-99 100-1534*2 1535-20099|0-199|stream records=3639|lecture heard=2204 repeats=1435 units=328 frames=2 datagrams=200|table units=0";

const OF_FIVE: &str =
    "nothing||0-9|stream records=4038 other=3893|lecture heard=140 units=30 frames=5 datagrams=10|table units=5|rule,239.1.0.0/16,0
all from the second datagram of burst 3 to the first of burst 4|3021-4019|0-6 9|stream records=3039 other=2922|lecture heard=113 gaps=1 units=24 delimited=1 frames=5 rows_left=512 datagrams=8|table units=4|rule,239.1.0.0/16,0";

/// The version in force is that of the change.
const OF_MOVING: &str =
    "nothing||0-7|stream records=827 other=704|lecture heard=118 units=28 frames=5 datagrams=8|table units=5|table,version,1|rule,239.1.0.0/16,0
the INT of the change, which comes again in the next cycle|600|0-4 7|stream records=826 other=732|lecture heard=90 units=22 frames=4 datagrams=6|table units=4|table,version,1|rule,239.1.0.0/16,0";

/// What comes of a stream of two bursts is what must come.
fn two_come(alloc: Global, cast: &Cast<'_>) -> Result<(), Fail> {
    let stream = stream_of(alloc, cast)?;
    all_come(alloc, cast, &stream, OTHERS_AND_BOTH)?;
    all_come(alloc, cast, &stream, OF_TWO)
}

/// The loss law of a service with time slicing: no frame runs on into the next burst, though all between is lost; the rest is as
/// without time slicing.
#[test]
fn stamped_bursts_are_received_over_losses(rt: HostRuntime) -> Result<(), Fail> {
    two_come(rt.alloc(), &TWO_BURSTS)
}

/// The same where the times are those of an m2ts recording.
#[test]
fn bursts_in_m2ts_are_received_over_losses(rt: HostRuntime) -> Result<(), Fail> {
    two_come(rt.alloc(), &TWO_IN_M2TS)
}

/// The same where m2ts times begin anew between two bursts, and where the service moves.
#[test]
fn later_bursts_are_received_over_losses(rt: HostRuntime) -> Result<(), Fail> {
    let five = stream_of(rt.alloc(), &FIVE_IN_M2TS)?;
    all_come(rt.alloc(), &FIVE_IN_M2TS, &five, OF_FIVE)?;
    let moving = stream_of(rt.alloc(), &MOVING)?;
    all_come(rt.alloc(), &MOVING, &moving, OF_MOVING)
}
