//! Packets of three frames of 256 rows are lost or come again: what is received of the frames.
//!
//! 100 datagrams of 1,024 bytes, four columns each, of which 47 fit a frame, and 16 columns of parity. A section of a datagram has
//! 1,040 bytes, one of a column 272 (EN 301 192 clauses 7.1 and 9), a packet 183 bytes of them or 184 (ISO/IEC 13818-1 clause 2.4.4).
//! 48 columns of parity are not sent, so that 16 further bytes of a row may be unknown: those of four datagrams, where all parity came.
//!
//! | Frame | Sections | First byte of the datagrams | Of the columns |
//! |---|---|---|---|
//! | 0 | 47 and 16 | in record 0 | in record 265 |
//! | 1 | 47 and 16 | in record 289, behind the end of frame 0 | in record 555 |
//! | 2 | 6 and 16 | in record 579, behind the end of frame 1 | in record 613 |
//!
//! The last record is 636.
use crate::cast::{Cast, all_come, stream_of};
use std::test::Fail;
use test_recordings::settings::FRAMES;

const SENT: Cast = Cast {
    settings: &[FRAMES, "parity = 16\n"],
    sizes: "1024*100",
    size: 188,
};

/// Records 100 to 116 have parts of datagrams 17 and 20, and 18 and 19. Where the first packets are lost, no packet of the service comes
/// before the gap. Where the counter doesn't show what is lost, datagram 17 goes on with bytes of datagram 20.
const OF_DATAGRAMS: &str =
    "nothing||0-99|stream records=637|lecture heard=637 units=148 frames=3 datagrams=100
packets of four datagrams in one piece|100-116|0-99|stream records=620|lecture heard=620 gaps=1 units=144 delimited=1 frames=3 rows_mended=256 datagrams=100
packets of five datagrams in one piece|100-118|0-16 22-99|stream records=618|lecture heard=618 gaps=1 units=143 delimited=1 frames=3 rows_left=256 datagrams=95
packets of four datagrams and of two columns|100-116 270|0-16 21-99|stream records=619|lecture heard=619 gaps=2 units=142 delimited=2 frames=3 rows_left=256 datagrams=96
a packet of each of four datagrams, in two frames|20 80 140 200 320 370 440 500|0-99|stream records=629|lecture heard=629 gaps=8 units=140 delimited=8 frames=3 rows_mended=512 datagrams=100
the first packets|0-16|0-99|stream records=620|lecture heard=620 units=144 frames=3 rows_mended=256 datagrams=100
sixteen packets, which the counter doesn't show|100-115|0-99|stream records=621|lecture heard=621 units=144 bad_check=1 frames=3 rows_mended=256 datagrams=100";

/// With a frame's last two datagrams table_boundary is lost: padding_columns of the other columns tell where zeros are. Without its columns
/// the next index ends a frame, and table_boundary tells where zeros are.
const OF_COLUMNS: &str =
    "a frame's last two datagrams and its first three columns|255-269|0-99|stream records=622|lecture heard=622 gaps=1 units=143 delimited=1 frames=3 rows_mended=256 datagrams=100
a frame's columns|266-288|0-99|stream records=614|lecture heard=614 gaps=1 units=132 delimited=1 frames=3 datagrams=100
a frame's last two datagrams and its columns|260-288|0-44 47-99|stream records=608|lecture heard=608 gaps=1 units=130 delimited=1 frames=3 rows_left=256 datagrams=98
a whole frame|290-578|0-46 94-99|stream records=348|lecture heard=348 gaps=1 units=85 delimited=1 frames=2 datagrams=53
the last frame|580-636|0-93|stream records=580|lecture heard=580 units=126 frames=2 datagrams=94";

/// A frame that is open at the end gives its datagrams there, and its rows are corrected there: in the second case by 11 columns. In the
/// last case packets come again.
const AT_THE_END: &str =
    "all from the middle of a frame on|400@100 401-636|0-65|stream records=400 tail_bytes=100|lecture heard=400 units=82 frames=2 rows_left=256 datagrams=66
two datagrams of the last frame, and its last five columns|590 630@50 631-636|0-99|stream records=629 tail_bytes=50|lecture heard=629 gaps=1 units=141 delimited=1 frames=3 rows_mended=256 datagrams=100
each packet comes three times|0-636*3|0-99|stream records=1911|lecture heard=637 repeats=1274 units=148 frames=3 datagrams=100";

/// The loss law of a service of frames: its datagrams come unchanged, in order, each once, with each whose section arrived whole, and
/// all of a frame where no row has more than 64 unknown bytes.
#[test]
fn frames_are_received_over_losses(rt: HostRuntime) -> Result<(), Fail> {
    let stream = stream_of(rt.alloc(), &SENT)?;
    for table in [OF_DATAGRAMS, OF_COLUMNS, AT_THE_END] {
        all_come(rt.alloc(), &SENT, &stream, table)?;
    }
    Ok(())
}
