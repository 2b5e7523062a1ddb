//! What is sent, and the stream that it must give: its length, a hash of its bytes, and its bursts.
//!
//! A stream is lines of text, with `|` between columns. The first has its name, how many records it has, and its hash. The others have a
//! burst each: its first and its last record, and delta_t of its sections, as `200 199*13`: one section with 200, and 13 with 199.
//!
//! An independent program sent the same, and gave the numbers.
use crate::cast::{Cast, stream_of};
use std::alloc::Global;
use std::test::Fail;
use test_recordings::settings::{INT, STAMPED};
use test_recordings::{numbers_in, range_of};

/// A recording with times at 27 MHz.
const M2TS: &str = "recording = \"m2ts\"\n";

/// The settings of a form of recording.
pub fn form_of(name: &str) -> Result<&'static str, Fail> {
    match name {
        "stamped" => Ok(STAMPED),
        "m2ts" => Ok(M2TS),
        _ => Err("no such form".into()),
    }
}

/// A service of frames with time slicing, whose other keys follow.
pub const SLICED: &str = "[[service]]
name = \"lecture\"
kind = \"fec\"
pid = 512
mode = \"sliced\"
";

/// 10,000 packets a second, and 20,000 in a cycle: a burst each two seconds, of 1,500 packets at most.
pub const LECTURE: &str = "rows = 1024
window_start = 100
window_length = 1500
rules = [\"239.1.0.0/16\"]
";

/// Frames of 256 rows and four columns of parity: bursts of 29 packets at most.
pub const SMALL: &str = "rows = 256
parity = 4
window_start = 10
window_length = 29
rules = [\"239.1.0.0/16\"]
";

/// 100 packets a second, and a burst each ten seconds.
const SLOW: &str = "packet_rate = 100\ncycle = 1000\n";

/// A burst each 20 milliseconds and, from record 6 on, on PID 700.
pub const SHORT: &str = "cycle = 200\n";

const MOVED: &str = "[[change]]
at = 6
[[change.service]]
name = \"lecture\"
pid = 700
";

/// 200 datagrams in two bursts of 145 and 55.
pub const TWO_BURSTS: Cast = Cast {
    settings: &[STAMPED, INT, SLICED, LECTURE],
    sizes: "1344*200",
    size: 196,
};

/// The same with times at 27 MHz.
pub const TWO_IN_M2TS: Cast = Cast {
    settings: &[M2TS, INT, SLICED, LECTURE],
    size: 192,
    ..TWO_BURSTS
};

/// From the first byte of burst 0 to the next window it is the whole cycle, 200 tens of milliseconds; of the last section, 143 milliseconds
/// later, 185 tens, rounded down. Burst 1 is the last.
const OF_TWO: &str = "two bursts|20869|5323160F80697293
100-1534|200 199*13 198*14 197*13 196*14 195*13 194*14 193*13 192*14 191*13 190*14 189*15 188*17 187*18 186*18 185*5
20100-20868|0*119";

/// The same bursts.
const OF_TWO_IN_M2TS: &str = "two bursts, m2ts|20869|A82EC9EEB6AE945D
100-1534|200 199*13 198*14 197*13 196*14 195*13 194*14 193*13 192*14 191*13 190*14 189*15 188*17 187*18 186*18 185*5
20100-20868|0*119";

/// Five bursts of two datagrams. The times of an m2ts recording have 30 bits: at record 3,977 they begin anew.
pub const FIVE_IN_M2TS: Cast = Cast {
    settings: &[M2TS, SLOW, INT, SLICED, SMALL],
    sizes: "2000*10",
    size: 192,
};

/// Two datagrams and four columns, with ten seconds to the next burst: they begin in packets 0, 10, 21, 23, 24 and 26.
const OF_FIVE: &str = "five bursts in forty seconds, m2ts|4038|4942A26C6895DE38
10-37|1000 990 979 977 976 974
1010-1037|1000 990 979 977 976 974
2010-2037|1000 990 979 977 976 974
3010-3037|1000 990 979 977 976 974
4010-4037|0*6";

/// Bursts of 2, 2 and 1 datagrams before the service moves, and of 2 and 1 after it.
pub const MOVING: Cast = Cast {
    settings: &[STAMPED, SHORT, INT, SLICED, SMALL, MOVED],
    sizes: "2000*8",
    size: 196,
};

/// The last one before the change announces the first one after it, in the next cycle.
const OF_MOVING: &str = "bursts of a service that moves|827|3FBA360F31C60A62
10-37|2 1*5
210-237|2 1*5
410-426|2 1*4
610-637|2 1*5
810-826|0*5";

/// A hash (FNV-1a, 64 bits). A CRC-32 would not do: it does not see a section that is another one, with its own right CRC_32.
fn hash_of(bytes: &[u8]) -> u64 {
    let mut hash: u64 = 0xCBF2_9CE4_8422_2325;
    for byte in bytes {
        hash = (hash ^ u64::from(*byte)).wrapping_mul(0x0000_0100_0000_01B3);
    }
    hash
}

/// The payload of a record's packet without its pointer (ISO/IEC 13818-1 clause 2.4.4.1).
fn payload_of(record: &[u8]) -> Option<&[u8]> {
    let packet = record.get(record.len().saturating_sub(188)..)?;
    match packet {
        [_, flags, _, _, _, rest @ ..] if *flags & 0x40 != 0 => Some(rest),
        [_, _, _, _, rest @ ..] => Some(rest),
        _ => None,
    }
}

/// The bytes of the sections in records of this size.
fn sections_in(alloc: Global, records: &[u8], size: usize) -> Result<Vec<u8>, Fail> {
    let mut bytes = Vec::new(alloc);
    for record in records.chunks(size.max(1)) {
        bytes.extend_from_slice(payload_of(record).ok_or("no payload")?)?;
    }
    Ok(bytes)
}

/// Appends delta_t of the section that begins here (EN 301 192 clause 9.10), and answers how many bytes it has: 1 where this is a byte
/// of stuffing, 0 at the end.
fn put_delta(into: &mut Vec<u16>, bytes: &[u8]) -> Result<usize, Fail> {
    let [table, high, low, _, _, _, _, _, first, second, ..] = bytes else {
        return Ok(0);
    };
    if *table == 0xFF {
        return Ok(1);
    }
    into.push(u16::from(*first) << 4 | u16::from(*second >> 4))?;
    let length = u16::from_be_bytes([*high & 0x0F, *low]);
    Ok(usize::from(length).saturating_add(3))
}

/// delta_t of each of these sections.
fn deltas_in(alloc: Global, sections: &[u8]) -> Result<Vec<u16>, Fail> {
    let mut deltas: Vec<u16> = Vec::new(alloc);
    let mut rest = sections;
    for _ in 0..sections.len() {
        let count = put_delta(&mut deltas, rest)?;
        if count == 0 {
            return Ok(deltas);
        }
        rest = rest.get(count..).ok_or("a section that is cut")?;
    }
    Ok(deltas)
}

/// delta_t of the sections in the records of a word, as `100-1534`, of a stream of records of this size.
fn deltas_of(alloc: Global, stream: &[u8], size: usize, records: &str) -> Result<Vec<u16>, Fail> {
    let (first, last) = range_of(records)?;
    let from = first.saturating_mul(size);
    let to = last.saturating_add(1).saturating_mul(size);
    let records = stream.get(from..to).ok_or("no such burst")?;
    let sections = sections_in(alloc, records, size)?;
    deltas_in(alloc, &sections)
}

/// Whether the sections of a burst in a stream have the delta_t that they must have, by the line of the burst.
fn has_deltas(alloc: Global, stream: &[u8], size: usize, burst: &str) -> Result<bool, Fail> {
    let (records, due) = burst.split_once('|').ok_or("no delta_t")?;
    let due = numbers_in(alloc, due)?;
    let deltas = deltas_of(alloc, stream, size, records)?;
    Ok(deltas.as_slice() == due.as_slice())
}

/// What differs in a stream from what its lines say after the name, or nothing.
fn difference(alloc: Global, stream: &[u8], size: usize, due: &str) -> Result<&'static str, Fail> {
    let (records, rest) = due.split_once('|').ok_or("no hash")?;
    let (hash, bursts) = rest.split_once('\n').ok_or("no bursts")?;
    if stream.len() != records.parse::<usize>()?.saturating_mul(size) {
        return Ok("the length of the stream");
    }
    for burst in bursts.lines() {
        if !has_deltas(alloc, stream, size, burst)? {
            return Ok("delta_t");
        }
    }
    if hash_of(stream) != u64::from_str_radix(hash, 16)? {
        return Ok("a byte of the stream");
    }
    Ok("")
}

/// Sends all datagrams, and compares the stream with its lines.
fn goes_out(alloc: Global, cast: &Cast<'_>, lines: &str) -> Result<(), Fail> {
    let (name, due) = lines.split_once('|').ok_or("no records")?;
    let stream = stream_of(alloc, cast)?;
    let difference = difference(alloc, &stream, cast.size, due)?;
    if !difference.is_empty() {
        return Err(Fail::new(format_args!("{name}: {difference}")));
    }
    Ok(())
}

/// Each burst goes out in its window, and each section announces the window in the next cycle, rounded down; those of the last burst
/// announce none.
#[test]
fn bursts_announce_the_next_one(rt: HostRuntime) -> Result<(), Fail> {
    goes_out(rt.alloc(), &TWO_BURSTS, OF_TWO)?;
    goes_out(rt.alloc(), &TWO_IN_M2TS, OF_TWO_IN_M2TS)?;
    goes_out(rt.alloc(), &FIVE_IN_M2TS, OF_FIVE)?;
    goes_out(rt.alloc(), &MOVING, OF_MOVING)
}
