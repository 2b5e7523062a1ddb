//! Check sums of units: CRC-32 of sections, SNDUs and fragmented PDUs, CRC-8 of baseband headers.
//!
//! A unit's bytes come in, the number that stands after them goes out; nothing is allocated.
//! Used wherever a unit is read or written: sections, SNDUs, baseband frames, GSE packets.
//! Begin with `crc32` and `crc8`; `crc32_step` goes on from a register, for a unit in pieces.
#![tactic(auto)]

mod eights;
mod five_terms;
mod plain;
mod register32;
mod register8;
mod sixteens;
mod table;

pub use register8::crc8;
pub use register32::{crc32, crc32_step, ends_with_crc};
