//! Datagrams, captures, packets and settings by hand, what can happen to a stream, and reports to compare with.
//!
//! For the tests of other crates alone. No code of the program builds them, and an independent program gave each CRC-32.
//! Begin with `start` and `go_on` for packets, `capture_of` for captures, `settings_of` for settings, `left_of` for losses.
#![tactic(auto)]

mod captures;
mod damage;
mod datagrams;
mod harms;
mod hex_text;
mod numbers;
mod outlet;
mod outside;
mod packets;
mod pieces;
mod reports;
pub mod settings;
mod small;
mod sndus;
pub mod units;

pub use captures::{CAPTURE_HEAD, capture_of, numbered_capture, put_record};
pub use damage::{Harm, damaged};
pub use datagrams::{Datagram, datagram_of, put_datagram};
pub use harms::left_of;
pub use hex_text::bytes_of;
pub use numbers::{numbers_in, range_of};
pub use outlet::NotedOutlet;
pub use outside::{Failing, FileLeft, Given, Left, Outside, fails_of, faultless, words_of};
pub use packets::{PacketOf, go_on, on_pid, put_unit, start};
pub use pieces::{filled, is_piece, joined};
pub use reports::{counts_of, number_of, put_scope, report_of};
pub use small::{SmallPacket, mixed_recording, recording_of_two, small_capture, small_recording};
pub use sndus::{Sndu, capture_of_files, packet_of_files, stream_of};
pub use std::alloc::AllocError as OutOfMemory;
