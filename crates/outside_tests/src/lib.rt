//! Tests of the outside and of what stands in files: bytes -> [ipe_io, pcap_file, ts_record, recording_reader] -> records, captured
//! datagrams, files.
//!
//! Tests alone. They stand apart from the crates that they test, so that a change of a test proves none of them anew.
#![tactic(auto)]

#[cfg(test)]
mod calls;
#[cfg(test)]
mod file_tests;
#[cfg(test)]
mod memory_tests;
#[cfg(test)]
mod pcap_file_tests;
#[cfg(test)]
mod recording_reader_tests;
#[cfg(test)]
mod refusal_tests;
#[cfg(test)]
mod ts_record_tests;
