//! Tests of what receives: packets, frames and recordings by hand -> [service_reception, fec_reception, gse_reception, bridge_frame,
//! demux_core, receive_command] -> datagrams, Ethernet frames and counts.
//!
//! Tests alone, over `test_recordings`. They stand apart from the crates that they test, which know nothing of settings.
#![tactic(auto)]

#[cfg(test)]
mod bb_receiver_tests;
#[cfg(test)]
mod bridge_outlet;
#[cfg(test)]
mod bridge_reading_tests;
#[cfg(test)]
mod bridged_pdu_tests;
#[cfg(test)]
mod bridged_sndu_tests;
#[cfg(test)]
mod buffers;
#[cfg(test)]
mod counting_outlet;
#[cfg(test)]
mod fec_reception_tests;
#[cfg(test)]
mod gse_reception_tests;
#[cfg(test)]
mod int_reception_tests;
#[cfg(test)]
mod receive_lines;
#[cfg(test)]
mod receive_tests;
#[cfg(test)]
mod receiver_cases;
#[cfg(test)]
mod receiver_lines;
#[cfg(test)]
mod receiver_tests;
#[cfg(test)]
mod reception_cases;
#[cfg(test)]
mod reception_tests;
