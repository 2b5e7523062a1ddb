//! Tests of units, tables and baseband frames: bytes and texts by hand -> [ip_datagram, addr_rules, crc_unit, ts_packet, unit_stream,
//! section_codec, mpe_section, ule_unit, ule_extension, bb_frame, gse_packet, gse_reassembly, gse_pack, gse_classes, int_table, psi_tables,
//! loss_report] -> check sums, fields, bytes, lines and faults.
//!
//! Tests alone. They stand apart from the crates that they test, so that each of these is proved once. Begin with `cases`.
#![tactic(auto)]

#[cfg(test)]
mod addr_rules_tests;
#[cfg(test)]
mod bb_frame_tests;
#[cfg(test)]
mod cases;
#[cfg(test)]
mod crc_unit_tests;
#[cfg(test)]
mod datagrams;
#[cfg(test)]
mod gse_classes_tests;
#[cfg(test)]
mod gse_pack_tests;
#[cfg(test)]
mod gse_packet_tests;
#[cfg(test)]
mod gse_reassembly_tests;
#[cfg(test)]
mod int_table_tests;
#[cfg(test)]
mod ip_datagram_tests;
#[cfg(test)]
mod loss_report_tests;
#[cfg(test)]
mod mpe_section_tests;
#[cfg(test)]
mod pat_tests;
#[cfg(test)]
mod pmt_tests;
#[cfg(test)]
mod psi_finder_tests;
#[cfg(test)]
mod section_codec_tests;
#[cfg(test)]
mod small_form;
#[cfg(test)]
mod texts;
#[cfg(test)]
mod ts_packet_tests;
#[cfg(test)]
mod ule_extension_tests;
#[cfg(test)]
mod ule_unit_tests;
#[cfg(test)]
mod unit_stream_tests;
