//! Extension headers of ULE (RFC 4326 section 5), which GSE has too, and the datagram after them.
//!
//! Receiving: ule_unit or gse_reassembly -> [ule_extension] -> datagram. Sending writes none.
//! Begin with `datagram`; `walk` answers what stands after the headers, and `bridged` an Ethernet frame.
#![tactic(auto)]

mod chain;
mod laws;
mod payload;

pub use chain::{ExtFault, Payload, walk};
pub use laws::a_chain_has_one_end;
pub use payload::{PayloadFault, bridged, datagram};
