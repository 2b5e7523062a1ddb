//! Reassembly of PDUs (TS 102 606-1 clauses 4.2 and 4.4): fragments of one input stream come in, whole PDUs go out.
//!
//! Receiving: bb_frame -> gse_packet -> [gse_reassembly] -> ule_extension -> datagram.
//! Begin with `Slots`.
#![tactic(auto)]

mod laws;
mod slots;

pub use laws::slots_stand_for_packets;
pub use slots::{FRAG_IDS, Outcome, PDU_BUFFER_SIZE, Part, Slot, Slots};
