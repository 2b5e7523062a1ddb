//! Definitions of transport streams: packets, recordings, reassembly, packetization, SNDUs and their extension headers.
//!
//! Words for contracts, and no code but examples of them. They stand on wire_spec.
//! Standards: ISO/IEC 13818-1 clauses 2.4.3 and 2.4.4, RFC 4326.
#![tactic(auto)]

ghost use Rattle.std.specs.Prelude.{◌≡◌, true, false, [], ◌∷◌};
ghost use Rattle.ts_spec.specs.Packet.{null_packet, is_packet};
ghost use Rattle.ts_spec.specs.Events.{events_of};
ghost use Rattle.ts_spec.specs.Packetized.{Packetizes};
ghost use Rattle.ts_spec.specs.Sndu.{sndu_form};

/// A null packet is a packet.
pub fn null_packets_are_read()
    ensures null { is_packet null_packet ≡ true }
    ensures nothing { is_packet [] ≡ false }
{}
