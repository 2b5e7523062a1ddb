//! Laws of the definitions: what is written is read.
ghost use Rattle.std.specs.Prelude.{◌≡◌, ℕ, ◌≤◌, Bool, true, false, List, length, replicate};
ghost use Rattle.ts_spec.specs.Packet.{fields_of, is_packet, packet_bytes, null_packet};
ghost use Rattle.ts_packet.specs.Fields.{written_fields};

/// A packet that is written can be read, and has the fields that were written.
pub fn written_packets_are_read()
    ensures readable { (pid : ℕ) (starts : Bool) (counter : ℕ) (payload : List ℕ)
        → counter ≤ 15 → pid ≤ 8191 → length payload ≡ 184
        → is_packet (packet_bytes pid starts counter payload) ≡ true }
    ensures fields { (pid : ℕ) (starts : Bool) (counter : ℕ) (payload : List ℕ)
        → counter ≤ 15 → pid ≤ 8191
        → fields_of (packet_bytes pid starts counter payload) ≡ written_fields pid starts counter payload }
{}

/// The null packet is a written packet: PID 0x1FFF, counter 0, no unit starts, a payload of bytes FF.
#[tactic(auto, unfolding(ts_spec::specs::Packet::fields_of))]
pub fn null_packet_is_read()
    ensures written { null_packet ≡ packet_bytes 0x1FFF false 0 (replicate 184 0xFF) }
    ensures fields { fields_of null_packet ≡ written_fields 0x1FFF false 0 (replicate 184 0xFF) }
{}
