//! Definitions in other words: received packets, outcomes, what ends the bytes of a start, and the channel.
ghost use Rattle.std.specs.Prelude.{◌≡◌, ◌↔◌, ℕ, List, true, None};
ghost use Rattle.ts_spec.specs.Form.{UnitForm, IsLawful};
ghost use Rattle.ts_spec.specs.Packet.{PacketFields};
ghost use Rattle.ts_spec.specs.Recording.{Record};
ghost use Rattle.ts_spec.specs.Received.{Arrival, arrivals, received_packets};
ghost use Rattle.ts_spec.specs.Reassembly.{Given, bytes_from};
ghost use Rattle.channel_spec.specs.Channel.{Channel};
ghost use Rattle.channel_law.specs.Fates.{HasFates, AreFatesOf};
ghost use Rattle.channel_law.specs.Words.{differing_from_last, TellsByFronts, packets_from, IsEndedBy};

/// A received packet is one that differs from the packet received last.
pub fn received_packets_differ_from_the_last_received()
    ensures received { (pid : ℕ) (records : List Record) → received_packets pid records ≡ differing_from_last None (arrivals pid records) }
{}

/// Each outcome by the prefixes of the bytes of a start, and by whether a packet ended them.
pub fn outcomes_are_told_by_a_front()
    ensures told { (form : UnitForm) (given : Given) → IsLawful form → TellsByFronts form given }
{}

/// The bytes of a start are ended by the first packet that is not continuous or has the start indicator.
pub fn bytes_are_ended_by_a_packet()
    ensures ended { (start : ℕ) (packet : PacketFields) (behind : List Arrival)
        → ((bytes_from start packet behind).is_ended ≡ true) ↔ ((k : ℕ) × IsEndedBy (packets_from packet behind) k) }
{}

/// A channel is a fate for each recorded record, told by its places: it is a sent record, kept or damaged, a copy of a kept one, or was inserted.
pub fn a_channel_is_a_fate_for_each_record()
    ensures channel { (pids : List ℕ) (sent recorded : List Record) (has : HasFates pids sent recorded) → (channel : Channel pids sent recorded) × AreFatesOf has channel }
    ensures fates { (pids : List ℕ) (sent recorded : List Record) (channel : Channel pids sent recorded) → (has : HasFates pids sent recorded) × AreFatesOf has channel }
{}
