//! Definitions of a sender's stream: the units and packets of each service, the slots that carry these, the records.
//!
//! Words for contracts, and no code but examples of them. They stand on plan_spec, section_spec and channel_spec.
//! Standards: EN 301 192 clauses 7 and 8, RFC 4326; the order of slots is our own.
#![tactic(auto)]

ghost use Rattle.std.specs.Prelude.{◌≡◌, [], ◌∷◌};
ghost use Rattle.ts_spec.specs.Recording.{m2ts};
ghost use Rattle.slice_spec.specs.Bursts.{slot_of};
ghost use Rattle.stream_spec.specs.Slots.{of_table, of_service, empty, IsSlotCount};
ghost use Rattle.stream_spec.specs.Parts.{stamp_bytes};
ghost use Rattle.plan_spec.specs.Examples.{plan_that_changes};
ghost use Rattle.stream_spec.specs.Stream.{IsPartCount};
ghost use Rattle.stream_spec.specs.Units.{datagrams_by_frame, slicing_in_part, burst_moment, delta_after};
ghost use Rattle.stream_spec.specs.Examples.{small_slot, small_slots, idle_slot, datagram_of_100, two_of_each, slots_of_files, second_part, second_part_in_frames, after_a_cycle, window_of_1500};

/// Two services in rotation, the table at the head of each cycle, and null packets after the last.
pub fn small_transmissions()
    ensures slots { small_slots ≡ of_table 0 ∷ of_service 0 0 ∷ of_service 1 0 ∷ of_service 0 1 ∷ of_service 0 2 ∷ of_table 0 ∷ empty ∷ empty ∷ [] }
    ensures count { IsSlotCount small_slot 5 }
    ensures nothing { IsSlotCount idle_slot 0 }
{}

/// Stamps of an m2ts recording at 10,000 packets per second: slot 397,683 is the first after a turn of its 30 bits.
pub fn stamps_of_m2ts()
    ensures early { stamp_bytes m2ts 10000 1201 ≡ 0x00 ∷ 0x31 ∷ 0x7A ∷ 0xCC ∷ [] }
    ensures last { stamp_bytes m2ts 10000 397682 ≡ 0x3F ∷ 0xFF ∷ 0xFE ∷ 0x58 ∷ [] }
    ensures behind { stamp_bytes m2ts 10000 397683 ≡ 0x00 ∷ 0x00 ∷ 0x08 ∷ 0xE4 ∷ [] }
{}

/// Files that move from PID 513 to 514 after two of four datagrams: a whole cycle, and three slots.
pub fn parts_of_a_stream()
    ensures first { IsPartCount plan_that_changes two_of_each slots_of_files 0 }
    ensures second { IsPartCount plan_that_changes two_of_each slots_of_files 1 }
    ensures slots { second_part.slots_before ≡ 100 }
    ensures table { second_part.table_before ≡ 1 }
    ensures counter { second_part.packets_before 0 ≡ 0 }
{}

/// The same files in MPE-FEC frames: two datagrams share one, and the first frame of the second part has number 1.
pub fn frames_of_a_stream()
    ensures share { datagrams_by_frame 256 (datagram_of_100 ∷ datagram_of_100 ∷ []) ≡ (datagram_of_100 ∷ datagram_of_100 ∷ []) ∷ [] }
    ensures before { (second_part_in_frames.schedules 0).first ≡ 1 }
{}

/// Bursts of a part that begins with the second cycle of the stream: packet 7 of its first burst goes out in slot 20,107, 2.0107 seconds
/// after the first slot of the stream; to the next window it is 1.9993 seconds, 199 whole tens of milliseconds.
pub fn bursts_of_a_part()
    ensures slot { slot_of (slicing_in_part after_a_cycle window_of_1500) 0 7 ≡ 20107 }
    ensures moment { burst_moment after_a_cycle window_of_1500 0 7 ≡ 2010700 }
    ensures first { delta_after after_a_cycle window_of_1500 0 0 ≡ 200 }
    ensures later { delta_after after_a_cycle window_of_1500 0 7 ≡ 199 }
{}
