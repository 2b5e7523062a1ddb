//! Slots: a transmission ends, and the packets of each service go out in order, each once.
ghost use Rattle.std.specs.Prelude.{◌≡◌, ◌↔◌, ℕ, ◌<◌, ◌≤◌, true, All, List, [], length, map, slice_index, slice_index_or, Option, Some};
ghost use Rattle.std.specs.List.{filter_map, range_with_len};
ghost use Rattle.plan_spec.specs.Plan.{PlanFields, SlicedFields, sliced_of, sliced};
ghost use Rattle.plan_spec.specs.Signalling.{table_packets};
ghost use Rattle.plan_spec.specs.Valid.{is_plan};
ghost use Rattle.plan_spec.specs.Wholes.{is_whole_plan};
ghost use Rattle.plan_spec.specs.Offered.{datagrams as datagrams_of, offered_in};
ghost use Rattle.stream_spec.specs.Services.{kind_at};
ghost use Rattle.stream_spec.specs.Slots.{Slot, IsSlotCount};
ghost use Rattle.stream_spec.specs.Parts.{PartFields, service_packets, packet_counts, sizes_in, slot_in};
ghost use Rattle.stream_law.specs.Words.{carried_in, number_of, AreFirstOut, AreFirstOutIn, FitsWindow, IsByteDatagram};

/// Where the INT leaves slots, a transmission ends, and in one slot alone.
pub fn there_is_one_slot_count()
    ensures ends { (cycle table : ℕ) (packets : List ℕ) → table < cycle → (slots : ℕ) × IsSlotCount (carried_in cycle table packets) slots }
    ensures one { (slot : ℕ → Slot) (a b : ℕ) → IsSlotCount slot a → IsSlotCount slot b → a ≡ b }
{}

/// A transmission ends where all packets of the services are out for the first time.
pub fn a_transmission_ends_where_all_packets_are_out()
    ensures out { (cycle table : ℕ) (packets : List ℕ) (slots : ℕ) → table < cycle
        → (IsSlotCount (carried_in cycle table packets) slots ↔ AreFirstOut cycle table packets slots) }
{}

/// The slots that carry packets of a service carry all of them, in order and each once.
pub fn packets_go_out_in_order_and_each_once()
    ensures order { (cycle table : ℕ) (packets : List ℕ) (slots : ℕ) → table < cycle → IsSlotCount (carried_in cycle table packets) slots
        → (k : ℕ) → k < length packets
        → filter_map (number_of k) (map (carried_in cycle table packets) (range_with_len 0 slots)) ≡ range_with_len 0 (slice_index packets k) }
{}

/// A part ends, and its slots carry all packets of each service, in order and each once; of a service with time slicing where no burst of
/// it is longer than its window.
pub fn a_part_sends_all_packets()
    ensures ends { (part : PartFields) → is_plan part.plan ≡ true → (slots : ℕ) × IsSlotCount (slot_in part) slots }
    ensures order { (part : PartFields) → is_plan part.plan ≡ true → (slots : ℕ) → IsSlotCount (slot_in part) slots → (k : ℕ) → k < length part.plan.services
        → ((fields : SlicedFields) → sliced_of (kind_at part.plan k) ≡ Some fields → (c : ℕ) → slice_index (sizes_in part k) c ≤ fields.length)
        → filter_map (number_of k) (map (slot_in part) (range_with_len 0 slots)) ≡ range_with_len 0 (length (slice_index_or (service_packets part) k [])) }
{}

/// A part ends where all packets of the services are out for the first time, where no burst is longer than its window.
pub fn a_part_ends_where_all_packets_are_out()
    ensures out { (part : PartFields) → is_plan part.plan ≡ true → (slots : ℕ)
        → ((k : ℕ) (fields : SlicedFields) → sliced_of (kind_at part.plan k) ≡ Some fields → (c : ℕ) → slice_index (sizes_in part k) c ≤ fields.length)
        → (IsSlotCount (slot_in part) slots ↔ AreFirstOutIn part slots) }
{}

/// Without time slicing the services go in rotation through the slots that the INT leaves.
pub fn without_time_slicing_services_go_by_turns()
    ensures turns { (part : PartFields) → sliced part.plan ≡ [] → (s : ℕ)
        → slot_in part s ≡ carried_in part.plan.cycle (table_packets part.plan) (packet_counts (service_packets part)) s }
{}

/// No burst of what is offered is longer than its window.
pub fn offered_bursts_fit_their_windows()
    ensures fit { (plan : PlanFields) → is_whole_plan plan ≡ true → (gives : List (Option (List ℕ))) → All IsByteDatagram (datagrams_of gives)
        → (k : ℕ) → FitsWindow plan (offered_in plan gives) k }
{}
