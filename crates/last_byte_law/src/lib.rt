//! A datagram is given by the record with its last byte.
//!
//! Laws over definitions alone: each is a function that does nothing, whose contract is the law.
//! They stand on reassembly_law, reception_law and gse_law. Begin with `the_record_with_the_last_byte_gives_a_datagram`.
#![tactic(auto)]

ghost use Rattle.std.specs.Prelude.{◌≡◌, ℕ, true, false, List, [], ◌∷◌, ◌++◌, length, Some};
ghost use Rattle.ts_spec.specs.Form.{UnitForm, IsLawful};
ghost use Rattle.ts_spec.specs.Received.{Arrival};
ghost use Rattle.ts_spec.specs.Recording.{Record};
ghost use Rattle.gse_spec.specs.Reassembly.{PlacedPacket};
ghost use Rattle.plan_spec.specs.Plan.{PlanFields, isi_of};
ghost use Rattle.plan_spec.specs.Changes.{has_wrong_change};
ghost use Rattle.stream_spec.specs.Services.{kind_at};
ghost use Rattle.stream_law.specs.Words.{is_single};
ghost use Rattle.reception_spec.specs.Spans.{span_of};
ghost use Rattle.reception_spec.specs.Delivered.{service_on, given_by_record};
ghost use Rattle.reception_law.specs.InForce.{pid_in_force};
ghost use Rattle.bb_reception_spec.specs.Delivered.{service_at, given_by_frame};
ghost use Rattle.last_byte_law.specs.Ends.{AddsUnits, GivesEnding, AddsPdus, GivesEnded};

use gse_law::one_frame_more;
use reassembly_law::{one_packet_more, one_record_more, units_under_way_fit};
use reception_law::{
    a_record_tells_datagrams_on_the_pid_in_force,
    a_service_without_frames_tells_what_its_units_give, one_record_more_adds_datagrams,
    units_are_those_of_events,
};

/// What one packet more adds to the accepted units are units that end in it: their last bytes, one at least, stand in its payload.
pub fn a_unit_ends_in_the_packet_that_gives_it()
    ensures units { (form : UnitForm) (packets : List Arrival) (next : Arrival) → IsLawful form → AddsUnits form packets next }
{
    one_packet_more();
    units_under_way_fit();
}

/// What a record gives of a service of SNDUs or datagram_sections are the wanted datagrams of the units that it adds on the PID in force, each of which ends in
/// its packet.
pub fn the_record_with_the_last_byte_gives_a_datagram()
    ensures gives { (plan : PlanFields) (k pid : ℕ) (records : List Record) (r : Record) → has_wrong_change plan ≡ false → is_single (kind_at plan k) ≡ true
        → pid_in_force plan k records ≡ Some pid
        → GivesEnding (service_on plan k pid) (span_of plan k pid records) r (given_by_record plan k (records ++ r ∷ []) (length records)) }
{
    a_unit_ends_in_the_packet_that_gives_it();
    one_packet_more();
    one_record_more();
    units_are_those_of_events();
    one_record_more_adds_datagrams();
    a_service_without_frames_tells_what_its_units_give();
    a_record_tells_datagrams_on_the_pid_in_force();
}

/// What one GSE packet more adds to the received PDUs are PDUs that end with it, at its place: it is a complete packet or a last fragment.
pub fn a_pdu_ends_with_the_packet_that_gives_it()
    ensures pdus { (packets : List PlacedPacket) (p : PlacedPacket) → AddsPdus packets p }
{}

/// What a baseband frame gives of a service are the wanted datagrams of the PDUs that it adds on the ISI, each of which ends in this frame.
pub fn the_frame_that_ends_a_pdu_gives_its_datagram()
    ensures gives { (plan : PlanFields) (k isi : ℕ) (frames : List (List ℕ)) (b : List ℕ) → isi_of (service_at plan k).kind ≡ Some isi
        → GivesEnded (service_at plan k).filter isi frames b (given_by_frame plan k (frames ++ b ∷ []) (length frames)) }
{
    one_frame_more();
}
