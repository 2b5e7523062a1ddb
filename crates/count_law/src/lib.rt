//! The numbers of a report add up: what is not delivered is counted, or passed over by a written rule.
//!
//! Laws over definitions alone: each is a function that does nothing, whose contract is the law.
//! They stand on reception_spec, bb_reception_spec and the report of receive_command. Begin with `the_numbers_of_a_report_add_up`.
#![tactic(auto)]

ghost use Rattle.std.specs.Prelude.{◌≡◌, ℕ, ◌+◌, ◌*◌, ◌==◌, true, false, List, length};
ghost use Rattle.wire_spec.specs.Lists.{IsCut};
ghost use Rattle.ts_spec.specs.Recording.{Record};
ghost use Rattle.plan_spec.specs.Plan.{PlanFields, isis};
ghost use Rattle.plan_spec.specs.Checks.{has_pair};
ghost use Rattle.plan_spec.specs.Changes.{has_wrong_change};
ghost use Rattle.plan_spec.specs.Wholes.{is_whole_plan};
ghost use Rattle.stream_spec.specs.Services.{kind_at};
ghost use Rattle.stream_law.specs.Words.{is_single};
ghost use Rattle.carrier_spec.specs.Stream.{piece_size};
ghost use Rattle.reception_spec.specs.Sums.{stream_numbers, numbers_of, unit_numbers_of};
ghost use Rattle.bb_reception_spec.specs.Numbers.{recording_numbers};
ghost use Rattle.receive_command.specs.Report.{counts_of_pieces, counts_of_service_in};
ghost use Rattle.count_law.specs.Packets.{packets_of_services, packets_of_table, frames_of_services};
ghost use Rattle.count_law.specs.Report.{pieces_of_services, pieces_of_table, gives_by_units};

/// All records of a recording: the unreadable ones, packets without payload, those of other PIDs, received packets and duplicates of the services, and packets of
/// the INT's PID, which no line counts.
pub fn records_add_up()
    ensures sum { (plan : PlanFields) (records : List Record) → has_wrong_change plan ≡ false
        → (stream_numbers plan records).records
        ≡ (stream_numbers plan records).unreadable + (stream_numbers plan records).without_payload + (stream_numbers plan records).other
        + packets_of_services plan records + packets_of_table plan.table records }
{}

/// All frames of a recording of baseband frames: the refused ones, those of other input streams, and the received frames of the services.
pub fn frames_add_up()
    ensures sum { (plan : PlanFields) (frames : List (List ℕ)) → has_pair (λ a b. a == b) (isis plan) ≡ false
        → (recording_numbers plan frames).frames ≡ (recording_numbers plan frames).unreadable + (recording_numbers plan frames).other + frames_of_services plan frames }
{}

/// All units of a service of SNDUs or datagram_sections: the unread ones, the filtered ones, and as many as datagrams.
pub fn units_add_up()
    ensures sum { (plan : PlanFields) (k : ℕ) (records : List Record) → is_single (kind_at plan k) ≡ true
        → (numbers_of plan k records).units
        ≡ (unit_numbers_of plan k records).unread + (unit_numbers_of plan k records).filtered + (unit_numbers_of plan k records).datagrams }
{}

/// The numbers of a report, under a plan of accepted settings: all bytes of the recording, all its records or frames, of which those of the INT's PID have no line,
/// and all units of a service that has no MPE-FEC frames.
pub fn the_numbers_of_a_report_add_up()
    ensures bytes { (plan : PlanFields) (bytes : List ℕ) (pieces : List (List ℕ)) (tail : List ℕ) → IsCut (piece_size plan) bytes pieces tail
        → length bytes ≡ (counts_of_pieces plan pieces).records * piece_size plan + length tail }
    ensures records { (plan : PlanFields) (pieces : List (List ℕ)) → is_whole_plan plan ≡ true
        → (counts_of_pieces plan pieces).records
        ≡ (counts_of_pieces plan pieces).unreadable + (counts_of_pieces plan pieces).without_payload + (counts_of_pieces plan pieces).other
        + pieces_of_services plan pieces + pieces_of_table plan pieces }
    ensures units { (plan : PlanFields) (pieces : List (List ℕ)) (k : ℕ) → gives_by_units (kind_at plan k) ≡ true
        → (counts_of_service_in plan pieces k).units
        ≡ (counts_of_service_in plan pieces k).unread + (counts_of_service_in plan pieces k).filtered + (counts_of_service_in plan pieces k).datagrams }
{}
