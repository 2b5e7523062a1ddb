//! What each service delivers whatever errors go undetected.
ghost use Rattle.std.specs.Prelude.{◌≡◌, ℕ, ◌<◌, List, length};
ghost use Rattle.wire_spec.specs.Lists.{IsSubsequence};
ghost use Rattle.ts_spec.specs.Recording.{Record};
ghost use Rattle.channel_spec.specs.Channel.{Channel};
ghost use Rattle.gse_spec.specs.Channel.{FrameChannel};
ghost use Rattle.plan_spec.specs.Plan.{PlanFields};
ghost use Rattle.plan_spec.specs.Changes.{pids_in};
ghost use Rattle.reception_spec.specs.Delivered.{delivered_of};
ghost use Rattle.bb_reception_spec.specs.Delivered.{delivered_of as delivered_of_frames};
ghost use Rattle.loss_law.specs.Loss.{CarriesFor};
ghost use Rattle.loss_law.specs.Spans.{wanted_on_pids};
ghost use Rattle.bb_loss_law.specs.Plans.{IsIsiOf, isis_of, wanted_of, AllArrivedIntact};
ghost use Rattle.intact_law.specs.Intact.{CarriesUnitsFor, DeliversIntactUnits, DeliversIntactPdus, AllUnitsArrivedIntact, own_of_all};

/// Records are dropped or damaged, kept ones repeated, foreign ones inserted, and errors go undetected: each service delivers the wanted
/// datagrams of any units that arrived intact in the span of their PID, in order, each as often as such units carry it. Of MPE-FEC frames
/// those whose own sections arrived intact, with time slicing or without, whatever moments records have.
///
/// Where the plan changes, the INT sections that were received say where a span begins and ends, damaged ones that pass their CRC-32 too.
pub fn datagrams_of_intact_units_are_delivered()
    ensures delivers { (plan : PlanFields) (k : ℕ) → k < length plan.services
        → (sent : List Record) (units : ℕ → List (List ℕ)) (begin : ℕ → ℕ → ℕ) → CarriesUnitsFor plan k sent units begin
        → (recorded : List Record) (channel : Channel (pids_in plan k) sent recorded)
        → DeliversIntactUnits plan k sent units begin recorded channel (delivered_of plan k recorded) }
{}

/// Where each unit of a service arrived intact in the span of its PID, the wanted datagrams of all of them are delivered, in order. Where
/// the units carry datagrams, these are all that the service wants of the datagrams.
pub fn where_all_units_arrived_intact_none_is_missing()
    ensures all { (plan : PlanFields) (k : ℕ) → k < length plan.services
        → (sent : List Record) (units : ℕ → List (List ℕ)) (begin : ℕ → ℕ → ℕ) → CarriesUnitsFor plan k sent units begin
        → (recorded : List Record) (channel : Channel (pids_in plan k) sent recorded) → AllUnitsArrivedIntact plan k sent units begin recorded channel
        → IsSubsequence (own_of_all plan k units) (delivered_of plan k recorded) }
    ensures wanted { (plan : PlanFields) (k : ℕ) → k < length plan.services
        → (sent : List Record) (datagrams : ℕ → List (List ℕ)) (carries : CarriesFor plan k sent datagrams)
        → own_of_all plan k carries.units ≡ wanted_on_pids plan k carries.units datagrams }
{}

/// Of baseband frames: any may be dropped, and foreign ones inserted. None is repeated, and none damaged that still reads as one of the
/// input stream. Each service delivers the wanted datagrams of any PDUs that arrived intact, in order, each as often as such PDUs carry it.
///
/// Of what was sent nothing is asked: the PDUs are those that a receiver of what was sent reassembles.
pub fn datagrams_of_intact_pdus_are_delivered()
    ensures delivers { (plan : PlanFields) (k : ℕ) (sent recorded : List (List ℕ)) (channel : FrameChannel (isis_of plan k) sent recorded)
        → DeliversIntactPdus plan k sent recorded channel (delivered_of_frames plan k recorded) }
{}

/// Where each PDU of a service arrived intact, all its wanted datagrams are delivered, in order.
pub fn where_all_pdus_arrived_intact_none_is_missing()
    ensures all { (plan : PlanFields) (k isi : ℕ) → IsIsiOf plan k isi → (sent recorded : List (List ℕ)) (channel : FrameChannel (isis_of plan k) sent recorded)
        → AllArrivedIntact plan k sent recorded channel → IsSubsequence (wanted_of plan k isi sent) (delivered_of_frames plan k recorded) }
{}
