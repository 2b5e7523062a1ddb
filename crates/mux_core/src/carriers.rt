//! What was offered to the services of a plan -> their stream, by the plan's carrier: transport packets, or baseband frames.
ghost use Rattle.std.specs.Prelude.{◌≡◌, true, IfOk};
ghost use Rattle.plan_spec.specs.Plan.{is_baseband};
ghost use Rattle.plan_spec.specs.Offered.{Records, offered_in};
ghost use Rattle.plan.specs.PlanView.{plan_fields};
ghost use Rattle.datagram_routing.specs.Offering.{IsOffered, IsUnderPlan, datagram_count};
ghost use Rattle.datagram_routing.specs.Leaving.{LeavesSink};
ghost use Rattle.mux_core.specs.Sending.{WritesStream};

use bb_mux::stream_frames;
use carrier_law::a_plan_of_transport_packets_has_pids;
use datagram_routing::{MuxFault, Offered, Sent, nothing_is_left_out};
use ipe_io::Sink;
use plan::Plan;
use std::alloc::Global;
use ts_mux::{count_datagrams, stream_packets};

/// Writes the stream of what was offered under the plan. In transport packets: the packets of its services in rotation or, with time slicing,
/// in bursts, and in each cycle of slots those of the INT first. In baseband frames: the frames of its services in rotation, one frame each.
///
/// Fewer than 2^32 records were offered. On an Err a prefix of the stream was written, and nothing when out of memory. Nothing is flushed.
pub fn stream<K: Sink>(
    alloc: Global,
    plan: &Plan,
    offered: &Offered,
    sink: &mut K,
) -> Result<Sent, MuxFault>
    requires offered { IsUnderPlan (plan_fields plan.now) offered.now }
    ensures written { (gives : Records) → IsOffered (plan_fields plan.now) gives offered.now
        → WritesStream (plan_fields plan.now) (offered_in (plan_fields plan.now) gives) result (K.told sink.old).held (K.told sink.new).held }
    ensures datagrams { IfOk result (λ sent. sent.datagrams ≡ datagram_count offered.now.lists) }
    ensures leaves { LeavesSink result (K.told sink.old) (K.told sink.new) (sink.new ≡ sink.old) }
{
    a_plan_of_transport_packets_has_pids();
    match plan.frame_bytes {
        None => stream_packets(alloc, plan, offered, sink),
        Some(_) => stream_in_frames(alloc, plan, offered, sink),
    }
}

/// Writes the stream of what was offered under a plan of baseband frames.
fn stream_in_frames<K: Sink>(
    alloc: Global,
    plan: &Plan,
    offered: &Offered,
    sink: &mut K,
) -> Result<Sent, MuxFault>
    requires carrier { is_baseband (plan_fields plan.now) ≡ true }
    requires offered { IsUnderPlan (plan_fields plan.now) offered.now }
    ensures written { (gives : Records) → IsOffered (plan_fields plan.now) gives offered.now
        → WritesStream (plan_fields plan.now) (offered_in (plan_fields plan.now) gives) result (K.told sink.old).held (K.told sink.new).held }
    ensures datagrams { IfOk result (λ sent. sent.datagrams ≡ datagram_count offered.now.lists) }
    ensures leaves { LeavesSink result (K.told sink.old) (K.told sink.new) (sink.new ≡ sink.old) }
{
    nothing_is_left_out();
    let datagrams = count_datagrams(&offered.lists);
    match stream_frames(alloc, plan, offered, sink) {
        Ok(packets) => Ok(Sent { packets, datagrams }),
        Err(fault) => Err(fault),
    }
}
