//! What was offered to the services of a plan -> its stream, written and flushed, and what became of the records in numbers.
ghost use Rattle.std.specs.Prelude.{◌≡◌, OnOk, IsErrOf};
ghost use Rattle.wire_spec.specs.Causes.{Rose};
ghost use Rattle.wire_spec.specs.Content.{Stays};
ghost use Rattle.ipe_io.specs.Counts.{IsFlushed};
ghost use Rattle.plan.specs.PlanView.{plan_fields};
ghost use Rattle.plan_spec.specs.Offered.{Records};
ghost use Rattle.datagram_routing.specs.Offering.{IsOffered, IsUnderPlan};
ghost use Rattle.datagram_routing.specs.declared.faults.MuxFault.TheVariants.{Sink as SinkFault, OutOfMemory as NoMemory};
ghost use Rattle.send_command.specs.Writing.{Writes};

use crate::ends::Tally;
use datagram_routing::Offered;
use ipe_io::Sink;
use mux_core::{MuxFault, stream};
use plan::Plan;
use std::alloc::Global;

/// Writes the stream of what was offered under the plan, and flushes it.
///
/// The stream is one of transport packets or of baseband frames, as the plan says. Where memory runs out nothing is written.
pub fn send_offered<O: Sink>(
    alloc: Global,
    plan: &Plan,
    offered: &Offered,
    output: &mut O,
) -> Result<Tally, MuxFault>
    requires offered { IsUnderPlan (plan_fields plan.now) offered.now }
    ensures written { (gives : Records) → IsOffered (plan_fields plan.now) gives offered.now
        → Writes (plan_fields plan.now) gives result (O.told output.old).held (O.told output.new).held }
    ensures flushed { OnOk result (IsFlushed (O.told output.new).held (O.told output.new).flushed) }
    ensures unflushed { IsErrOf result SinkFault → Stays (O.told output.old).flushed (O.told output.new).flushed }
    ensures unchanged { IsErrOf result NoMemory → output.new ≡ output.old }
    ensures sink { IsErrOf result SinkFault → Rose (O.told output.old).faults (O.told output.new).faults }
    ensures output_kept { ¬ IsErrOf result SinkFault → (O.told output.new).faults ≡ (O.told output.old).faults }
{
    let sent = match stream(alloc, plan, offered, output) {
        Ok(sent) => sent,
        Err(fault) => return Err(fault),
    };
    if output.flush().is_err() {
        return Err(MuxFault::Sink);
    }
    Ok(Tally {
        offered: sent.datagrams,
        not_ip: offered.not_ip,
        unrouted: offered.unrouted,
        too_long: offered.too_long,
    })
}
