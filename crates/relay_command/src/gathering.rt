//! A recording -> the datagrams that it delivers, of all services in one order, offered under another plan.
ghost use Rattle.std.specs.Prelude.{◌≡◌, [], IfOk, IsErrOf};
ghost use Rattle.plan.specs.PlanView.{plan_fields};
ghost use Rattle.datagram_routing.specs.Offering.{IsUnderPlan};
ghost use Rattle.recording_reception.specs.Reception.{HasBegun};
ghost use Rattle.relay_core.specs.Gathering.{HasGathered};
ghost use Rattle.relay_core.specs.declared.gather.GatherFault.TheVariants as gather_fault;
ghost use Rattle.relay_command.specs.Gathered.{FailsToRead, HasTooMany};
ghost use Rattle.relay_command.specs.Relaying.{GathersInto, RelayLacksMemory};

use crate::ends::GatherEnd;
use bumpalo::Bump;
use datagram_routing::Offered;
use ipe_io::Source;
use plan::Plan;
use recording_law::delivered_datagrams_are_datagrams;
use recording_reader::ReadFault;
use recording_reception::Reception;
use relay_core::{Gather, GatherFault, OuterPlan, datagrams_are_offered_as_they_are};
use std::alloc::Global;

/// Receives a recording under the inner plan, and offers what it delivers under the outer plan, that of `P`, its end included.
///
/// The receiver's memory is given back at the end.
pub(crate) fn gather_recording<I: Source, P: OuterPlan>(
    alloc: Global,
    inner: &Plan,
    outer: &Plan,
    input: &mut I,
) -> Result<Offered, GatherEnd>
    requires outer { plan_fields outer.now ≡ P.outer }
    ensures gathers { IfOk result (λ offered. GathersInto (plan_fields inner.now) P.outer (I.told input.old) (I.told input.new) offered × IsUnderPlan P.outer offered) }
    ensures source { IsErrOf result GatherEnd.Source → FailsToRead (plan_fields inner.now) (I.told input.old) (I.told input.new) }
    ensures too_long { IsErrOf result GatherEnd.TooLong → HasTooMany (plan_fields inner.now) (I.told input.old) (I.told input.new) }
    ensures memory { IsErrOf result GatherEnd.OutOfMemory → RelayLacksMemory (plan_fields inner.now) (I.told input.old) (I.told input.new) }
    ensures kept { ¬ IsErrOf result GatherEnd.Source → (I.told input.new).faults ≡ (I.told input.old).faults }
{
    let gather: Gather<'_, P> = Gather::new(alloc, outer)?;
    let arena = Bump::new(alloc);
    let mut reception = Reception::open(&arena, inner)?;
    gather_pieces(inner, &mut reception, input, gather)
}

/// Gathers what a reception delivers that has begun, its end included, into a gather that has nothing yet.
fn gather_pieces<I: Source, P: OuterPlan>(
    inner: &Plan,
    reception: &mut Reception<'_>,
    input: &mut I,
    mut gather: Gather<'_, P>,
) -> Result<Offered, GatherEnd>
    requires begun { HasBegun (plan_fields inner.now) reception.old.receiver reception.old.pieces }
    requires gathered { HasGathered P.outer gather [] }
    requires fresh { (gather.cause ≡ gather_fault.None) × (gather.faults ≡ 0) }
    ensures gathers { IfOk result (λ offered. GathersInto (plan_fields inner.now) P.outer (I.told input.old) (I.told input.new) offered × IsUnderPlan P.outer offered) }
    ensures source { IsErrOf result GatherEnd.Source → FailsToRead (plan_fields inner.now) (I.told input.old) (I.told input.new) }
    ensures too_long { IsErrOf result GatherEnd.TooLong → HasTooMany (plan_fields inner.now) (I.told input.old) (I.told input.new) }
    ensures memory { IsErrOf result GatherEnd.OutOfMemory → RelayLacksMemory (plan_fields inner.now) (I.told input.old) (I.told input.new) }
    ensures kept { ¬ IsErrOf result GatherEnd.Source → (I.told input.new).faults ≡ (I.told input.old).faults }
{
    delivered_datagrams_are_datagrams();
    datagrams_are_offered_as_they_are();
    match reception.receive(inner, input, &mut gather) {
        Ok(_) => Ok(gather.into_offered()),
        Err(ReadFault::Source) => Err(GatherEnd::Source),
        Err(ReadFault::TooLong) => Err(GatherEnd::TooLong),
        Err(ReadFault::Taker) => match gather.cause() {
            GatherFault::Full => Err(GatherEnd::TooLong),
            GatherFault::OutOfMemory => Err(GatherEnd::OutOfMemory),
            GatherFault::None => unreachable!(),
        },
    }
}
