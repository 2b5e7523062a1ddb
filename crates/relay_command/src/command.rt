//! The command `relay`, after its settings.
ghost use Rattle.std.specs.Prelude.{◌≡◌};
ghost use Rattle.plan.specs.PlanView.{plan_fields};
ghost use Rattle.relay_command.specs.Relaying.{Relays};

use crate::ends::{GatherEnd, RelayEnd};
use crate::gathering::gather_recording;
use ipe_io::{Sink, Source};
use plan::Plan;
use send_command::{MuxFault, send_offered};
use std::alloc::Global;
use std::marker::Brand;

/// Receives the recording that is read from `input` under the inner plan, writes the stream of all that it delivers under the outer plan, and
/// flushes it.
///
/// The datagrams are offered in the order of the records or frames that give them, then by service, each as it is delivered. All is received
/// before anything is written, and the receiver's memory is given back before the stream is made.
pub fn relay<I: Source, O: Sink>(
    alloc: Global,
    inner: &Plan,
    outer: &Plan,
    input: &mut I,
    output: &mut O,
) -> RelayEnd
    ensures relays { Relays result (plan_fields inner.now) (plan_fields outer.now) (I.told input.old) (I.told input.new) (O.told output.old) (O.told output.new)
        (output.new ≡ output.old) }
{
    let offered = match gather_recording::<I, Brand>(alloc, inner, outer, input) {
        Ok(offered) => offered,
        Err(GatherEnd::Source) => return RelayEnd::SourceFault,
        Err(GatherEnd::TooLong) => return RelayEnd::TooLong,
        Err(GatherEnd::OutOfMemory) => return RelayEnd::OutOfMemory,
    };
    match send_offered(alloc, outer, &offered, output) {
        Ok(tally) => RelayEnd::Done(tally),
        Err(MuxFault::Sink) => RelayEnd::SinkFault,
        Err(MuxFault::OutOfMemory) => RelayEnd::OutOfMemory,
    }
}
