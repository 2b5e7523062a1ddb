//! The command `sample`.
ghost use Rattle.std.specs.Prelude.{◌≡◌, ℕ, ◌<◌, List, length, IfOk, OnOk, OnErr, IsErrOf};
ghost use Rattle.wire_spec.specs.Causes.{Rose};
ghost use Rattle.wire_spec.specs.Content.{Stays, Puts};
ghost use Rattle.plan_spec.specs.Given.{sample_plan as plan_of_sample};
ghost use Rattle.plan_spec.specs.Offered.{Records, offered_in};
ghost use Rattle.plan.specs.PlanView.{plan_fields};
ghost use Rattle.ipe_io.specs.Counts.{IsFlushed};
ghost use Rattle.datagram_routing.specs.Offering.{IsOffered, IsUnderPlan};
ghost use Rattle.datagram_routing.specs.declared.faults.MuxFault.TheVariants.{Sink as SinkFault, OutOfMemory as NoMemory};
ghost use Rattle.sample_spec.specs.Summary.{IsSummary};
ghost use Rattle.sample_command.specs.Numbers.{HoldsStream};

use crate::held::Held;
use crate::losses::receive_rest;
use crate::summary::{ServiceNumbers, Summary, summary_text};
use datagram_routing::Offered;
use ipe_io::{Failed, OutOfMemory, Sink, put_all};
use plan::{Plan, sample_plan};
use sample_draws::{Draws, a_sample_offers_datagrams, offer_sample};
use std::alloc::Global;
use stream_law::a_stream_is_cut_into_its_records;
use ts_mux::{MuxFault, stream_packets};

/// The stream of a sample.
#[derive(Drop)]
pub(crate) struct SentSample {
    /// Its bytes.
    pub(crate) held: Held,
    /// How many packets it has.
    pub(crate) packets: u32,
}

/// Sends the datagrams of a sample in memory, drops packets of its stream by draws, receives the others, and writes and flushes the summary.
///
/// Sink: the output has failed; a prefix of the summary was written, and nothing more is flushed. OutOfMemory: nothing was written.
pub fn sample<K: Sink>(alloc: Global, number: u32, output: &mut K) -> Result<(), MuxFault>
    ensures written { ¬ IsErrOf result NoMemory → (text : List ℕ) × IsSummary number text × Puts result (K.told output.old).held (K.told output.new).held text }
    ensures flushed { OnOk result (IsFlushed (K.told output.new).held (K.told output.new).flushed) }
    ensures unflushed { OnErr result (Stays (K.told output.old).flushed (K.told output.new).flushed) }
    ensures sink { IsErrOf result SinkFault → Rose (K.told output.old).faults (K.told output.new).faults }
    ensures memory { IsErrOf result NoMemory → output.new ≡ output.old }
    ensures kept { ¬ IsErrOf result SinkFault → (K.told output.new).faults ≡ (K.told output.old).faults }
{
    let Ok(text) = text_of_sample(alloc, number) else {
        return Err(MuxFault::OutOfMemory);
    };
    match put_all(output, &text) {
        Ok(()) => {}
        Err(Failed) => return Err(MuxFault::Sink),
    }
    match output.flush() {
        Ok(()) => Ok(()),
        Err(Failed) => Err(MuxFault::Sink),
    }
}

/// The summary of the sample of a number.
fn text_of_sample(alloc: Global, number: u32) -> Result<Vec<u8>, OutOfMemory>
    ensures summary { IfOk result (λ text. IsSummary number text.items) }
{
    a_sample_offers_datagrams();
    a_stream_is_cut_into_its_records();
    let plan = sample_plan(alloc)?;
    let mut draws = Draws::new(number);
    let offered = offer_sample(alloc, &plan, &mut draws)?;
    let sent = send_sample(alloc, &plan, &offered)?;
    let rest = receive_rest(alloc, &plan, sent.held.bytes(), &mut draws)?;
    let summary = Summary {
        packets: sent.packets,
        dropped: rest.dropped,
        lecture: ServiceNumbers {
            sent: count_offered(&offered, 0),
            delivered: rest.delivered.lecture,
        },
        files: ServiceNumbers {
            sent: count_offered(&offered, 1),
            delivered: rest.delivered.files,
        },
    };
    summary_text(alloc, &summary)
}

/// Sends what was offered into memory. A stream of 2^32 packets or more, of which the receiver would take no more, is out of memory too.
fn send_sample(alloc: Global, plan: &Plan, offered: &Offered) -> Result<SentSample, OutOfMemory>
    requires plan { plan_fields plan.now ≡ plan_of_sample }
    requires offered { IsUnderPlan plan_of_sample offered.now }
    ensures sent { (gives : Records) → IsOffered plan_of_sample gives offered.now → IfOk result (λ sent. HoldsStream (offered_in plan_of_sample gives) sent) }
{
    let mut held = Held::new(alloc);
    let Ok(sent) = stream_packets(alloc, plan, offered, &mut held) else {
        return Err(OutOfMemory);
    };
    match u32::try_from(sent.packets) {
        Ok(packets) => Ok(SentSample { held, packets }),
        Err(_) => Err(OutOfMemory),
    }
}

/// How many datagrams a service is sent.
fn count_offered(offered: &Offered, service: u32) -> u64
    requires service { service < 2 }
    requires offered { IsUnderPlan plan_of_sample offered.now }
    ensures read { (gives : Records) → IsOffered plan_of_sample gives offered.now → result ≡ length (offered_in plan_of_sample gives 0 service) }
{
    offered.lists.at(0, service).len() as u64
}
