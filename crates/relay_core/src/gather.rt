//! An outlet that offers what is delivered under a plan: datagrams of all services in, the lists of the plan's services out.
ghost use Rattle.std.specs.Prelude.{◌≡◌, ℕ, List, [], ◌∷◌, ◌++◌, IfOk, IfSome, OnOk, OnErr};
ghost use Rattle.std.specs.Option.{option_copied};
ghost use Rattle.wire_spec.specs.Causes.{HasCause, raised};
ghost use Rattle.wire_spec.specs.Datagram.{IsDatagram};
ghost use Rattle.plan.specs.PlanView.{plan_fields};
ghost use Rattle.plan_spec.specs.Plan.{PlanFields};
ghost use Rattle.relay_core.specs.Gathering.{HasGathered, IsGathered, IsPast, IsCauseOf, record_of};

use byte_slices::as_bytes;
use datagram_routing::Offered;
use ip_datagram::front;
use ipe_io::{Failed, OutOfMemory, Outlet};
use plan::Plan;
use std::alloc::Global;
use std::marker::{Brand, Model, PhantomData};

/// Profile: the most datagrams that are gathered, as many as a capture may have records.
const MOST_DATAGRAMS: usize = 4_194_304;

/// Profile: the most bytes of all gathered datagrams, as many as those of a capture's records.
const MOST_BYTES: usize = 268_435_456;

/// The plan under which datagrams are offered, for contracts alone.
pub trait OuterPlan {
    /// Its settings.
    ghost outer: { PlanFields };
}

impl OuterPlan for Brand {
    ghost use Rattle.relay_core.specs.Gathering.{no_services};

    ghost outer = { no_services };
}

/// Why the last datagram that was refused was refused.
#[derive(Clone, Copy, Debug, PartialEq, Eq)]
pub enum GatherFault {
    /// None was refused yet.
    None,
    /// Out of memory.
    OutOfMemory,
    /// With it there would be more than 4,194,304 datagrams, or more than 268,435,456 bytes.
    Full,
}

/// The datagrams that were delivered of up to 64 services, offered under a plan in the order of their delivery.
#[derive(Drop)]
pub struct Gather<'p, P: OuterPlan> {
    plan: &'p Plan,
    offered: Offered,
    /// How many datagrams were delivered.
    count: usize,
    /// The bytes of all of them.
    size: usize,
    cause: GatherFault,
    faults: u64,
    outer: PhantomData<P>,
}

impl<'p, P: OuterPlan> Model for Gather<'p, P> {
    ghost use Rattle.std.specs.Prelude.{◌≡◌};
    ghost use Rattle.plan.specs.PlanView.{plan_fields};
    ghost use Rattle.relay_core.specs.Gathering.{GatherState, HasOfferedSome};

    ghost Value = { GatherState };

    ghost view = { λ g. record { offered = g.offered; count = g.count; size = g.size; cause = g.cause; faults = g.faults } };

    ghost invariant = { λ g. (plan_fields g.plan.now ≡ P.outer) × HasOfferedSome P.outer g.offered g.count g.size };
}

impl<'p, P: OuterPlan> Gather<'p, P> {
    /// Nothing was gathered yet.
    pub fn new(alloc: Global, plan: &'p Plan) -> Result<Gather<'p, P>, OutOfMemory>
        requires outer { plan_fields plan.now ≡ P.outer }
        ensures gathered { IfOk result (λ gather. HasGathered P.outer gather []) }
        ensures fresh { IfOk result (λ gather. (gather.cause ≡ GatherFault.None) × (gather.faults ≡ 0)) }
    {
        let offered = Offered::new(alloc, plan)?;
        Ok(Gather {
            plan,
            offered,
            count: 0,
            size: 0,
            cause: GatherFault::None,
            faults: 0,
            outer: PhantomData,
        })
    }

    /// Gives what was offered.
    pub fn into_offered(self) -> Offered
        ensures read { result ≡ self.entry.offered }
    {
        self.offered
    }

    /// Why the last refused datagram was refused: `None` before the first.
    pub fn cause(&self) -> GatherFault
        ensures read { result ≡ self.now.cause }
    {
        self.cause
    }

    /// Counts a refusal.
    fn refuse(&mut self, cause: GatherFault) -> Result<(), Failed>
        ensures refused { OnErr result (self.new ≡ record self.old { cause = cause; faults = raised self.old.faults 1 }) }
        ensures never { OnOk result ⊥ }
    {
        self.cause = cause;
        self.faults = self.faults.saturating_add(1);
        Err(Failed)
    }
}

/// Lends the bytes where they are one datagram, and nothing after it.
fn one_datagram(bytes: &[u8]) -> Option<&[u8]>
    ensures read { option_copied result ≡ record_of bytes.now }
    ensures datagram { IfSome result (λ datagram. IsDatagram datagram.now) }
{
    match front(bytes) {
        Ok(size) => {
            if size == bytes.len() {
                Some(bytes)
            } else {
                None
            }
        }
        Err(_) => None,
    }
}

impl<'p, P: OuterPlan> Outlet for Gather<'p, P> {
    ghost use Rattle.relay_core.specs.Gathering.{IsGathered, IsCauseOf};

    ghost services = { λ _. 64 };

    ghost faults = { λ g. g.faults };

    ghost StandsFor = { λ g pairs. IsGathered P.outer g pairs };

    ghost Refused = { λ g service datagram. IsCauseOf g datagram g.cause };

    /// Offers a datagram after the others. Whether it is within the limits is tested before memory is asked for.
    fn deliver(&mut self, service: u32, datagram: &[u8]) -> Result<(), Failed>
        ensures written { OnOk result ((pairs : List (ℕ × List ℕ)) → IsGathered P.outer self.old pairs → IsGathered P.outer self.new (pairs ++ (service, datagram.now) ∷ [])) }
        ensures refused { OnErr result (IsCauseOf self.new datagram.now self.new.cause) }
        ensures unchanged { OnErr result ((pairs : List (ℕ × List ℕ)) → IsGathered P.outer self.old pairs → IsGathered P.outer self.new pairs) }
        ensures same { OnErr result (self.new ≡ record self.old { cause = self.new.cause; faults = self.new.faults }) }
        ensures full { IsPast self.old datagram.now → OnOk result ⊥ }
        ensures same_cause { OnOk result (self.new.cause ≡ self.old.cause) }
        ensures cause { HasCause self.old.faults self.new.faults result }
    {
        if self.count >= MOST_DATAGRAMS || datagram.len() > MOST_BYTES - self.size {
            return self.refuse(GatherFault::Full);
        }
        match self
            .offered
            .offer(self.plan, one_datagram(as_bytes(datagram)))
        {
            Ok(()) => {
                self.count += 1;
                self.size += datagram.len();
                Ok(())
            }
            Err(_) => self.refuse(GatherFault::OutOfMemory),
        }
    }
}
