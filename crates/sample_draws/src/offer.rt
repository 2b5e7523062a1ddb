//! The draws of a sample and its plan -> its datagrams, each in the list of its service.
ghost use Rattle.std.specs.Prelude.{◌≡◌, ℕ, ◌+◌, ◌*◌, ◌<◌, ◌≤◌, [], ◌∷◌, ◌++◌, length, Some, IfOk, OnOk};
ghost use Rattle.plan_spec.specs.Given.{sample_plan};
ghost use Rattle.plan_spec.specs.Offered.{Records};
ghost use Rattle.plan.specs.PlanView.{plan_fields};
ghost use Rattle.datagram_routing.specs.Offering.{IsOffered, HasRoom};
ghost use Rattle.sample_spec.specs.Draws.{state_after};
ghost use Rattle.sample_spec.specs.Datagrams.{datagram_count, sample_records, head_of, bytes_after_head};
ghost use Rattle.sample_draws.specs.First.{first_records};

use crate::datagrams::write_datagram;
use crate::draws::Draws;
use datagram_routing::Offered;
use plan::Plan;
use std::alloc::{AllocError as OutOfMemory, Global};

/// Profile: how many datagrams a sample has.
const DATAGRAMS: u16 = 4000;

/// Profile: the bytes of the shortest.
const SHORTEST: u32 = 28;

/// How many lengths there are.
const LENGTHS: u32 = 1373;

/// The bytes of the longest.
const LONGEST: usize = 1400;

/// Offers the datagrams of a sample to the services of its plan. `draws` has made none.
pub fn offer_sample(alloc: Global, plan: &Plan, draws: &mut Draws) -> Result<Offered, OutOfMemory>
    requires plan { plan_fields plan.now ≡ sample_plan }
    ensures offered { (number : ℕ) → draws.old ≡ state_after number 0 → IfOk result (λ offered. IsOffered sample_plan (sample_records number) offered) }
    ensures drawn { (number : ℕ) → draws.old ≡ state_after number 0 → OnOk result (draws.new ≡ state_after number (2 * datagram_count)) }
{
    let mut offered = Offered::new(alloc, plan)?;
    let mut buffer = zeros(alloc, LONGEST)?;
    for i in 0..DATAGRAMS {
        offer_next(plan, draws, i, &mut buffer, &mut offered)?;
    }
    Ok(offered)
}

/// As many zeros.
fn zeros(alloc: Global, count: usize) -> Result<Vec<u8>, OutOfMemory>
    ensures { IfOk result (λ bytes. length bytes.items ≡ count) }
{
    vec![in alloc; 0u8; count]
}

/// Draws and offers datagram `i`, after those before it. Its bytes are written into `buffer`.
fn offer_next(
    plan: &Plan,
    draws: &mut Draws,
    i: u16,
    buffer: &mut [u8],
    offered: &mut Offered,
) -> Result<(), OutOfMemory>
    requires plan { plan_fields plan.now ≡ sample_plan }
    requires early { i < datagram_count }
    requires buffer { length buffer.old ≡ 1400 }
    requires room { HasRoom sample_plan offered.old }
    ensures stands { (number : ℕ) → draws.old ≡ state_after number (2 * i) → IsOffered sample_plan (first_records number i) offered.old
        → OnOk result (IsOffered sample_plan (first_records number (i + 1)) offered.new) }
    ensures drawn { (number : ℕ) → draws.old ≡ state_after number (2 * i) → draws.new ≡ state_after number (2 * (i + 1)) }
    ensures buffer { length buffer.new ≡ length buffer.old }
{
    let of_service = draws.next();
    let of_length = draws.next();
    let size = (SHORTEST + of_length % LENGTHS) as usize;
    let service = (of_service % 2) as u8;
    offer_datagram(plan, i, service, &mut buffer[..size], offered)
}

/// Offers datagram `i`, of this service and as long as `into`, into which its bytes are written.
fn offer_datagram(
    plan: &Plan,
    i: u16,
    service: u8,
    into: &mut [u8],
    offered: &mut Offered,
) -> Result<(), OutOfMemory>
    requires plan { plan_fields plan.now ≡ sample_plan }
    requires early { i < datagram_count }
    requires least { 20 ≤ length into.old }
    requires most { length into.old ≤ 1400 }
    requires service { service ≤ 1 }
    requires room { HasRoom sample_plan offered.old }
    ensures stands { (records : Records) → IsOffered sample_plan records offered.old
        → OnOk result (IsOffered sample_plan (records ++ Some (head_of (length into.old) service ++ bytes_after_head i (length into.old)) ∷ []) offered.new) }
    ensures kept { length into.new ≡ length into.old }
{
    write_datagram(into, i, service);
    offered.offer(plan, Some(&into[..]))
}
