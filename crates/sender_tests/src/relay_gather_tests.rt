//! Datagrams of several services, offered in the order of their delivery, up to the limits.
ghost use Rattle.std.specs.Prelude.{◌≡◌};
ghost use Rattle.plan.specs.PlanView.{plan_fields};

use crate::words::{SECTIONS, plan_of};
use datagram_routing::Offered;
use ipe_io::{OutOfMemory, Outlet};
use relay_core::{Gather, GatherFault, OuterPlan};
use service_plan::Plan;
use std::alloc::Global;
use std::marker::Brand;
use std::test::Fail;
use test_recordings::units::{DATAGRAM, SNDU};

/// What is offered after three deliveries: a datagram twice, and between them bytes that are none.
fn offered_under<P: OuterPlan>(alloc: Global, plan: &Plan) -> Result<Offered, Fail>
    requires outer { plan_fields plan.now ≡ P.outer }
{
    let mut gather: Gather<'_, P> = Gather::new(alloc, plan)?;
    let first = gather.deliver(63, &DATAGRAM);
    let second = gather.deliver(0, &SNDU);
    let third = gather.deliver(63, &DATAGRAM);
    if first.is_err() || second.is_err() || third.is_err() {
        return Err(Fail::new("a refused datagram"));
    }
    Ok(gather.into_offered())
}

/// The same under this plan.
fn offered_of(alloc: Global, plan: &Plan) -> Result<Offered, Fail> {
    offered_under::<Brand>(alloc, plan)
}

/// Whether one service is offered the datagram twice, and nothing else.
fn is_twice(offered: &Offered) -> bool {
    if offered.lists.versions() != 1 || offered.lists.services(0) != 1 {
        return false;
    }
    let list = offered.lists.at(0, 0);
    if list.len() != 2 {
        return false;
    }
    list.at(0) == DATAGRAM.as_slice() && list.at(1) == DATAGRAM.as_slice()
}

#[test]
fn datagrams_are_offered_in_the_order_of_their_delivery(rt: HostRuntime) -> Result<(), Fail> {
    let plan = plan_of(rt.alloc(), SECTIONS)?;
    let offered = offered_of(rt.alloc(), &plan)?;
    assert!(rt; is_twice(&offered));
    assert_eq!(rt; (offered.not_ip, offered.unrouted), (1, 0));
    Ok(())
}

/// As many bytes 0.
fn zeros(alloc: Global, count: usize) -> Result<Vec<u8>, OutOfMemory> {
    vec![in alloc; 0u8; count]
}

/// How many of so many deliveries are taken before the first that is not.
fn taken<P: OuterPlan>(gather: &mut Gather<'_, P>, bytes: &[u8], most: u32) -> u32 {
    for place in 0..most {
        if gather.deliver(0, bytes).is_err() {
            return place;
        }
    }
    most
}

/// How many long deliveries are taken, then shorter ones, then empty ones, and why the last is not.
fn limits_under<P: OuterPlan>(alloc: Global, plan: &Plan) -> Result<([u32; 3], GatherFault), Fail>
    requires outer { plan_fields plan.now ≡ P.outer }
{
    let long = zeros(alloc, 65_575)?;
    let shorter = zeros(alloc, 36_981)?;
    let mut gather: Gather<'_, P> = Gather::new(alloc, plan)?;
    let counts = [
        taken(&mut gather, &long, 5_000),
        taken(&mut gather, &shorter, 2),
        taken(&mut gather, &[], 5_000_000),
    ];
    Ok((counts, gather.cause()))
}

/// The same under this plan.
fn limits_of(alloc: Global, plan: &Plan) -> Result<([u32; 3], GatherFault), Fail> {
    limits_under::<Brand>(alloc, plan)
}

/// Profile: 268,435,456 bytes are 4,093 datagrams of 65,575 bytes and one of 36,981; and there are 4,194,304 datagrams, these among them.
#[test]
fn as_much_is_gathered_as_a_capture_has(rt: HostRuntime) -> Result<(), Fail> {
    let plan = plan_of(rt.alloc(), SECTIONS)?;
    let want = ([4_093, 1, 4_190_210], GatherFault::Full);
    assert_eq!(rt; limits_of(rt.alloc(), &plan)?, want);
    Ok(())
}
