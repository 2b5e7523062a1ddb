//! What services are offered of captures, counted by hand.
use crate::words::{datagram_in, plan_in};
use datagram_routing::Offered;
use ip_datagram::DatagramList;
use service_plan::Plan;
use std::alloc::{AllocError as OutOfMemory, Global};
use std::test::Fail;
use test_lines::expect_lines;
use test_recordings::{Datagram, datagram_of};

/// What three datagrams and a record without a datagram give.
fn offered_of(alloc: Global, plan: &Plan, datagrams: [Datagram; 3]) -> Result<Offered, Fail> {
    let [first, second, third] = datagrams;
    let mut offered = Offered::new(alloc, plan)?;
    offered.offer(plan, Some(&datagram_of(alloc, &first)?))?;
    offered.offer(plan, Some(&datagram_of(alloc, &second)?))?;
    offered.offer(plan, Some(&datagram_of(alloc, &third)?))?;
    offered.offer(plan, None)?;
    Ok(offered)
}

/// Pieces of settings, and after `;` three datagrams; what each service is offered, by its sizes, and what becomes of the others.
///
/// The first service with a rule that matches takes a datagram, or none does: 4,080 bytes go into a section, 32,757 into an SNDU.
const CASES: &str = "\
FILES; 28>239.2.0.9 28>10.0.0.9 20>239.3.0.0|offered 28; not IP 1, unrouted 2, too long 0|a rule matches
LECTURE ALL_FILES; 20>239.1.0.9 21>239.2.0.9 22>239.1.9.9|offered 20 22; offered 21; not IP 1, unrouted 0, too long 0|rules of two services match
LECTURE ALL_FILES; 4080>239.1.0.9 4081>239.1.0.9 20>10.0.0.9|offered 4080; offered; not IP 1, unrouted 1, too long 1|a section has 4,080 bytes of a datagram at most
LECTURE ALL_FILES; 32757>239.2.0.9 32758>239.2.0.9 4081>239.2.0.9|offered; offered 32757 4081; not IP 1, unrouted 0, too long 1|an SNDU has 32,757 bytes of a datagram at most";

/// Appends the sizes of the datagrams of a list.
fn put_sizes(text: &mut String, list: &DatagramList) -> Result<(), OutOfMemory> {
    text.push_str("offered")?;
    for i in 0..list.len() {
        write!(text, " {}", list.at(i).len())?;
    }
    text.push_str("; ")
}

/// Appends what each service is offered, there being no changes.
fn put_services(text: &mut String, offered: &Offered) -> Result<(), Fail> {
    if offered.lists.versions() != 1 {
        return Err(Fail::new("other lists"));
    }
    for service in 0..offered.lists.services(0) {
        put_sizes(text, offered.lists.at(0, u32::try_from(service)?))?;
    }
    Ok(())
}

/// What becomes of datagrams.
fn told(alloc: Global, offered: &Offered) -> Result<String, Fail> {
    let mut text = String::new(alloc);
    put_services(&mut text, offered)?;
    let (not_ip, unrouted, too_long) = (offered.not_ip, offered.unrouted, offered.too_long);
    write!(
        &mut text,
        "not IP {not_ip}, unrouted {unrouted}, too long {too_long}"
    )?;
    Ok(text)
}

/// The three datagrams of words.
fn datagrams_in(words: &str) -> Result<[Datagram; 3], Fail> {
    let (first, rest) = words.split_once(' ').ok_or("no second datagram")?;
    let (second, third) = rest.split_once(' ').ok_or("no third datagram")?;
    Ok([
        datagram_in(first)?,
        datagram_in(second)?,
        datagram_in(third)?,
    ])
}

/// What becomes of the datagrams of a line.
fn routed(alloc: Global, given: &str) -> Result<String, Fail> {
    let (settings, words) = given.split_once("; ").ok_or("no datagrams")?;
    let plan = plan_in(alloc, settings)?;
    told(alloc, &offered_of(alloc, &plan, datagrams_in(words)?)?)
}

#[test]
fn the_first_service_with_a_rule_takes_what_fits_it(rt: HostRuntime) -> Result<(), Fail> {
    expect_lines(rt.alloc(), routed, CASES)
}
