//! Draws and datagrams of samples, worked out apart from this code.
use datagram_routing::Offered;
use ip_datagram::DatagramList;
use plan::sample_plan;
use sample_draws::{Draws, offer_sample};
use std::alloc::{AllocError as OutOfMemory, Global};
use std::test::Fail;
use test_lines::expect_lines;

/// The first three draws of a number.
fn draws_of(alloc: Global, number: u32) -> Result<String, OutOfMemory> {
    let mut draws = Draws::new(number);
    let first = draws.next();
    let second = draws.next();
    format!(in alloc; "{first} {second} {}", draws.next())
}

/// What a service is offered, there being no changes.
fn list_of(offered: &Offered, service: u32) -> Result<&DatagramList, Fail> {
    if offered.lists.versions() != 1 || offered.lists.services(0) <= service as usize {
        return Err(Fail::new("other lists"));
    }
    Ok(offered.lists.at(0, service))
}

/// How many datagrams both services are offered, and how many are not offered to any.
fn counts_of(alloc: Global, offered: &Offered) -> Result<String, Fail> {
    let lecture = list_of(offered, 0)?.len();
    let files = list_of(offered, 1)?.len();
    let others = [offered.not_ip, offered.unrouted, offered.too_long];
    Ok(format!(in alloc; "{lecture} {files} {others:?}")?)
}

/// The size of the first datagram that a service is offered, its header with 3 bytes more, and its last 2 bytes.
fn first_of(alloc: Global, offered: &Offered, service: u32) -> Result<String, Fail> {
    let list = list_of(offered, service)?;
    if list.len() == 0 {
        return Err(Fail::new("an empty list"));
    }
    let datagram = list.at(0);
    let front = datagram.first_chunk::<23>().ok_or("a short datagram")?;
    let back = datagram.last_chunk::<2>().ok_or("a short datagram")?;
    let front = hex::encode_upper(alloc, front.as_slice())?;
    let back = hex::encode_upper(alloc, back.as_slice())?;
    Ok(format!(in alloc; "{} {front} {back}", datagram.len())?)
}

/// What is said of the sample of a number.
fn told_of(alloc: Global, asked: &str) -> Result<String, Fail> {
    let (number, what) = asked.split_once(' ').ok_or("nothing asked")?;
    let number = number.parse::<u32>()?;
    if what == "draws" {
        return Ok(draws_of(alloc, number)?);
    }
    let plan = sample_plan(alloc)?;
    let offered = offer_sample(alloc, &plan, &mut Draws::new(number))?;
    match what {
        "counts" => counts_of(alloc, &offered),
        "lecture" => first_of(alloc, &offered, 0),
        "files" => first_of(alloc, &offered, 1),
        _ => Err(Fail::new("nothing asked")),
    }
}

/// A number and what is asked; after `|` the answer.
///
/// The first state of 1 is 7806831264735756412, whose upper 32 bits are 1817669548. That is even, and 28 + 2187888307 mod 1373 is 478.
/// 2784682393 is odd, and 28 + 1644385741 mod 1373 is 1335.
const SAMPLES: &str = "1 draws|1817669548 2187888307 2784682393
4294967295 draws|139003518 3006858072 2182559648
1 counts|2037 1963 [0, 0, 0]
2 counts|1996 2004 [0, 0, 0]
4294967295 counts|1968 2032 [0, 0, 0]
1 lecture|478 450001DE00000000401100000A000001EF010001000102 C8C9
1 files|1335 4500053700000000401100000A000001EF020001010203 2223";

/// Draws are the upper half of the state, two draws make a datagram, and each service is offered so many of them.
#[test]
fn samples_are_drawn_so(rt: HostRuntime) -> Result<(), Fail> {
    expect_lines(rt.alloc(), told_of, SAMPLES)
}
