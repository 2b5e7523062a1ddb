//! Each public call, on numbers worked by hand.
use mpe_section::RealTime;
use std::alloc::Global;
use std::test::Fail;
use test_lines::{expect, expect_lines, numbers_of};
use time_slice::{Membership, Window, Windows, delta};

/// A moment, the next one and the units of time in ten milliseconds; after `|` delta_t: whole tens of milliseconds, rounded down, and 4,095
/// at most, which is all that 12 bits hold.
const DELTAS: &str = "0 9999 10000|0
0 10000 10000|1
5 40960004 10000|4095
0 269999 270000|0";

/// delta_t from a moment to the next one.
fn delta_of(alloc: Global, words: &str) -> Result<String, Fail> {
    let [now, next, ten] = numbers_of::<3>(words)?;
    if now > next || ten > 1_000_000 || next - now >= 4096 * ten {
        return Err(Fail::new("too far"));
    }
    Ok(format!(in alloc; "{}", delta(now, next, ten))?)
}

#[test]
fn delta_is_rounded_down(rt: HostRuntime) -> Result<(), Fail> {
    expect_lines(rt.alloc(), delta_of, DELTAS)
}

/// Sections that are seen or asked about, each with its moment and its delta_t; after `|` whether they are of the frame under way. Time
/// slicing: an announced burst begins ten milliseconds later, and not a microsecond before. A delta_t of 0 announces none.
const SLICED: &str = "belongs 5 1|true
see 5 1|
belongs 10004 7|true
belongs 10005 7|false
see 20000 2|
belongs 20005 7|true
forget 0 0|
belongs 40000 7|true
see 5 0|
belongs 4611686018427387903 7|true";

/// Without time slicing the number of the frame alone decides. Number 0 follows 4,095.
const NUMBERED: &str = "see 5 4095|
belongs 9999999 4095|true
belongs 5 0|false";

/// real_time_parameters with this delta_t.
fn time(delta: u16) -> RealTime {
    RealTime {
        delta,
        table_boundary: false,
        frame_boundary: false,
        address: 0,
    }
}

/// What a call answers.
fn answer_of(membership: &mut Membership, words: &str) -> Option<&'static str> {
    let (call, numbers) = words.split_once(' ')?;
    let (moment, delta) = numbers.split_once(' ')?;
    let moment = moment.parse().ok()?;
    let time = time(delta.parse().ok()?);
    match call {
        "see" => membership.see(moment, &time),
        "forget" => membership.forget(),
        "belongs" if membership.belongs(moment, &time) => return Some("true"),
        "belongs" => return Some("false"),
        _ => return None,
    }
    Some("")
}

/// Makes the call of a line.
fn call(membership: &mut Membership, line: &str) -> Result<(), Fail> {
    let Some((words, due)) = line.split_once('|') else {
        return Err(Fail::new("no bar"));
    };
    expect(line, answer_of(membership, words).unwrap_or("no call"), due)
}

#[test]
fn a_section_belongs_to_the_frame_under_way(rt: HostRuntime) -> Result<(), Fail> {
    for (sliced, calls) in [(true, SLICED), (false, NUMBERED)] {
        let mut membership = Membership::new(sliced, 10000);
        for line in calls.lines() {
            call(&mut membership, line)?;
        }
    }
    Ok(())
}

/// Slots of a cycle, and after `|` the service that has it and the number of the slot in its window, where two windows touch.
const SLOTS: &str = "99|None
100|Some((3, 0))
101|Some((3, 1))
102|Some((1, 0))
106|Some((1, 4))
107|None";

/// The owner of a slot.
fn owner_of(alloc: Global, slot: &str) -> Result<String, Fail> {
    let slot = slot.parse::<u32>()?;
    let list = [
        Window {
            service: 3,
            start: 100,
            length: 2,
        },
        Window {
            service: 1,
            start: 102,
            length: 5,
        },
    ];
    Ok(format!(in alloc; "{:?}", Windows::over(&list).owner(slot))?)
}

#[test]
fn each_slot_has_one_owner(rt: HostRuntime) -> Result<(), Fail> {
    expect_lines(rt.alloc(), owner_of, SLOTS)
}
