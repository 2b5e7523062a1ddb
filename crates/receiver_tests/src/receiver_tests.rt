//! Small recordings of several services: what is delivered, in which order, and every number. `receiver_lines` says what the columns of a line
//! are, `receiver_cases` what the words for records are.
ghost use Rattle.std.specs.Prelude.{◌≡◌, ◌≤◌, ◌<◌, false, length};
ghost use Rattle.plan_spec.specs.Plan.{is_baseband};
ghost use Rattle.plan.specs.PlanView.{plan_fields};
ghost use Rattle.demux_core.specs.Carriers.{plan_of as plan_in};

use crate::receiver_cases::{plan_of, record_of};
use crate::receiver_lines::{Case, expect_left, read_line};
use bumpalo::Bump;
use demux_core::Receiver;
use service_plan::{Plan, ule_plan};
use std::alloc::Global;
use std::test::Fail;
use test_recordings::NotedOutlet;
use test_recordings::settings::{FRAMES, INT, ONE_AND_TWO, THREE};
use test_recordings::units::{INT as FIRST_INT, NEXT_INT};
use ts_record::Record;

/// Takes a record, where the receiver can be given one.
fn take(receiver: &mut Receiver<'_>, item: &Record, noted: &mut NotedOutlet)
    requires packets { is_baseband (plan_in receiver.old) ≡ false }
    requires few { length (plan_in receiver.old).services ≤ 8 }
    ensures { plan_in receiver.new ≡ plan_in receiver.old }
{
    if receiver.is_open() && receiver.stream_counts().records < 1000 {
        match receiver.step(item, noted) {
            Ok(()) => {}
            Err(_) => {}
        }
    }
}

/// Gives a receiver records, and where it is open then the end; whether nothing was refused at the end.
fn give(receiver: &mut Receiver<'_>, words: &str, noted: &mut NotedOutlet) -> Result<bool, Fail>
    requires packets { is_baseband (plan_in receiver.old) ≡ false }
    requires few { length (plan_in receiver.old).services ≤ 8 }
    ensures { plan_in receiver.new ≡ plan_in receiver.old }
{
    for word in words.split_whitespace() {
        let Some(record) = record_of(word) else {
            return Err(Fail::new(format_args!("{word}: no record")));
        };
        take(receiver, &record, noted);
    }
    Ok(!receiver.is_open() || receiver.finish(noted).is_ok())
}

/// Opens a receiver, gives it the records of a case, and compares what is left.
fn case_comes(alloc: Global, plan: &Plan, case: &Case<'_>) -> Result<(), Fail> {
    let count = plan.services.len();
    if plan.frame_bytes.is_some() || count > 8 {
        return Err("plan".into());
    }
    let arena = Bump::new(alloc);
    let mut noted = NotedOutlet::new(case.refuses_from);
    let mut receiver = Receiver::open(&arena, plan)?;
    let is_finished = give(&mut receiver, case.received, &mut noted)?;
    expect_left(alloc, case, &receiver, count, &noted, is_finished)
}

/// Of each line of a table comes what must come.
fn all_come(alloc: Global, plan: &Plan, table: &str) -> Result<(), Fail> {
    for line in table.lines() {
        let Some(case) = read_line(line) else {
            return Err(Fail::new(format_args!("{line}: no case")));
        };
        case_comes(alloc, plan, &case)?;
    }
    Ok(())
}

/// Each service by itself, the datagrams in the order of the records with their last bytes. EN 301 192 clause 8.4: sections on the
/// INT's PID are counted, and the first is lent.
const CASES: &str = "no record|||stream records=0
in rotation|256/0 257/0 256/1 257/1|0 1 0 1|stream records=4|one heard=2 units=2 datagrams=2|two heard=2 units=2 datagrams=2
every packet of one dropped|256/0 256/1|0 0|stream records=2|one heard=2 units=2 datagrams=2
a duplicate after the other service's packet, and a discontinuity|256/0 257/0 256/0 257/2|0 1 1|stream records=4|one heard=1 repeats=1 units=1 datagrams=1|two heard=2 gaps=1 units=2 datagrams=2
units over two packets each, in rotation: the order is that of their last bytes|head:256/0 head:257/0 tail:257/1 tail:256/1|1 0|stream records=4|one heard=2 units=1 datagrams=1|two heard=2 units=1 datagrams=1
the second packet of one is lost: its unit is cut by the next packet|head:256/0 head:257/0 256/2 tail:257/1|0 1|stream records=4|one heard=2 gaps=1 units=1 delimited=1 datagrams=1|two heard=2 units=1 datagrams=1
sections, and an SNDU between|section:258/0 256/0 section:258/1|2 0 2|stream records=3|one heard=1 units=1 datagrams=1|three heard=2 units=2 datagrams=2
records that no service receives|timeless:256/0 marked:256/0 scrambled:256/0 unsynced:256/0 unloaded:256/0 259/0 256/0|0|stream records=7 unreadable=4 without_payload=1 other=1|one heard=1 units=1 datagrams=1
a section of the INT|int:600/0 256/0|0 int|stream records=2|one heard=1 units=1 datagrams=1|table units=1
the first section and the next one|int:600/0 next:600/1|int|stream records=2|table units=2
the next section and the first one|next:600/0 int:600/1|next|stream records=2|table units=2
the third datagram is refused: no later record is taken|256/0 257/0 257/1 256/1 refuses=3|0 1 -|stream records=3|one heard=1 units=1 datagrams=1|two heard=2 units=2 datagrams=2";

#[test]
fn services_do_not_disturb_each_other(rt: HostRuntime) -> Result<(), Fail> {
    let plan = plan_of(rt.alloc(), &[INT, ONE_AND_TWO, THREE])?;
    all_come(rt.alloc(), &plan, CASES)?;
    assert!(rt; NEXT_INT != FIRST_INT);
    Ok(())
}

/// PID 256 has two datagrams, and the packets of all other PIDs are other.
const ONE_PID: &str =
    "one PID|256/0 257/0 int:600/0 256/1|0 0|stream records=4 other=2|one heard=2 units=2 datagrams=2";

/// The plan of one PID has no INT.
#[test]
fn one_pid_is_received_by_itself(rt: HostRuntime) -> Result<(), Fail> {
    let plan = ule_plan(rt.alloc(), 256)?;
    all_come(rt.alloc(), &plan, ONE_PID)
}

/// A frame of three datagrams goes on where the records end.
const UNDER_WAY: &str =
    "a frame under way at the end|frame:512/0|0 0 0|stream records=1|one heard=1 units=3 frames=1 datagrams=3
its first datagram is refused|frame:512/0 refuses=1|- fails|stream records=1|one heard=1 units=3 frames=1 datagrams=3
its second datagram is refused|frame:512/0 refuses=2|0 - fails|stream records=1|one heard=1 units=3 frames=1 datagrams=3";

/// A frame under way is closed at the end. Where one of its datagrams is refused, the next is not offered, and all is counted.
#[test]
fn a_frame_under_way_is_delivered_at_the_end(rt: HostRuntime) -> Result<(), Fail> {
    let plan = plan_of(rt.alloc(), &[FRAMES])?;
    all_come(rt.alloc(), &plan, UNDER_WAY)
}
