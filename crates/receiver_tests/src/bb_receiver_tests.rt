//! Small recordings of baseband frames of two services: what is delivered, in which order, and every number. `receiver_lines` says what the
//! columns of a line are.
ghost use Rattle.std.specs.Prelude.{◌≡◌, ◌≤◌, true, length};
ghost use Rattle.plan_spec.specs.Plan.{is_baseband};
ghost use Rattle.demux_core.specs.Carriers.{plan_of as plan_in};

use crate::receiver_cases::plan_of;
use crate::receiver_lines::{Case, expect_left, read_line};
use bumpalo::Bump;
use demux_core::Receiver;
use service_plan::Plan;
use std::alloc::Global;
use std::test::Fail;
use test_recordings::{NotedOutlet, bytes_of};

/// Services on ISI 3 and 4.
const SETTINGS: &str = "carrier = \"bb\"
frame_bytes = 300
[[service]]
name = \"one\"
kind = \"gse\"
isi = 3
rules = [\"239.1.0.0/16\"]
[[service]]
name = \"two\"
kind = \"gse\"
isi = 4
rules = [\"239.2.0.0/16\"]
";

/// The bytes of a frame.
const SIZE: usize = 300;

/// What stands in a frame, by its name: its header (EN 302 307-1 clause 5.1.6), and names of `packets_of`. Zeros fill it up. The CRC-8 was
/// worked out apart from this program.
fn words_of(frame: &str) -> Result<&'static str, Fail> {
    match frame {
        // a complete packet for all receivers, on ISI 3, 4 or 5, and in a stream of a single input, whose second byte is 9
        "ISI_3" => Ok("5003000000C000000041 WHOLE"),
        "ISI_4" => Ok("5004000000C00000005D WHOLE"),
        "ISI_5" => Ok("5005000000C00000001E WHOLE"),
        "SINGLE" => Ok("7009000000C0000000C1 WHOLE"),
        // on ISI 3: a complete packet with a label, one that re-uses it, and padding
        "LABELLED" => Ok("50030000020000000064 WITH_LABEL RE_USING"),
        // on ISI 3: a packet that re-uses a label first, and one for all receivers
        "RE_USED" => Ok("50030000020000000064 RE_USING WHOLE"),
        // on ISI 3: the middle of fragments whose first did not come
        "MIDDLE" => Ok("5003000000C000000041 OF_SEVEN"),
        // zeros; bytes FF; a CRC-8 that differs; a DFL of 193 bits
        "ZEROS" => Ok(""),
        "ONES" => Ok("FF*300"),
        "WRONG_CRC" => Ok("5003000000C000000040 WHOLE"),
        "ODD_LENGTH" => Ok("5003000000C100000004 WHOLE"),
        _ => Err("no such frame".into()),
    }
}

/// The digits of GSE packets by their name (TS 102 606-1 clause 4.2). A word that is no name is digits itself.
fn packets_of(word: &str) -> &str {
    match word {
        // the datagram in a complete packet for all receivers, to a label, and to the label before it
        "WHOLE" => "E0160800 450000140000000040110000 0A000001EF010203",
        "WITH_LABEL" => "C01C080001005E010203 450000140000000040110000 0A000001EF010203",
        "RE_USING" => "F0160800 450000140000000040110000 0A000001EF010203",
        // a middle of 20 bytes on Frag ID 7
        "OF_SEVEN" => "301507 0102030405060708090A 0B0C0D0E0F1011121314",
        _ => word,
    }
}

/// Puts the bytes of a frame in the place of its first zeros.
fn fill(alloc: Global, frame: &mut [u8; SIZE], words: &str) -> Result<(), Fail> {
    let mut bytes = Vec::new(alloc);
    for word in words.split_whitespace() {
        bytes.extend_from_slice(&bytes_of(alloc, packets_of(word))?)?;
    }
    for (place, byte) in frame.iter_mut().zip(&bytes) {
        *place = *byte;
    }
    Ok(())
}

/// The frame of a name.
fn frame_of(alloc: Global, name: &str) -> Result<[u8; SIZE], Fail> {
    let mut frame = [0; SIZE];
    fill(alloc, &mut frame, words_of(name)?)?;
    Ok(frame)
}

/// Takes a frame, where the receiver can be given one.
fn take(receiver: &mut Receiver<'_>, frame: &[u8; SIZE], noted: &mut NotedOutlet)
    requires baseband { is_baseband (plan_in receiver.old) ≡ true }
    requires few { length (plan_in receiver.old).services ≤ 8 }
    ensures { plan_in receiver.new ≡ plan_in receiver.old }
{
    if receiver.is_open() && receiver.stream_counts().records < 1000 {
        match receiver.step_frame(frame, noted) {
            Ok(()) => {}
            Err(_) => {}
        }
    }
}

/// Gives a receiver frames.
fn give(
    alloc: Global,
    receiver: &mut Receiver<'_>,
    names: &str,
    noted: &mut NotedOutlet,
) -> Result<(), Fail>
    requires baseband { is_baseband (plan_in receiver.old) ≡ true }
    requires few { length (plan_in receiver.old).services ≤ 8 }
    ensures { plan_in receiver.new ≡ plan_in receiver.old }
{
    for name in names.split_whitespace() {
        take(receiver, &frame_of(alloc, name)?, noted);
    }
    Ok(())
}

/// Opens a receiver, gives it the frames of a case, and compares what is left.
fn case_comes(alloc: Global, plan: &Plan, case: &Case<'_>) -> Result<(), Fail> {
    let count = plan.services.len();
    if plan.frame_bytes.is_none() || count > 8 {
        return Err("plan".into());
    }
    let arena = Bump::new(alloc);
    let mut noted = NotedOutlet::new(case.refuses_from);
    let mut receiver = Receiver::open(&arena, plan)?;
    give(alloc, &mut receiver, case.received, &mut noted)?;
    expect_left(alloc, case, &receiver, count, &noted, true)
}

/// EN 302 307-1 clause 5.1.6 and TS 102 606-1 clause 4.2. A refused frame is unreadable, and one of an ISI that no service has is other; a
/// single input stream counts as ISI 0.
const CASES: &str = "no frame||open|stream records=0
in rotation|ISI_4 ISI_3 ISI_4|1 0 1 open|stream records=3|one heard=1 units=1 datagrams=1|two heard=2 units=2 datagrams=2
frames of others|ISI_5 SINGLE ISI_3|0 open|stream records=3 other=2|one heard=1 units=1 datagrams=1
refused frames|ZEROS ONES WRONG_CRC ODD_LENGTH ISI_4|1 open|stream records=5 unreadable=4|two heard=1 units=1 datagrams=1
a label and one that is re-used|LABELLED|0 0 open|stream records=1|one heard=1 units=2 datagrams=2
refused packets|LABELLED RE_USED MIDDLE|0 0 0 open|stream records=3|one heard=3 units=3 delimited=1 bad_length=1 datagrams=3
a refused datagram|ISI_3 LABELLED ISI_4 refuses=2|0 -|stream records=2|one heard=2 units=3 datagrams=3";

/// Each service by itself, the datagrams in the order of the frames, and every number.
#[test]
fn frames_are_led_to_the_services_of_their_isis(rt: HostRuntime) -> Result<(), Fail> {
    let plan = plan_of(rt.alloc(), &[SETTINGS])?;
    for line in CASES.lines() {
        let Some(case) = read_line(line) else {
            return Err(Fail::new(format_args!("{line}: no case")));
        };
        case_comes(rt.alloc(), &plan, &case)?;
    }
    Ok(())
}
