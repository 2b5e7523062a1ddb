//! GSE packets by hand (TS 102 606-1 clause 4.2) in baseband frames; CRC-8 and CRC-32 were worked out apart from this program.
ghost use Rattle.std.specs.Prelude.{◌≡◌, ◌+◌, ◌^◌, ◌<◌, true, false, is_some};
ghost use Rattle.bridge_frame.specs.Bridge.{is_of_sndus};

use crate::bridge_outlet::{outlet_of, put_text, text_of};
use crate::buffers::{empty_slots, zeros};
use crate::counting_outlet::Noted;
use bridge_frame::Bridge;
use gse_reassembly::{FRAG_IDS, PDU_BUFFER_SIZE};
use std::alloc::Global;
use std::test::Fail;
use test_lines::expect;

/// The longest baseband frame of these tests.
const LONGEST: usize = 300;

/// What it is; up to three baseband frames, where FRAME is an Ethernet frame of 60 bytes; and what a bridge of ISI 7 delivers of them: frames,
/// others, refused.
const CASES: [&str; 7] = [
    "one packet|500700000200000000BD E03E0001 FRAME|1 0 0",
    "with a label|5007000002300000009A C0440001 0200000000AA FRAME|1 0 0",
    "on ISI 8|500800000200000000C6 E03E0001 FRAME|0 0 0",
    "a wrong CRC-8|500700000200000000BC E03E0001 FRAME|0 0 0",
    "after a label that re-uses none|500700000400000000A3 F03E0001 FRAME E03E0001 FRAME|1 0 0",
    "three fragments|500700000098000000A6 A0110A003E0001 FF*6 020000000001;5007000000A0000000D6 30120A 88B5 00*15;50070000013000000095 70240A 00*31 E8CBF31A|1 0 0",
    "the first and the last of them|500700000098000000A6 A0110A003E0001 FF*6 020000000001;50070000013000000095 70240A 00*31 E8CBF31A|0 0 0",
];

/// The bytes of a frame with zeros behind them.
fn frame_of(alloc: Global, text: &str) -> Result<Vec<u8>, Fail> {
    let mut bytes = Vec::new(alloc);
    put_text(alloc, &mut bytes, text)?;
    for _ in bytes.len()..LONGEST {
        bytes.push(0)?;
    }
    Ok(bytes)
}

/// Gives a frame to the bridge, where there is one.
fn take(
    alloc: Global,
    bridge: &mut Bridge<Global>,
    text: Option<&str>,
    outlet: &mut Noted,
) -> Result<(), Fail>
    requires pdus { is_of_sndus bridge.old.units ≡ false }
    requires selected { is_some bridge.old.id ≡ true }
    requires few { bridge.old.taken < 2 ^ 10 }
    ensures pdus { is_of_sndus bridge.new.units ≡ false }
    ensures selected { is_some bridge.new.id ≡ true }
    ensures few { bridge.new.taken < bridge.old.taken + 2 }
{
    let Some(text) = text else {
        return Ok(());
    };
    let frame = frame_of(alloc, text)?;
    if frame.len() < 10 {
        return Err(Fail::new("no whole header"));
    }
    bridge.step_frame(&frame, outlet)?;
    Ok(())
}

/// The frames of a case, and what must be delivered of them.
fn columns_of(case: &str) -> Option<(&str, &str)> {
    let (_, columns) = case.split_once('|')?;
    columns.split_once('|')
}

/// Fails where a case gives something else than it must.
fn receive(alloc: Global, bridge: &mut Bridge<Global>, case: &str) -> Result<(), Fail>
    requires pdus { is_of_sndus bridge.old.units ≡ false }
    requires selected { is_some bridge.old.id ≡ true }
    requires few { bridge.old.taken < 2 ^ 8 }
    ensures pdus { is_of_sndus bridge.new.units ≡ false }
    ensures selected { is_some bridge.new.id ≡ true }
    ensures few { bridge.new.taken < bridge.old.taken + 4 }
{
    let Some((texts, due)) = columns_of(case) else {
        return Err(Fail::new(format_args!("{case}: no case")));
    };
    let mut outlet = outlet_of(9);
    let mut texts = texts.split(';');
    take(alloc, bridge, texts.next(), &mut outlet)?;
    take(alloc, bridge, texts.next(), &mut outlet)?;
    take(alloc, bridge, texts.next(), &mut outlet)?;
    expect(case, &text_of(alloc, &outlet)?, due)
}

/// One bridge takes all cases, one after another.
fn receive_all(alloc: Global, bridge: &mut Bridge<Global>) -> Result<(), Fail>
    requires pdus { is_of_sndus bridge.old.units ≡ false }
    requires selected { is_some bridge.old.id ≡ true }
    requires few { bridge.old.taken < 2 ^ 7 }
{
    let [one, label, isi, crc, reuse, three, two] = CASES;
    receive(alloc, bridge, one)?;
    receive(alloc, bridge, label)?;
    receive(alloc, bridge, isi)?;
    receive(alloc, bridge, crc)?;
    receive(alloc, bridge, reuse)?;
    receive(alloc, bridge, three)?;
    receive(alloc, bridge, two)
}

#[test]
fn frames_in_pdus_are_delivered(rt: HostRuntime) -> Result<(), Fail> {
    let alloc = rt.alloc();
    let buffer = zeros(alloc, PDU_BUFFER_SIZE)?;
    let mut bridge = Bridge::over(buffer, empty_slots(alloc, FRAG_IDS)?, false);
    bridge.select(7);
    receive_all(alloc, &mut bridge)
}
