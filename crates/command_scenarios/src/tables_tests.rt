//! `tables SETTINGS`: the packets of PAT, PMTs and INT, byte for byte. The columns are those of `runs`.
use crate::outcomes::done_under;
use crate::runs::{all_end, ends, leaving};
use crate::settings::settings_of;
use std::alloc::Global;
use std::test::Fail;

/// M2TS are other time stamps. TO_8189 moves the files to the PID on which a PMT could be.
const CASES: &str =
    "two components of one service, under time stamps|tables,a.toml;a=STAMPED+INT+SLICED+FILES+TAG_2||PAT@0 PMT@8190 INT_SLICED@600|
under other time stamps|tables,a.toml;a=M2TS+INT+LECTURE+TAG_1+FILES+TAG_2||PAT@0 PMT@8190 INT@600|
no INT|tables,a.toml;a=LECTURE+TAG_1+FILES+TAG_2|||
baseband frames|tables,a.toml;a=BASEBAND|||
a service_id of 0|tables,a.toml;a=INT+LECTURE+TAG_1+FILES+TAG_2_OF_0||PAT@0 PMT_FIRST@8190 INT_10_AND_0@600|
programs are in rising order|tables,a.toml;a=INT+LECTURE+TAG_1_OF_11+FILES+TAG_2||PAT_RISING@0 PMT_SECOND@8190 PMT_11_FIRST@8189 INT_11_AND_10@600|
PIDs of the INT and of a later version are left out|tables,a.toml;a=INT_8190+LECTURE+TAG_1+FILES+TAG_2+TO_8189||PAT_8188@0 PMT@8188 INT@8190|";

/// ISO/IEC 13818-1 clause 2.4.4, EN 301 192 clause 8.4: each table once, with counters from 0.
#[test]
fn tables_are_written_packet_by_packet(rt: HostRuntime) -> Result<(), Fail> {
    all_end(rt.alloc(), CASES)
}

/// Settings of 64 programs: service n of 1 to 64 is on PID 99 + n, has service_id 65 - n, component_tag n and the rule 239.n.0.0/16.
fn settings_of_many(alloc: Global) -> Result<String, Fail> {
    let mut text = settings_of(alloc, "INT")?;
    for n in 1..=64u16 {
        write!(
            &mut text,
            "[[service]]\nname = \"s{n}\"\nkind = \"ule\"\npid = {}\nservice_id = {}\n",
            n + 99,
            65 - n
        )?;
        write!(
            &mut text,
            "component_tag = {n}\nrules = [\"239.{n}.0.0/16\"]\n"
        )?;
    }
    Ok(text)
}

/// What `find` prints of them.
fn text_of_many(alloc: Global) -> Result<String, Fail> {
    let mut text = "rule,service,tag,pid\n".to_string(alloc)?;
    for n in 1..=64u16 {
        write!(&mut text, "239.{n}.0.0/16,{},{n},{}\n", 65 - n, n + 99)?;
    }
    Ok(text)
}

/// PID and continuity_counter of the packet of this number: two of the PAT of 268 bytes, one of each PMT, eight of the INT of 1,426.
fn head_of(number: usize) -> [u8; 4] {
    if number < 2 {
        return if number == 0 {
            [0x47, 0x40, 0, 0x10]
        } else {
            [0x47, 0, 0, 0x11]
        };
    }
    if number < 66 {
        // 8190 - (number - 2): 1FFE down to 1FBF
        return [0x47, 0x5F, (0x100 - number) as u8, 0x10];
    }
    let counter = ((number - 66) % 16) as u8;
    let start = if counter == 0 { 0x40 } else { 0 };
    [0x47, start + 2, 0x58, 0x10 + counter]
}

/// The number of the first packet with another head, or how many there are.
fn difference(packets: &[u8]) -> usize {
    for (number, packet) in packets.chunks(188).enumerate() {
        if !packet.starts_with(&head_of(number)) {
            return number;
        }
    }
    packets.len() / 188
}

/// There are 74 packets with these heads, and `find` names the PID of each service.
fn are_named(alloc: Global, packets: &[u8]) -> Result<(), Fail> {
    if difference(packets) != 74 {
        return Err("a packet with another head".into());
    }
    let text = text_of_many(alloc)?;
    let run = leaving("find,600", packets, text.as_bytes(), "");
    ends(alloc, "64 programs", &run)
}

/// The packets of these settings name all services.
fn are_found(alloc: Global, settings: &str) -> Result<(), Fail> {
    let done = done_under(alloc, &["tables", "a.toml"], settings, &[])?;
    are_named(alloc, &done.output)
}

/// Each program has a PID of its own.
#[test]
fn tables_of_64_programs_name_all_services(rt: HostRuntime) -> Result<(), Fail> {
    let settings = settings_of_many(rt.alloc())?;
    are_found(rt.alloc(), &settings)
}
