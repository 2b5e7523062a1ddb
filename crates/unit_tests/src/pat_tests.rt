//! PATs by hand, each with its CRC_32 by an independent program, and sections with one fault or two.
use crate::cases::expect_read;
use psi_tables::{Pat, PatReadFault, Program, read_pat, write_pat};
use std::alloc::{AllocError as OutOfMemory, Global};
use std::test::Fail;
use test_recordings::bytes_of;

/// Sections, transport_stream_id with number and PID of each program or the fault, and what the section has (ISO/IEC 13818-1 clause
/// 2.4.4.3 and the rules of the profile).
const SECTIONS: &str = "00B00D 0004 C1 0000 000AFFFE 1F4B477D|4 10:8190|one program
00B009 0004 C1 0000 4FBAB4A5|4|no program
00B015 0005 C3 0000 0000E010 000A0064 000AFFFF DFA32ED8|5 0:16 10:100 10:8191|version 1, the network's PID, a number twice, reserved bits 0
00F3FD 0004 C1 0000 000AFFFE*253 CD928BC3|253 programs|the longest section, of 1,024 bytes
|Section|no byte
00 B0|Section|two bytes
00B00E 0004 C1 0000 000AFFFE 9A3BBA63|Section|section_length one too large
00B00C 0004 C1 0000 000AFFFE 9FDBE71A|Section|section_length one too small
00300D 0004 C1 0000 000AFFFE 1CB036FE|Section|section_syntax_indicator 0
00B00D 0004 C1 0000 000AFFFE 1F4B477C|Section|another CRC_32
00B008 0004 C1 00 AD947069|Section|a body of 4 bytes
00B3FE 0004 C1 0000 000AFFFE*253 00 E94BB3A9|Section|section_length 1,022, and a loop that is not whole
02B00D 0004 C1 0000 000AFFFE 10A68171|Table|table_id 2
01B00D 0004 C1 0000 000AFFFE 18BDA47B|Table|table_id 1
00B00D 0004 C0 0000 000AFFFE 501C2F6C|Next|current_next_indicator 0
00B00D 0004 C1 0100 000AFFFE 04634A05|Numbers|section_number 1
00B00D 0004 C1 0001 000AFFFE 564620F0|Numbers|last_section_number 1
00B00A 0004 C1 0000 00 6784D0F9|Loop|a program of one byte
00B00C 0004 C1 0000 000AFF 4217E9F1|Loop|a program of three bytes
00B00E 0004 C1 0000 000AFFFE 00 312D8E48|Loop|a byte after the last program
02300D 0004 C1 0000 000AFFFE 135DF0F2|Section|section_syntax_indicator 0 and table_id 2
02B00D 0004 C0 0000 000AFFFE 5FF1E960|Table|table_id 2 and current_next_indicator 0
00B00D 0004 C0 0001 000AFFFE 191148E1|Next|current_next_indicator 0 and last_section_number 1
00B00C 0004 C0 0000 000AFF 593FE489|Next|current_next_indicator 0 and a loop that is not whole
00B00C 0004 C1 0100 000AFF 0B1A8E7C|Numbers|section_number 1 and a loop that is not whole";

/// What a PAT says; of more than ten programs their number.
fn text_of(alloc: Global, pat: &Pat) -> Result<String, OutOfMemory> {
    if pat.len() > 10 {
        return format!(in alloc; "{} programs", pat.len());
    }
    let mut text = format!(in alloc; "{}", pat.transport_stream_id)?;
    for place in 0..pat.len() {
        let program = pat.at(place);
        write!(&mut text, " {}:{}", program.number, program.pid)?;
    }
    Ok(text)
}

/// What is read of a section, or the fault.
fn read_of(alloc: Global, section: &[u8]) -> Result<String, OutOfMemory> {
    match read_pat(alloc, section) {
        Ok(pat) => text_of(alloc, &pat),
        Err(PatReadFault::Fault(fault)) => format!(in alloc; "{fault:?}"),
        Err(PatReadFault::OutOfMemory) => Err(OutOfMemory),
    }
}

#[test]
fn a_pat_is_read_or_its_first_fault_is_named(rt: HostRuntime) -> Result<(), Fail> {
    expect_read(rt.alloc(), read_of, SECTIONS)
}

/// Two programs, byte for byte, and the byte after the section.
const WRITTEN: &str = "00B011 0004 C1 0000 000AFFFE 000BFFFD 74374D0A EE";

#[test]
fn a_pat_is_written(rt: HostRuntime) -> Result<(), Fail> {
    let alloc = rt.alloc();
    let mut pat = Pat::new(alloc, 4);
    pat.push(Program {
        number: 10,
        pid: 8190,
    })?;
    pat.push(Program {
        number: 11,
        pid: 8189,
    })?;
    let mut into = [0xEE; 4096];
    assert!(rt; write_pat(&pat, &mut into) == 20);
    assert!(rt; into.starts_with(&bytes_of(alloc, WRITTEN)?));
    Ok(())
}
