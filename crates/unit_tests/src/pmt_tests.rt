//! PMTs by hand, each with its CRC_32 by an independent program, and sections with one fault or two.
use crate::cases::expect_read;
use psi_tables::{Pmt, PmtReadFault, Stream, read_pmt, write_pmt};
use std::alloc::{AllocError as OutOfMemory, Global};
use std::test::Fail;
use test_recordings::bytes_of;

/// Sections, program_number with PID and component_tag of each stream or the fault, and what the section has (ISO/IEC 13818-1 clause
/// 2.4.4.8, EN 300 468 clause 6.2.39 and the rules of the profile).
const SECTIONS: &str =
    "02B01D 000A C1 0000 FFFF F000 80E200F003520101 80E201F003520102 EB7991BF|10 512:1 513:2|two streams
02B00D 000A C1 0000 FFFF F000 24A66F5F|10|no stream
02B01F 000A C3 0000 E100 F003 090107 0DE200F0056600520101 0DE201F000 F840FE7B|10 512:1 513:-|version 1, a PCR, descriptors of other tags, a stream without one
02B018 000B C1 0000 0000 0000 800200 0006 520101 520102 D56ACA41|11 512:1|two tags: the first counts; reserved bits 0
02B015 000A C1 0000 FFFF F003 520107 80E200F000 276C3F7E|10 512:-|a tag of the program is none of a stream
02B01D 000A C1 0000 FFFF F000 80FFFFF003520100 80E000F0035201FF 19241917|10 8191:0 0:255|PIDs and tags at their limits
02B3FD 000A C1 0000 FFFF F000 80E200F003520101*126 852E318B|126 streams|126 streams: 1,024 bytes
02|Section|one byte
02B01E 000A C1 0000 FFFF F000 80E200F003520101 80E201F003520102 CF8C69D6|Section|section_length one too large
02301D 000A C1 0000 FFFF F000 80E200F003520101 80E201F003520102 69A1A0C9|Section|section_syntax_indicator 0
02B01D 000A C1 0000 FFFF F000 80E200F003520101 80E201F003520102 EB7991BE|Section|another CRC_32
02B008 000A C1 00 392C2F61|Section|a body of 4 bytes
02B3FE 000A C1 0000 FFFF F3EC 66FF 00*255 66FF 00*255 66FF 00*255 66E7 00*231 00*5 BE108AB0|Section|section_length 1,022
00B01D 000A C1 0000 FFFF F000 80E200F003520101 80E201F003520102 E99B6F09|Table|table_id 0
02B01D 000A C0 0000 FFFF F000 80E200F003520101 80E201F003520102 ED35B86F|Next|current_next_indicator 0
02B01D 000A C1 0100 FFFF F000 80E200F003520101 80E201F003520102 18FB264D|Numbers|section_number 1
02B01D 000A C1 0001 FFFF F000 80E200F003520101 80E201F003520102 2EC05CF3|Numbers|last_section_number 1
02B009 000A C1 0000 C1FCF1E7|Loop|a body of 5 bytes
02B00C 000A C1 0000 FFFF F0 8AE2B0F9|Loop|a body of 8 bytes
02B01D 000A C1 0000 FFFF F011 80E200F003520101 80E201F003520102 8558A885|Loop|program_info_length passes the body
02B01D 000A C1 0000 FFFF F000 80E200F003520101 80E201F004520102 F7FB6FD4|Loop|ES_info_length passes the body
02B019 000A C1 0000 FFFF F000 80E200F003520101 80E201F0 6127CABF|Loop|a stream of four bytes
02B01D 000A C1 0000 FFFF F000 80E200F002520101 80E201F003520102 EC8F72B9|Loop|ES_info_length one too small
02B01E 000A C1 0000 FFFF F001 66 80E200F003520101 80E201F003520102 CA823807|Descriptor|a descriptor of one byte in program_info
02B020 000A C1 0000 FFFF F003 660200 80E200F003520101 80E201F003520102 503A8089|Descriptor|a descriptor that passes program_info
02B01F 000A C1 0000 FFFF F002 5200 80E200F003520101 80E201F003520102 71A8C500|Descriptor|a tag of no byte in program_info
02B015 000A C1 0000 FFFF F000 80E200F003520201 F19D1BA1|Descriptor|a descriptor that passes its stream
02B014 000A C1 0000 FFFF F000 80E200F0025200 54633709|Descriptor|a tag of no byte
02B016 000A C1 0000 FFFF F000 80E200F00452020101 F16CEFF6|Descriptor|a tag of two bytes
02B016 000A C1 0000 FFFF F000 80E200F0045201 01 66 41E78CED|Descriptor|one byte after the tag
02B01E 000A C1 0000 FFFF F000 80E200F000 80E201F00752010152020102 7C0507D6|Descriptor|a second tag of two bytes
00301D 000A C1 0000 FFFF F000 80E200F003520101 80E201F003520102 6B435E7F|Section|section_syntax_indicator 0 and table_id 0
00B00C 000A C1 0000 FFFF F0 7D7AA292|Table|table_id 0 and a body of 8 bytes
00B00D 000A C0 0000 FFFF F000 641CC142|Table|table_id 0 and current_next_indicator 0
02B00C 000A C0 0000 FFFF F0 91CABD81|Loop|a body of 8 bytes and current_next_indicator 0
02B00C 000A C1 0100 FFFF F0 C3EFD774|Loop|a body of 8 bytes and section_number 1
02B00D 000A C0 0001 FFFF F000 22FC60C3|Next|current_next_indicator 0 and last_section_number 1
02B00D 000A C0 0000 FFFF F001 6F301AF9|Next|current_next_indicator 0 and program_info_length passes the body
02B014 000A C0 0000 FFFF F000 80E200F0025200 1394F9C8|Next|current_next_indicator 0 and a tag of no byte
02B00D 000A C1 0001 FFFF F001 696A1565|Numbers|last_section_number 1 and program_info_length passes the body
02B00F 000A C1 0001 FFFF F002 5200 539F9270|Numbers|last_section_number 1 and a tag of no byte
02B014 000A C1 0000 FFFF F002 5200 80E201F001 4B179FFE|Loop|a stream that passes the body after a tag of no byte";

/// What a PMT says; of more than ten streams their number.
fn text_of(alloc: Global, pmt: &Pmt) -> Result<String, OutOfMemory> {
    if pmt.len() > 10 {
        return format!(in alloc; "{} streams", pmt.len());
    }
    let mut text = format!(in alloc; "{}", pmt.number)?;
    for place in 0..pmt.len() {
        let stream = pmt.at(place);
        match stream.tag {
            Some(tag) => write!(&mut text, " {}:{tag}", stream.pid)?,
            None => write!(&mut text, " {}:-", stream.pid)?,
        }
    }
    Ok(text)
}

/// What is read of a section, or the fault.
fn read_of(alloc: Global, section: &[u8]) -> Result<String, OutOfMemory> {
    match read_pmt(alloc, section) {
        Ok(pmt) => text_of(alloc, &pmt),
        Err(PmtReadFault::Fault(fault)) => format!(in alloc; "{fault:?}"),
        Err(PmtReadFault::OutOfMemory) => Err(OutOfMemory),
    }
}

#[test]
fn a_pmt_is_read_or_its_first_fault_is_named(rt: HostRuntime) -> Result<(), Fail> {
    expect_read(rt.alloc(), read_of, SECTIONS)
}

/// A stream with component_tag 1 and one without, byte for byte, and the byte after the section.
const WRITTEN: &str = "02B01A 000A C1 0000 FFFF F000 80E200F003520101 80E201F000 857A1E50 EE";

#[test]
fn a_pmt_is_written(rt: HostRuntime) -> Result<(), Fail> {
    let alloc = rt.alloc();
    let mut pmt = Pmt::new(alloc, 10);
    pmt.push(Stream {
        pid: 512,
        tag: Some(1),
    })?;
    pmt.push(Stream {
        pid: 513,
        tag: None,
    })?;
    let mut into = [0xEE; 4096];
    assert!(rt; write_pmt(&pmt, &mut into) == 29);
    assert!(rt; into.starts_with(&bytes_of(alloc, WRITTEN)?));
    Ok(())
}
