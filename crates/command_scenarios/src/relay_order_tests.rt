//! The order in which the datagrams of two services go out: that of the records that give them.
use crate::relay_hop_tests::resends;
use crate::runs::three;
use crate::settings::settings_of;
use scenario_runs::sent;
use std::alloc::Global;
use std::test::Fail;
use test_recordings::{CAPTURE_HEAD, Datagram, datagram_of, put_record};

/// Packets, and the datagrams in the order in which they go out: `a1` is number 1 of service a.
///
/// SNDUs of 114 and 314 bytes: a0 has datagram a0, a1 and a2 have a1; b0 has b0, b1 has b1.
const SNDUS: &str = "in turn|a0 b0 a1 a2 b1|a0 b0 a1 b1
service b first|b0 b1 a0 a1 a2|b0 b1 a0 a1
a datagram counts where it ends|b0 a0 a1 b1 a2|b0 a0 b1 a1
each packet twice|b0 b0 a0 a0 a1 a1 b1 b1 a2 a2|b0 a0 b1 a1
a lost packet|a0 b0 a2 b1|a0 b0 b1
service b alone|b0 b1|b0 b1";

/// A frame with sections of 116 and 316 bytes and two columns of 272 with their sections: 976 bytes in packets a0 to a5. The last
/// section begins in a3 and ends in a5. Two SNDUs of 120 bytes: b0 has the first, b1 the end of the second.
const FRAME: &str = "a whole frame|a0 a1 a2 a3 a4 a5 b0 b1|a0 a1 b0 b1
a frame counts where its last section ends|a0 a1 a2 a3 a4 b0 a5 b1|b0 a0 a1 b1
the last section of the frame is lost|a0 a1 a2 a3 b0 b1|b0 b1 a0 a1
the last two packets of the frame are lost|b0 a0 a1 a2 a3 b1|b0 b1 a0 a1
the section of a datagram is lost as well|a0 a2 b0 b1|b0 b1 a0";

/// The service, 1 for a and 2 for b, and the number that a word names.
fn read_word(word: &str) -> Result<(u8, u8), Fail> {
    match word.as_bytes() {
        [b'a', digit] => Ok((1, digit.wrapping_sub(b'0'))),
        [b'b', digit] => Ok((2, digit.wrapping_sub(b'0'))),
        _ => Err("no such word".into()),
    }
}

/// The datagram that a word names: a1 is the one of another size.
fn datagram_in(word: &str) -> Result<Datagram, Fail> {
    let (service, number) = read_word(word)?;
    Ok(Datagram {
        size: if word == "a1" { 300 } else { 100 },
        to: [239, service, 0, number],
    })
}

/// The capture of the datagrams that the words name.
fn capture_of(alloc: Global, words: &str) -> Result<Vec<u8>, Fail> {
    let mut capture = Vec::from_slice(alloc, &CAPTURE_HEAD)?;
    for word in words.split_whitespace() {
        put_record(&mut capture, &datagram_of(alloc, &datagram_in(word)?)?)?;
    }
    Ok(capture)
}

/// The stream of the datagrams of one service.
fn stream_of(alloc: Global, settings: &str, words: &str) -> Result<Vec<u8>, Fail> {
    let settings = settings_of(alloc, settings)?;
    let capture = capture_of(alloc, words)?;
    sent(alloc, &settings, &capture, 2000)
}

/// Appends the packet that a word names.
fn put_packet(into: &mut Vec<u8>, a: &[u8], b: &[u8], word: &str) -> Result<(), Fail> {
    let (service, number) = read_word(word)?;
    let stream = if service == 1 { a } else { b };
    let packet = stream.chunks(188).nth(usize::from(number));
    Ok(into.extend_from_slice(packet.ok_or("no such packet")?)?)
}

/// The packets that the words name.
fn recording_of(alloc: Global, a: &[u8], b: &[u8], words: &str) -> Result<Vec<u8>, Fail> {
    let mut recording = Vec::new(alloc);
    for word in words.split_whitespace() {
        put_packet(&mut recording, a, b, word)?;
    }
    Ok(recording)
}

/// What goes out is what `send` writes of the datagrams in this order, and the line is that of `send`.
fn goes_out(alloc: Global, settings: &str, a: &[u8], b: &[u8], line: &str) -> Result<(), Fail> {
    let (case, packets, datagrams) = three(line)?;
    let recording = recording_of(alloc, a, b, packets)?;
    let capture = capture_of(alloc, datagrams)?;
    resends(alloc, [case, settings, "SECTIONS"], &recording, &capture)
}

/// All cases of these settings.
fn all_go_out(alloc: Global, settings: &str, cases: &str) -> Result<(), Fail> {
    let a = stream_of(alloc, settings, "a0 a1")?;
    let b = stream_of(alloc, settings, "b0 b1")?;
    for line in cases.lines() {
        goes_out(alloc, settings, &a, &b, line)?;
    }
    Ok(())
}

/// Each SNDU begins in a packet of its own.
#[test]
fn two_services_become_one_in_the_order_of_records(rt: HostRuntime) -> Result<(), Fail> {
    all_go_out(rt.alloc(), "ONE+TWO", SNDUS)
}

/// EN 301 192 clause 9.10: frame_boundary ends a frame, or the first section of the next frame does; an open one ends with the recording.
#[test]
fn a_frame_without_its_last_section_goes_out_last(rt: HostRuntime) -> Result<(), Fail> {
    all_go_out(rt.alloc(), "INDEXED+FILES", FRAME)
}
