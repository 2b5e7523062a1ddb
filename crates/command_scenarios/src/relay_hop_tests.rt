//! `relay IN OUT`: a packet with an SNDU by hand, and the packet with its datagram in a section, from RFC 4326 section 4, EN 301 192
//! clause 7.1 and ISO/IEC 13818-1 clause 2.4. An independent program gave each CRC-32. And one service of IN: a relay is `receive IN`, and
//! then `send OUT` of its capture, byte for byte and line for line.
use crate::outcomes::{Outcome, done};
use crate::runs::{all_end, ends, leaving, three};
use crate::settings::settings_of;
use crate::words::harmed;
use scenario_runs::sent;
use std::alloc::Global;
use std::test::Fail;
use test_recordings::{CAPTURE_HEAD, Datagram, datagram_of, numbers_in, put_record};

/// The columns are those of `runs`. A packet of PID 256 becomes one of PID 300, with the section to 01-00-5E-01-02-03 (RFC 1112 section 6.4).
const PACKETS: &str =
    "a packet|relay,a.toml,b.toml;a=SNDUS;b=SECTIONS|47410010 00 80180800 DATAGRAM 64AEE84A FILL|47412C10 00 3EB0210302C1000001 5E0001 DATAGRAM 599A2733 FILL|offered 1, not IP 0, unrouted 0, too long 0
a packet and its duplicate|relay,a.toml,b.toml;a=SNDUS;b=SECTIONS|47410010 00 80180800 DATAGRAM 64AEE84A FILL 47410010 00 80180800 DATAGRAM 64AEE84A FILL|47412C10 00 3EB0210302C1000001 5E0001 DATAGRAM 599A2733 FILL|offered 1, not IP 0, unrouted 0, too long 0
an empty recording|relay,a.toml,b.toml;a=SNDUS;b=SECTIONS|||offered 0, not IP 0, unrouted 0, too long 0";

/// What it is; IN; OUT; the form of the datagrams; the numbers of those that are sent under IN; the bytes of a record, and what happens to the
/// records, in the harms of `test_recordings`; the numbers of those that arrive.
///
/// `169 219` are datagrams of 169 bytes, of which number n is for 239.x.0.n, with x from these digits in turn. SNDUs of 183 bytes stand one in
/// each packet. Of 20 sections of 1,016 bytes (EN 301 192 clause 7.1), and 16 of 272 in each burst, 13 fit the first, of 96 packets. TO_514 is
/// a change at record 3: the records of OUT's change are the datagrams that are delivered.
const HOPS: &str = "SNDUs to sections|SNDUS|SECTIONS|169 1|0-5|188|0-5
SNDUs to sections, and two packets are lost|SNDUS|SECTIONS|169 1|0-5|188 1-2|0 3-5
bursts to GSE|BURSTS|GSE|1000 1|0-19|196|0-19
bursts to GSE, and a lost packet is corrected|BURSTS|GSE|1000 1|0-19|196 20|0-19
bursts to GSE, and a burst is lost|BURSTS|GSE|1000 1|0-19|196 10-200|13-19
GSE to bursts|GSE|BURSTS|1000 1|0-19|300|0-19
one service sorted into two, and what neither takes|SNDUS|LECTURE+FILES|169 219|0-5|188|0-5
a change in IN|TO_514+INT+FILES|SECTIONS|169 2|0-5|188|0-5
a change in OUT|SNDUS|TO_514+INT+FILES|169 2|0-5|188|0-5
a change in OUT, and the first packet is lost|SNDUS|TO_514+INT+FILES|169 2|0-5|188 0|1-5
a change in both|TO_514+INT+FILES|TO_514+INT+FILES|169 2|0-5|188|0-5";

#[test]
fn a_packet_of_an_sndu_becomes_one_of_a_section(rt: HostRuntime) -> Result<(), Fail> {
    all_end(rt.alloc(), PACKETS)
}

/// Datagram n of a form.
fn datagram_in(form: &str, number: usize) -> Result<Datagram, Fail> {
    let (size, networks) = form.split_once(' ').ok_or("no networks")?;
    let network = networks.as_bytes().iter().cycle().nth(number);
    let network = network.ok_or("no network")?.wrapping_sub(b'0');
    Ok(Datagram {
        size: size.parse()?,
        to: [239, network, 0, u8::try_from(number)?],
    })
}

/// Appends the datagrams of these numbers.
fn put_all(alloc: Global, into: &mut Vec<u8>, form: &str, numbers: &[u16]) -> Result<(), Fail> {
    for number in numbers {
        put_record(
            into,
            &datagram_of(alloc, &datagram_in(form, usize::from(*number))?)?,
        )?;
    }
    Ok(())
}

/// The capture of the datagrams with these numbers.
fn capture_of(alloc: Global, form: &str, numbers: &str) -> Result<Vec<u8>, Fail> {
    let numbers = numbers_in(alloc, numbers)?;
    let mut capture = Vec::from_slice(alloc, &CAPTURE_HEAD)?;
    put_all(alloc, &mut capture, form, &numbers)?;
    Ok(capture)
}

/// The stream of these datagrams.
fn stream_of(alloc: Global, settings: &str, form: &str, numbers: &str) -> Result<Vec<u8>, Fail> {
    let settings = settings_of(alloc, settings)?;
    let capture = capture_of(alloc, form, numbers)?;
    sent(alloc, &settings, &capture, 300_000)
}

/// The relay of a case, IN and OUT leaves what this run of `send` has left.
fn leaves(alloc: Global, names: [&str; 3], input: &[u8], due: &Outcome) -> Result<(), Fail> {
    let [case, inner, outer] = names;
    let call = format!(in alloc; "relay,a.toml,b.toml;a={inner};b={outer};room=300000")?;
    ends(alloc, case, &leaving(&call, input, &due.output, &due.line))
}

/// The relay of a case, IN and OUT leaves what `send OUT` leaves of a capture.
pub fn resends(alloc: Global, names: [&str; 3], input: &[u8], capture: &[u8]) -> Result<(), Fail> {
    let due = done(alloc, &["send", "a.toml"], names[2], capture)?;
    leaves(alloc, names, input, &due)
}

/// `receive` leaves this capture alone.
fn is_received(alloc: Global, names: &str, input: &[u8], capture: &[u8]) -> Result<(), Fail> {
    let received = done(alloc, &["receive", "a.toml"], names, input)?;
    if received.files != 1 || received.file.as_slice() != capture {
        return Err("another capture".into());
    }
    Ok(())
}

/// The recording by the numbers and the harms of a line.
fn recorded(alloc: Global, inner: &str, form: &str, rest: &str) -> Result<Vec<u8>, Fail> {
    let (numbers, harms, _) = three(rest)?;
    let stream = stream_of(alloc, inner, form, numbers)?;
    harmed(alloc, &stream, harms)
}

/// The relay of a line leaves what the two runs leave.
fn hops(alloc: Global, line: &str) -> Result<(), Fail> {
    let (case, inner, rest) = three(line)?;
    let (outer, form, rest) = three(rest)?;
    let (_, arriving) = rest.rsplit_once('|').ok_or("no numbers")?;
    let recording = recorded(alloc, inner, form, rest)?;
    let capture = capture_of(alloc, form, arriving)?;
    is_received(alloc, inner, &recording, &capture)?;
    resends(alloc, [case, inner, outer], &recording, &capture)
}

#[test]
fn a_relay_receives_and_sends_again(rt: HostRuntime) -> Result<(), Fail> {
    for line in HOPS.lines() {
        hops(rt.alloc(), line)?;
    }
    Ok(())
}

/// Where both names are of one file, the stream goes out as it was sent.
#[test]
fn one_file_may_be_both_settings(rt: HostRuntime) -> Result<(), Fail> {
    let stream = stream_of(rt.alloc(), "SNDUS", "169 1", "0-5")?;
    let line = "offered 6, not IP 0, unrouted 0, too long 0";
    let run = leaving("relay,a.toml,a.toml;a=SNDUS", &stream, &stream, line);
    ends(rt.alloc(), "one file", &run)
}
