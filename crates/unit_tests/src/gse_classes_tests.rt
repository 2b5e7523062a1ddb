//! Frames of 300 bytes with urgent datagrams, by hand; the CRC-8 of their headers is not looked at.
use crate::datagrams::datagram;
use addr_rules::{Rule, RuleList};
use gse_classes::{is_urgent, pack_classes};
use gse_pack::Frames;
use ip_datagram::{DatagramList, IpAddress};
use std::alloc::{AllocError as OutOfMemory, Global};
use std::test::Fail;
use test_lines::numbers_of;
use test_recordings::bytes_of;

/// The rule of the group 239.2.0.0/16.
fn second_group(alloc: Global) -> Result<RuleList, OutOfMemory> {
    let mut rules = RuleList::new(alloc);
    rules.push(Rule {
        address: IpAddress::V4([239, 2, 0, 0]),
        slash: 16,
    })?;
    Ok(rules)
}

/// The frames on ISI 3 of 800 bytes to the first group and then 40 to the second, which is urgent.
fn frames_of_two(alloc: Global) -> Result<Frames, Fail> {
    let mut list = DatagramList::new(alloc);
    list.push(&datagram(alloc, 800, 1)?)?;
    list.push(&datagram(alloc, 40, 2)?)?;
    let rules = second_group(alloc)?;
    Ok(pack_classes(alloc, &list, &rules, true, [0xFF; 6], 3, 300)?)
}

/// A frame, a place in it, and the bytes there: DFL 2,320, 2,320, 2,304 and 64 bits; a first fragment; the urgent datagram whole, and behind
/// its 50 bytes a middle fragment; another; the last.
const PIECES: &str = "0 4|09 10
0 10|81 20 00 03 28 08 00
1 4|09 10
1 10|C0 30 08 00
1 60|30 EE 00
2 4|09 00
2 10|31 1E 00
3 4|00 40
3 10|70 06 00";

/// Whether there are four frames, and the one that a line names has these bytes at this place.
fn has_piece(alloc: Global, frames: &Frames, line: &str) -> Result<bool, Fail> {
    let Some((places, piece)) = line.split_once('|') else {
        return Ok(false);
    };
    let [frame, place] = numbers_of::<2>(places)?;
    let piece = bytes_of(alloc, piece)?;
    if frames.count() != 4 || frame >= 4 {
        return Ok(false);
    }
    let frame = frames.frame(frame as usize);
    let place = place as usize;
    Ok(place <= frame.len() && frame[place..].starts_with(&piece))
}

#[test]
fn an_urgent_datagram_goes_before_the_rest_of_another(rt: HostRuntime) -> Result<(), Fail> {
    let alloc = rt.alloc();
    let frames = frames_of_two(alloc)?;
    for line in PIECES.lines() {
        assert!(rt; has_piece(alloc, &frames, line)?, "{line}");
    }
    Ok(())
}

/// Sizes and groups of datagrams, and whether they are urgent.
const URGENT: [(u16, u8, bool); 4] = [
    (1500, 2, true),
    (1501, 2, false),
    (40, 2, true),
    (40, 1, false),
];

/// Whether a datagram of this size to this group is urgent.
fn is_sent_first(alloc: Global, size: u16, group: u8) -> Result<bool, Fail> {
    let datagram = datagram(alloc, size, group)?;
    Ok(is_urgent(&datagram, &second_group(alloc)?))
}

#[test]
fn short_datagrams_of_the_rules_are_urgent(rt: HostRuntime) -> Result<(), Fail> {
    for (size, group, want) in URGENT {
        assert_eq!(rt; is_sent_first(rt.alloc(), size, group)?, want);
    }
    Ok(())
}
