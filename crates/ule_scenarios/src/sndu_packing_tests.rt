//! Two SNDUs -> [ule_unit, unit_stream] -> the packets that carry them, where few bytes of a packet are left.
ghost use Rattle.std.specs.Prelude.{◌≤◌, ◌+◌, length};

use test_recordings::PacketOf;
use ule_unit::{UleForm, write};
use unit_stream::{Packer, count_packets};

/// How many bytes the first datagram has, and the packets.
#[derive(Clone, Copy)]
struct Case {
    size: usize,
    packets: &'static [PacketOf],
}

/// The first packet, which the first SNDU fills.
const FIRST: PacketOf = PacketOf::Start {
    counter: 0,
    pointer: 0,
    from: 0,
    to: 183,
};

static CASES: [Case; 3] = [
    // Two bytes are left, and the second SNDU begins there: the pointer leads to them.
    Case {
        size: 356,
        packets: &[
            FIRST,
            PacketOf::Start {
                counter: 1,
                pointer: 181,
                from: 183,
                to: 366,
            },
            PacketOf::GoOn {
                counter: 2,
                from: 366,
                to: 472,
            },
        ],
    },
    // After a pointer one byte would be left, which cannot hold Length: there is none, and two bytes are stuffing.
    Case {
        size: 357,
        packets: &[
            FIRST,
            PacketOf::GoOn {
                counter: 1,
                from: 183,
                to: 365,
            },
            PacketOf::Start {
                counter: 2,
                pointer: 0,
                from: 365,
                to: 473,
            },
        ],
    },
    // After a pointer no byte would be left.
    Case {
        size: 358,
        packets: &[
            FIRST,
            PacketOf::GoOn {
                counter: 1,
                from: 183,
                to: 366,
            },
            PacketOf::Start {
                counter: 2,
                pointer: 0,
                from: 366,
                to: 474,
            },
        ],
    },
];

/// Writes SNDUs with datagrams of `size` and of 100 bytes, one after the other; answers their lengths. The bytes count up, so that a
/// packet shows which of them it carries.
fn write_two(size: usize, into: &mut [u8; 500]) -> (usize, usize)
    requires { size ≤ 358 }
{
    let mut datagram = [0; 358];
    let mut mark = 0u8;
    for byte in &mut datagram {
        *byte = mark;
        mark = mark.wrapping_add(1);
    }
    let first = write(None, 0x0800, &datagram[..size], into);
    let second = write(None, 0x0800, &[7; 100], &mut into[size + 8..]);
    (first, second)
}

/// RFC 4326 section 6: an SNDU begins after another one in a packet if D and Length, two bytes, have room there.
#[test]
fn an_sndu_begins_after_another_where_two_bytes_have_room(rt: HostRuntime) {
    for case in &CASES {
        let size = case.size;
        assert!(rt; size <= 358);
        let mut bytes = [0; 500];
        let lengths = write_two(size, &mut bytes);
        assert_eq!(rt; lengths, (size + 8, 108));
        assert!(rt; bytes[size + 8..size + 10] == [0x80, 0x68]);
        let ends = [size + 8, size + 116];
        let mut packer = Packer::<UleForm>::new(256, true);
        let mut packet = [0; 188];
        for want in case.packets {
            assert!(rt; packer.next(&bytes, &ends, &mut packet));
            assert!(rt;
                packet == want.of(&bytes[..size + 116]),
                "in the packets of {size} bytes"
            );
        }
        assert!(rt; !packer.next(&bytes, &ends, &mut packet));
        assert_eq!(rt; count_packets::<UleForm>(&ends, true), 3);
    }
}
