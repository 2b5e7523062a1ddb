//! Sizes of the sections of a burst, one after another -> the packets in which they begin, and how many packets they take.
ghost use Rattle.std.specs.Prelude.{◌≡◌, ◌+◌, ◌^◌, ◌<◌, ◌≤◌};
ghost use Rattle.fec_units.specs.Packets.{after_section, first_section, packets_before};

/// Bytes of a packet's payload (ISO/IEC 13818-1 clause 2.4.3.2).
const PAYLOAD: usize = 184;

/// Bytes of a payload after pointer_field (clause 2.4.4.2).
const BEHIND_POINTER: usize = 183;

/// Where the next section of a burst begins.
#[derive(Clone, Copy)]
pub(crate) struct NextSection {
    /// The packet of the burst, from 0, in which it begins.
    pub(crate) packet: usize,
    /// The room that its bytes have there: 1 to 183.
    room: usize,
}

/// The first section of a burst.
pub(crate) fn first() -> NextSection
    ensures { result ≡ first_section }
{
    NextSection {
        packet: 0,
        room: BEHIND_POINTER,
    }
}

impl NextSection {
    /// The one after a section of so many bytes.
    pub(crate) fn after(self, size: usize) -> NextSection
        requires few { self.packet < 2 ^ 62 }
        requires size { size ≤ 4096 }
        ensures after { result ≡ after_section self size }
        ensures most { result.packet ≤ self.packet + 25 }
    {
        if size < self.room {
            return NextSection {
                packet: self.packet,
                room: self.room - size,
            };
        }
        let rest = size - self.room;
        let last = rest % PAYLOAD;
        let packet = self.packet + 1 + rest / PAYLOAD;
        if last == BEHIND_POINTER {
            return NextSection {
                packet: packet + 1,
                room: BEHIND_POINTER,
            };
        }
        NextSection {
            packet,
            room: BEHIND_POINTER - last,
        }
    }

    /// How many packets the sections before it take.
    pub(crate) fn packets_before(self) -> usize
        requires few { self.packet < 2 ^ 62 }
        ensures { result ≡ packets_before self }
    {
        if self.room == BEHIND_POINTER {
            self.packet
        } else {
            self.packet + 1
        }
    }
}
