//! The datagrams of a service -> the bytes of its units, one after another, copied to where a packet carries them.
ghost use Rattle.std.specs.Prelude.{◌≡◌, ◌+◌, ◌≤◌, ◌<◌, length, take, drop};
ghost use Rattle.ts_mux.specs.Units.{unit_with};

use crate::units::{MOST_AROUND, write_around};
use ip_datagram::DatagramList;
use plan::Service;

/// Bytes of the CRC-32 after a datagram (RFC 4326 section 4.6, EN 301 192 clause 7.1).
const CRC: usize = 4;

/// What stands at a place of a unit, up to the end of its head, of its datagram, or of its CRC-32.
fn piece_at<'u>(around: &'u [u8], head: usize, datagram: &'u [u8], at: usize) -> &'u [u8]
    requires head { head + 4 ≤ length around.now }
    requires at { at < head + length datagram.now + 4 }
    ensures some { 0 < length result.now }
    ensures within { at + length result.now ≤ head + length datagram.now + 4 }
    ensures read { take (length result.now) (drop at (unit_with head around.now datagram.now)) ≡ result.now }
{
    let end = head + datagram.len();
    if at < head {
        &around[at..head]
    } else if at < end {
        &datagram[at - head..]
    } else {
        &around[at - datagram.len()..head + CRC]
    }
}

/// Copies such a piece to the front of `into`, or as much of it as there is room for; answers how many bytes.
fn copy_piece(around: &[u8], head: usize, datagram: &[u8], at: usize, into: &mut [u8]) -> usize
    requires head { head + 4 ≤ length around.now }
    requires at { at < head + length datagram.now + 4 }
    requires room { 0 < length into.old }
    ensures some { 0 < result }
    ensures room { result ≤ length into.old }
    ensures within { at + result ≤ head + length datagram.now + 4 }
    ensures read { take result into.new ≡ take result (drop at (unit_with head around.now datagram.now)) }
{
    let piece = piece_at(around, head, datagram, at);
    let count = piece.len().min(into.len());
    into[..count].copy_from_slice(&piece[..count]);
    count
}

/// The bytes of the units of a service that are not out.
#[derive(Drop)]
pub(crate) struct UnitBytes {
    /// How many units are out.
    count: usize,
    /// How many bytes of the next one are out.
    out: usize,
    /// What that one has around its datagram, as `write_around` writes it, where some of its bytes are out.
    around: [u8; MOST_AROUND],
    /// How many bytes of `around` stand before the datagram.
    head: usize,
}

impl UnitBytes {
    ghost use Rattle.std.specs.Prelude.{◌≡◌, ◌≤◌, ◌<◌, ◌++◌, true, false, length, take};
    ghost use Rattle.stream_law.specs.Words.{is_single};
    ghost use Rattle.plan.specs.Parts.{kind_seen};
    ghost use Rattle.ts_mux.specs.Units.{IsFor};
    ghost use Rattle.ts_mux.specs.Reading.{IsBegun, IsReading, bytes_left};

    /// Before the first unit.
    pub(crate) fn new() -> UnitBytes
        ensures first { (result.count ≡ 0) × (result.out ≡ 0) }
    {
        UnitBytes {
            count: 0,
            out: 0,
            around: [0; MOST_AROUND],
            head: 0,
        }
    }

    /// Writes what the next unit has around its datagram, where no byte of it is out.
    fn begin(&mut self, service: &Service, datagram: &[u8])
        requires single { is_single (kind_seen service.now.kind) ≡ true }
        requires datagram { IsFor (kind_seen service.now.kind) datagram.now }
        requires begun { 0 < self.old.out → IsBegun (kind_seen service.now.kind) service.now.unicast datagram.now self.old }
        ensures begun { IsBegun (kind_seen service.now.kind) service.now.unicast datagram.now self.new }
        ensures kept { (self.new.count ≡ self.old.count) × (self.new.out ≡ self.old.out) }
    {
        if self.out == 0 {
            self.head = write_around(service, datagram, &mut self.around);
        }
    }

    /// Copies the next bytes to the front of `into`, up to the end of a piece of a unit; answers how many.
    fn read_piece(&mut self, service: &Service, datagrams: &DatagramList, into: &mut [u8]) -> usize
        requires reading { IsReading (kind_seen service.now.kind) service.now.unicast datagrams.now self.old }
        requires left { 0 < length (bytes_left (kind_seen service.now.kind) service.now.unicast datagrams.now self.old) }
        requires room { 0 < length into.old }
        ensures reading { IsReading (kind_seen service.now.kind) service.now.unicast datagrams.now self.new }
        ensures count { (0 < result) × (result ≤ length into.old) }
        ensures read { bytes_left (kind_seen service.now.kind) service.now.unicast datagrams.now self.old
            ≡ take result into.new ++ bytes_left (kind_seen service.now.kind) service.now.unicast datagrams.now self.new }
    {
        let datagram = datagrams.at(self.count);
        self.begin(service, datagram);
        let count = copy_piece(&self.around, self.head, datagram, self.out, into);
        self.out += count;
        if self.out == self.head + datagram.len() + CRC {
            self.count += 1;
            self.out = 0;
        }
        count
    }

    /// Copies the next bytes to `into`, as many as it has, where all of them lie in one datagram. False: they do not, and nothing changes.
    fn read_datagram(
        &mut self,
        service: &Service,
        datagrams: &DatagramList,
        into: &mut [u8],
    ) -> bool
        requires reading { IsReading (kind_seen service.now.kind) service.now.unicast datagrams.now self.old }
        ensures reading { IsReading (kind_seen service.now.kind) service.now.unicast datagrams.now self.new }
        ensures read { result ≡ true → bytes_left (kind_seen service.now.kind) service.now.unicast datagrams.now self.old
            ≡ into.new ++ bytes_left (kind_seen service.now.kind) service.now.unicast datagrams.now self.new }
        ensures unchanged { result ≡ false → (self.new ≡ self.old) × (into.new ≡ into.old) }
    {
        if self.out == 0 || self.out < self.head {
            return false;
        }
        let datagram = datagrams.at(self.count);
        let place = self.out - self.head;
        if place > datagram.len() || datagram.len() - place < into.len() {
            return false;
        }
        into.copy_from_slice(&datagram[place..place + into.len()]);
        self.out += into.len();
        true
    }

    /// Copies the next bytes to `into`, as many as it has, piece by piece.
    ///
    /// It is not inlined, so that `read` saves no registers where it needs one copy.
    #[inline(never)]
    fn read_pieces(&mut self, service: &Service, datagrams: &DatagramList, into: &mut [u8])
        requires reading { IsReading (kind_seen service.now.kind) service.now.unicast datagrams.now self.old }
        requires enough { length into.old ≤ length (bytes_left (kind_seen service.now.kind) service.now.unicast datagrams.now self.old) }
        ensures reading { IsReading (kind_seen service.now.kind) service.now.unicast datagrams.now self.new }
        ensures read { bytes_left (kind_seen service.now.kind) service.now.unicast datagrams.now self.old
            ≡ into.new ++ bytes_left (kind_seen service.now.kind) service.now.unicast datagrams.now self.new }
    {
        let mut done = 0;
        while done < into.len() {
            done += self.read_piece(service, datagrams, &mut into[done..]);
        }
    }

    /// Copies the next bytes to `into`, as many as it has.
    pub(crate) fn read(&mut self, service: &Service, datagrams: &DatagramList, into: &mut [u8])
        requires reading { IsReading (kind_seen service.now.kind) service.now.unicast datagrams.now self.old }
        requires enough { length into.old ≤ length (bytes_left (kind_seen service.now.kind) service.now.unicast datagrams.now self.old) }
        ensures reading { IsReading (kind_seen service.now.kind) service.now.unicast datagrams.now self.new }
        ensures read { bytes_left (kind_seen service.now.kind) service.now.unicast datagrams.now self.old
            ≡ into.new ++ bytes_left (kind_seen service.now.kind) service.now.unicast datagrams.now self.new }
    {
        if !self.read_datagram(service, datagrams, into) {
            self.read_pieces(service, datagrams, into);
        }
    }
}
