//! Packetization: units that stand one after another come in, and the packets that carry them go out.
ghost use Rattle.std.specs.Prelude.{◌≡◌, ◌≤◌, ◌<◌, ℕ, ◌+◌, ◌-◌, ◌==◌, ◌&&◌, ◌||◌, ◌++◌, List, length, take, replicate, nat_le, true, if◌then◌else◌, IfSome};
ghost use Rattle.unit_stream.specs.Packers.{AreRising, end_of, units_of, with_bytes};
ghost use Rattle.unit_stream.specs.Packing.{packetized};
ghost use Rattle.unit_stream.specs.Parts.{NextPart, Fills, IsPart, payload_with};

use crate::form::UnitForm;
use std::marker::{Model, PhantomData};
use ts_packet::write_header;

/// Bytes of a packet's header (ISO/IEC 13818-1 clause 2.4.3.2).
const HEADER: usize = 4;

/// Bytes of a payload (clause 2.4.3.2).
const PAYLOAD: usize = 184;

/// Bytes of a payload after pointer_field (clause 2.4.4.2).
const BEHIND_POINTER: usize = 183;

/// The byte that fills a packet after the last unit that ends in it (clause 2.4.4).
const STUFFING: u8 = 0xFF;

/// Values of continuity_counter (clause 2.4.3.3).
const COUNTERS: u8 = 16;

/// What one packet carries of the units.
#[derive(Clone, Copy)]
struct Part {
    /// Whether a unit begins in it.
    starts: bool,
    /// How many units have begun after it.
    begun: usize,
    /// How many bytes of all units are out after it.
    at: usize,
}

/// Where the last of the first `begun` units ends.
fn end_of_unit(ends: &[usize], begun: usize) -> usize
    requires { begun ≤ length ends.now }
    ensures { result ≡ end_of ends.now begun }
{
    if begun == 0 { 0 } else { ends[begun - 1] }
}

/// What a packet carries in which the unit after the first `begun` begins, with so much room.
fn fill<F: UnitForm>(ends: &[usize], begun: usize, room: usize, packing: bool) -> Part
    requires count { begun ≤ length ends.now }
    requires rising { AreRising F.START 0 ends.now }
    ensures fills { Fills F.form.start packing room ends.now begun result }
    ensures starts { result.starts ≡ true }
{
    let mut next = begun;
    let mut left = room;
    let mut at = end_of_unit(ends, begun);
    while next < ends.len() {
        let size = ends[next] - at;
        next += 1;
        if size > left {
            return beginning(next, at + left);
        }
        at += size;
        left -= size;
        if !packing || left < F::START {
            return beginning(next, at);
        }
    }
    beginning(next, at)
}

/// A packet in which units begin.
fn beginning(begun: usize, at: usize) -> Part
    ensures { result ≡ record { starts = true; begun = begun; at = at } }
{
    Part {
        starts: true,
        begun,
        at,
    }
}

/// Whether a unit may begin in a packet that carries so many bytes of the one before.
fn has_room<F: UnitForm>(left: usize, packing: bool) -> bool
    ensures { result ≡ (left == 0 || (packing && nat_le (left + F.form.start) 183)) }
{
    left == 0 || (packing && left <= BEHIND_POINTER - F::START)
}

/// What the next packet carries of units that end at `ends`, where `begun` have begun and `at` bytes are out.
fn next_part<F: UnitForm>(ends: &[usize], begun: usize, at: usize, packing: bool) -> Option<Part>
    requires begun { begun ≤ length ends.now }
    requires at { at ≤ end_of ends.now begun }
    requires rising { AreRising F.START 0 ends.now }
    ensures next { (bytes : List ℕ) → end_of ends.now (length ends.now) ≤ length bytes
        → NextPart F.form.start packing bytes ends.now begun at result }
    ensures part { IfSome result (IsPart ends.now begun at) }
{
    let left = end_of_unit(ends, begun) - at;
    if begun < ends.len() && has_room::<F>(left, packing) {
        return Some(fill::<F>(ends, begun, BEHIND_POINTER - left, packing));
    }
    if left == 0 {
        return None;
    }
    Some(Part {
        starts: false,
        begun,
        at: at + left.min(PAYLOAD),
    })
}

/// The room in a packet for the bytes of units that it carries: `size` bytes from its place `from` on.
#[derive(Clone, Copy, Debug, PartialEq, Eq)]
pub struct Room {
    pub from: usize,
    pub size: usize,
}

/// Fills what is left of a packet.
fn stuff(into: &mut [u8])
    ensures { into.new ≡ replicate (length into.old) 0xFF }
{
    into.fill(STUFFING);
}

/// Writes to a packet what its payload has around so many bytes of units: a pointer before them where a unit begins in it, and
/// bytes FF after them. Answers their place.
fn write_around(into: &mut [u8; 188], starts: bool, pointer: usize, size: usize) -> usize
    requires pointer { starts ≡ true → pointer ≤ 183 }
    requires size { size ≤ (if starts then 183 else 184) }
    ensures within { result + size ≤ 188 }
    ensures written { (bytes : List ℕ) → length bytes ≡ size
        → with_bytes result bytes into.new ≡ take 4 into.old ++ payload_with starts pointer bytes }
{
    if starts {
        into[HEADER] = pointer as u8;
        stuff(&mut into[HEADER + 1 + size..]);
        HEADER + 1
    } else {
        stuff(&mut into[HEADER + size..]);
        HEADER
    }
}

/// Packetization of units into the packets of one PID (ISO/IEC 13818-1 clause 2.4.4, RFC 4326 section 6).
#[derive(Drop)]
pub struct Packer<F: UnitForm> {
    pid: u16,
    /// Whether a unit may begin in a packet in which another one ends.
    packing: bool,
    /// continuity_counter of the next packet.
    counter: u8,
    /// How many units have begun.
    begun: usize,
    /// How many bytes of all units are out.
    at: usize,
    form: PhantomData<F>,
}

impl<F: UnitForm> Model for Packer<F> {
    ghost use Rattle.std.specs.Prelude.{◌≤◌};
    ghost use Rattle.unit_stream.specs.Packers.{PackerState};

    ghost Value = { PackerState };

    ghost view = { λ packer. record {
      pid = packer.pid;
      packing = packer.packing;
      counter = packer.counter;
      begun = packer.begun;
      at = packer.at;
    } };

    ghost invariant = { λ packer. (packer.pid ≤ 8191) × (packer.counter ≤ 15) };
}

impl<F: UnitForm> Packer<F> {
    ghost use Rattle.std.specs.Prelude.{◌≡◌, ◌+◌, ◌≤◌, ◌%◌, ℕ, List, length, nat_lt, true, false, None, IfSome};
    ghost use Rattle.unit_stream.specs.Packing.{packetized};
    ghost use Rattle.unit_stream.specs.Packers.{AreRising, AreEnds, IsOnWay, Writes, WritesAround, end_of, packets_left, units_of};

    /// A packer whose first packet has the counter 0; the PID is 0 to 8191.
    pub fn new(pid: u16, packing: bool) -> Packer<F>
        requires { pid ≤ 8191 }
        ensures begins { (bytes ends : List ℕ) → packets_left F.form result bytes ends
            ≡ packetized F.form packing pid 0 (units_of bytes ends) }
        ensures on_way { (ends : List ℕ) → IsOnWay result ends }
        ensures kept { (result.pid ≡ pid) × (result.packing ≡ packing) × (result.counter ≡ 0) }
    {
        Packer::with_counter(pid, packing, 0)
    }

    /// A packer whose first packet has this counter, 0 to 15, as where a PID goes on; the PID is 0 to 8191.
    pub fn with_counter(pid: u16, packing: bool, counter: u8) -> Packer<F>
        requires pid { pid ≤ 8191 }
        requires counter { counter ≤ 15 }
        ensures begins { (bytes ends : List ℕ) → packets_left F.form result bytes ends
            ≡ packetized F.form packing pid counter (units_of bytes ends) }
        ensures on_way { (ends : List ℕ) → IsOnWay result ends }
        ensures kept { (result.pid ≡ pid) × (result.packing ≡ packing) × (result.counter ≡ counter) }
    {
        Packer {
            pid,
            packing,
            counter,
            begun: 0,
            at: 0,
            form: PhantomData,
        }
    }

    /// The counter of the next packet, 0 to 15.
    pub fn counter(&self) -> u8
        ensures read { result ≡ self.now.counter }
        ensures below { result ≤ 15 }
    {
        self.counter
    }

    /// How many bytes of all units are out.
    pub fn at(&self) -> usize
        ensures read { result ≡ self.now.at }
    {
        self.at
    }

    /// Whether packets of the units that end at `ends` are still to come.
    pub fn has_next(&self, ends: &[usize]) -> bool
        requires rising { AreRising F.START 0 ends.now }
        requires on_way { IsOnWay self.now ends.now }
        ensures next { (bytes : List ℕ) → end_of ends.now (length ends.now) ≤ length bytes → result ≡ nat_lt 0 (length (packets_left F.form self.now bytes ends.now)) }
    {
        self.begun < ends.len() || self.at < end_of_unit(ends, self.begun)
    }

    /// Writes the next packet of the units, or answers false where all are out.
    ///
    /// The units stand one after another in `bytes`, and end at `ends`; both are the same until false comes.
    pub fn next(&mut self, bytes: &[u8], ends: &[usize], into: &mut [u8; 188]) -> bool
        requires ends { AreEnds F.START (length bytes.now) ends.now }
        requires on_way { IsOnWay self.old ends.now }
        ensures writes { Writes F.form self.old self.new bytes.now ends.now into.new result }
        ensures on_way { IsOnWay self.new ends.now }
        ensures kept { (self.new.pid ≡ self.old.pid) × (self.new.packing ≡ self.old.packing) }
        ensures counter { result ≡ true → self.new.counter ≡ (self.old.counter + 1) % 16 }
        ensures unchanged { result ≡ false → into.new ≡ into.old }
    {
        let at = self.at;
        let Some(room) = self.next_around(ends, into) else {
            return false;
        };
        into[room.from..room.from + room.size].copy_from_slice(&bytes[at..self.at]);
        true
    }

    /// Writes the next packet as `next` does, but for the bytes of units that it carries, and answers where they stand in it;
    /// None where all are out.
    ///
    /// They are the next ones that are not out. The caller writes them.
    pub fn next_around(&mut self, ends: &[usize], into: &mut [u8; 188]) -> Option<Room>
        requires rising { AreRising F.START 0 ends.now }
        requires on_way { IsOnWay self.old ends.now }
        ensures writes { (bytes : List ℕ) → end_of ends.now (length ends.now) ≤ length bytes
            → WritesAround F.form self.old self.new bytes ends.now into.new result }
        ensures room { IfSome result (λ c. (c.from + c.size ≤ 188) × (self.new.at ≡ self.old.at + c.size)) }
        ensures within { self.new.at ≤ end_of ends.now (length ends.now) }
        ensures on_way { IsOnWay self.new ends.now }
        ensures kept { (self.new.pid ≡ self.old.pid) × (self.new.packing ≡ self.old.packing) }
        ensures counter { IfSome result (λ _. self.new.counter ≡ (self.old.counter + 1) % 16) }
        ensures unchanged { result ≡ None → into.new ≡ into.old }
    {
        let part = next_part::<F>(ends, self.begun, self.at, self.packing)?;
        let pointer = end_of_unit(ends, self.begun) - self.at;
        let size = part.at - self.at;
        write_header(into, self.pid, part.starts, self.counter);
        let from = write_around(into, part.starts, pointer, size);
        self.counter = (self.counter + 1) % COUNTERS;
        self.begun = part.begun;
        self.at = part.at;
        Some(Room { from, size })
    }

    /// Begins a new list of units. The counter goes on.
    pub fn again(&mut self)
        ensures begins { (bytes ends : List ℕ) → packets_left F.form self.new bytes ends
            ≡ packetized F.form self.old.packing self.old.pid self.old.counter (units_of bytes ends) }
        ensures on_way { (ends : List ℕ) → IsOnWay self.new ends }
        ensures kept { (self.new.pid ≡ self.old.pid) × (self.new.packing ≡ self.old.packing) × (self.new.counter ≡ self.old.counter) }
    {
        self.begun = 0;
        self.at = 0;
    }
}

/// How many packets carry units that end at `ends`, each START bytes or more after the one before.
pub fn count_packets<F: UnitForm>(ends: &[usize], packing: bool) -> u64
    requires { AreRising F.START 0 ends.now }
    ensures counted { (bytes : List ℕ) (pid counter : ℕ) → end_of ends.now (length ends.now) ≤ length bytes
        → result ≡ length (packetized F.form packing pid counter (units_of bytes ends.now)) }
{
    let mut count = 0;
    let mut begun = 0;
    let mut at = 0;
    while let Some(part) = next_part::<F>(ends, begun, at, packing) {
        count += 1;
        begun = part.begun;
        at = part.at;
    }
    count
}
