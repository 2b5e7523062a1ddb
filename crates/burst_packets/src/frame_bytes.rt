//! The datagrams of a service -> the bytes of the units of its frames without time slicing, one after another, copied to where a packet
//! carries them.
ghost use Rattle.std.specs.Prelude.{◌≡◌, ◌+◌, ◌<◌, ◌≤◌, length, take, drop};

use crate::bursts::{MOST_PACKETS, Shape};
use fec_units::{BurstBuffer, frame_end};
use ip_datagram::DatagramList;
use std::alloc::{AllocError as OutOfMemory, Global};

/// Numbers of frames, which go round.
const FRAME_NUMBERS: u16 = 4096;

/// The bytes of the units that are not out.
///
/// The units of a frame are made when a byte of them is wanted, into memory that `new` took: none is taken later.
#[derive(Drop)]
pub(crate) struct FrameBytes {
    shape: Shape,
    /// Where the datagrams of the next frame begin in their list.
    from: usize,
    /// The number of that frame, modulo 4,096.
    number: u16,
    /// The units of the frame under way.
    frame: BurstBuffer,
    /// How many of their bytes are out.
    out: usize,
    /// delta_t of each packet of a burst, which is the number of the frame.
    deltas: Vec<u16>,
}

/// Copies bytes from a place on to the front of `into`, as many as there are or as it has room for; answers how many.
fn copy_piece(bytes: &[u8], from: usize, into: &mut [u8]) -> usize
    requires from { from < length bytes.now }
    requires room { 0 < length into.old }
    ensures count { (0 < result) × (result ≤ length into.old) }
    ensures within { from + result ≤ length bytes.now }
    ensures read { take result into.new ≡ take result (drop from bytes.now) }
{
    let piece = &bytes[from..];
    let count = piece.len().min(into.len());
    into[..count].copy_from_slice(&piece[..count]);
    count
}

impl FrameBytes {
    ghost use Rattle.std.specs.Prelude.{◌≡◌, ℕ, ◌*◌, ◌%◌, ◌<◌, ◌≤◌, ◌^◌, ◌++◌, length, take, IfOk};
    ghost use Rattle.wire_spec.specs.Lists.{joined};
    ghost use Rattle.section_spec.specs.Mpe.{IsRows};
    ghost use Rattle.fec_sent_law.specs.Frames.{AreSendable};
    ghost use Rattle.burst_packets.specs.Frames.{IsReading, bytes_left, units_in};

    /// Before the first frame of these datagrams, which has this number.
    pub(crate) fn new(
        alloc: Global,
        shape: Shape,
        datagrams: &DatagramList,
        first: u32,
    ) -> Result<FrameBytes, OutOfMemory>
        requires rows { IsRows shape.rows }
        requires columns { (1 ≤ shape.columns) × (shape.columns ≤ 64) }
        requires datagrams { AreSendable datagrams.now }
        ensures reading { IfOk result (IsReading datagrams.now) }
        ensures left { IfOk result (λ made. bytes_left datagrams.now made ≡ joined (units_in shape first datagrams.now)) }
        ensures shape { IfOk result (λ made. made.shape ≡ shape) }
    {
        let frame = BurstBuffer::new(alloc, shape.rows, shape.columns)?;
        let deltas = vec![in alloc; 0u16; MOST_PACKETS]?;
        let out = frame.bytes().len();
        Ok(FrameBytes {
            shape,
            from: 0,
            number: (first % u32::from(FRAME_NUMBERS)) as u16,
            frame,
            out,
            deltas,
        })
    }

    /// Begins with the first frame of other datagrams, which has this number. It takes no memory.
    pub(crate) fn restart(&mut self, shape: Shape, datagrams: &DatagramList, first: u32)
        requires reading { (old : _) × IsReading old self.old }
        requires kept { (shape.rows ≡ self.old.shape.rows) × (shape.columns ≡ self.old.shape.columns) }
        requires datagrams { AreSendable datagrams.now }
        ensures reading { IsReading datagrams.now self.new }
        ensures left { bytes_left datagrams.now self.new ≡ joined (units_in shape first datagrams.now) }
        ensures shape { self.new.shape ≡ shape }
    {
        self.shape = shape;
        self.from = 0;
        self.number = (first % u32::from(FRAME_NUMBERS)) as u16;
        self.out = self.frame.bytes().len();
    }

    /// Makes the units of the next frame in place of those of the one before, which are out.
    fn make(&mut self, datagrams: &DatagramList)
        requires reading { IsReading datagrams.now self.old }
        requires out { self.old.out ≡ length self.old.frame.bytes }
        requires left { 0 < length (bytes_left datagrams.now self.old) }
        ensures reading { IsReading datagrams.now self.new }
        ensures some { self.new.out < length self.new.frame.bytes }
        ensures left { bytes_left datagrams.now self.new ≡ bytes_left datagrams.now self.old }
        ensures shape { self.new.shape ≡ self.old.shape }
    {
        let end = frame_end(datagrams, self.shape.rows, self.from);
        self.deltas.fill(self.number);
        self.frame.make(datagrams, self.from, end, self.shape.unicast, &self.deltas);
        self.out = 0;
        self.from = end;
        self.number = (self.number + 1) % FRAME_NUMBERS;
    }

    /// Makes the units of the next frame, where those of the one before are out.
    fn go_on(&mut self, datagrams: &DatagramList)
        requires reading { IsReading datagrams.now self.old }
        requires left { 0 < length (bytes_left datagrams.now self.old) }
        ensures reading { IsReading datagrams.now self.new }
        ensures some { self.new.out < length self.new.frame.bytes }
        ensures left { bytes_left datagrams.now self.new ≡ bytes_left datagrams.now self.old }
        ensures shape { self.new.shape ≡ self.old.shape }
    {
        if self.out == self.frame.bytes().len() {
            self.make(datagrams);
        }
    }

    /// Copies the next bytes to the front of `into`, up to the end of a frame; answers how many.
    fn read_piece(&mut self, datagrams: &DatagramList, into: &mut [u8]) -> usize
        requires reading { IsReading datagrams.now self.old }
        requires left { 0 < length (bytes_left datagrams.now self.old) }
        requires room { 0 < length into.old }
        ensures reading { IsReading datagrams.now self.new }
        ensures count { (0 < result) × (result ≤ length into.old) }
        ensures read { bytes_left datagrams.now self.old ≡ take result into.new ++ bytes_left datagrams.now self.new }
        ensures shape { self.new.shape ≡ self.old.shape }
    {
        self.go_on(datagrams);
        let count = copy_piece(self.frame.bytes(), self.out, into);
        self.out += count;
        count
    }

    /// Copies the next bytes to `into`, as many as it has.
    pub(crate) fn read(&mut self, datagrams: &DatagramList, into: &mut [u8])
        requires reading { IsReading datagrams.now self.old }
        requires enough { length into.old ≤ length (bytes_left datagrams.now self.old) }
        ensures reading { IsReading datagrams.now self.new }
        ensures read { bytes_left datagrams.now self.old ≡ into.new ++ bytes_left datagrams.now self.new }
        ensures shape { self.new.shape ≡ self.old.shape }
    {
        let mut done = 0;
        while done < into.len() {
            done += self.read_piece(datagrams, &mut into[done..]);
        }
    }
}
