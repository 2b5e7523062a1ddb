//! The walk over a table: an iterator of the datagrams in it, in rising places.
ghost use Rattle.std.specs.Prelude.{◌≡◌, ◌*◌, ◌<◌, ◌≤◌, [], ◌∷◌, Some, IfNone, IfSome, length, ℕ};
ghost use Rattle.frame_walk.specs.Found.{front_list};
ghost use Rattle.fec_frame.specs.Marks.{IsRun, marked_byte};

use fec_frame::{Table, next_start, run_end};
use ip_datagram::front;
use std::alloc::Allocator;

/// Answers the datagram at the front of some bytes.
fn front_of(run: &[u8]) -> Option<&[u8]>
    ensures some { IfSome result (λ d. front_list run.now ≡ d.now ∷ []) }
    ensures none { IfNone result (front_list run.now ≡ []) }
{
    match front(run) {
        Ok(size) => Some(&run[..size]),
        Err(_) => None,
    }
}

/// Where the known bytes end that begin at place 0, if they are known to be all of the application data table; otherwise 0.
fn first_run<A: Allocator>(table: &Table<A>, limit: usize) -> usize
    requires limit { limit ≡ 191 * table.now.rows }
    ensures run { 0 < result → IsRun table.now.marks limit 0 result }
{
    if table.has_all_data() { limit } else { 0 }
}

/// Lends the datagrams of a table out of its bytes.
#[derive(Drop)]
pub struct Walk<'t> {
    bytes: &'t [u8],
    marks: &'t [u8],
    limit: usize,
    /// From here on known zeros stand, with which no datagram begins.
    zeros_from: usize,
    at: usize,
    run: usize,
    ghost bytes_long: { limit ≤ length bytes.now },
    ghost marks_long: { limit ≤ length marks.now },
    ghost known: { at < run → IsRun marks.now limit at run },
    ghost zeros_most: { zeros_from ≤ limit },
    ghost zeros: { (place : ℕ) → zeros_from ≤ place → place < limit → marked_byte bytes.now marks.now place ≡ Some 0 },
}

impl<'t> Walk<'t> {
    ghost use Rattle.std.specs.Prelude.{◌≡◌, ◌≤◌, ◌<◌, ◌∷◌, ◌+◌, ◌*◌, List, IfNone, IfSome, length};
    ghost use Rattle.fec_frame_spec.specs.Sections.{FrameSection};
    ghost use Rattle.fec_frame_spec.specs.Delivered.{frame_datagrams};
    ghost use Rattle.fec_frame.specs.Marks.{IsRun};
    ghost use Rattle.fec_frame.specs.Stands.{IsSolved};
    ghost use Rattle.frame_walk.specs.Found.{found_from};
    ghost use Rattle.frame_walk.specs.Views.{left_of};

    /// A walk over a table whose rows were corrected: it yields the datagrams of the frame, in rising places, lent out of the table.
    pub fn over<A: Allocator>(table: &'t Table<A>) -> Walk<'t>
        ensures datagrams { (sections : List FrameSection) → IsSolved table.now sections → left_of result ≡ frame_datagrams table.now.rows sections }
    {
        Walk {
            bytes: table.bytes(),
            marks: table.marks(),
            limit: 191 * table.rows(),
            zeros_from: table.zeros_from(),
            at: 0,
            run: first_run(table, 191 * table.rows()),
        }
    }

    /// Answers where the known bytes end that begin at `start`.
    fn end(&self, start: usize) -> usize
        requires ahead { self.now.at ≤ start }
        requires below { start < self.now.limit }
        ensures run { IsRun self.now.marks.now self.now.limit start result }
    {
        if start < self.run {
            self.run
        } else {
            run_end(self.marks, start, self.limit)
        }
    }

    /// Goes past the next start, and answers the datagram that stands there.
    fn step(&mut self) -> Option<&'t [u8]>
        requires before { self.old.at < self.old.zeros_from }
        ensures some { IfSome result (λ d. left_of self.old ≡ d.now ∷ left_of self.new) }
        ensures none { IfNone result (left_of self.old ≡ left_of self.new) }
        ensures at { self.old.at < self.new.at }
        ensures zeros_from { self.new.zeros_from ≡ self.old.zeros_from }
    {
        let bytes = self.bytes;
        let limit = self.zeros_from;
        let start = next_start(self.marks, self.at, limit);
        if start == limit {
            self.at = limit;
            return None;
        }
        let end = self.end(start);
        self.run = end;
        self.at = start + 1;
        front_of(&bytes[start..end])
    }
}

impl<'t> Iterator for Walk<'t> {
    ghost use Rattle.std.specs.Iterator.{YieldsFirstRef, item_count};
    ghost use Rattle.frame_walk.specs.Views.{left_of};

    type Item = &'t [u8];

    ghost next_gives = { YieldsFirstRef left_of };

    ghost remaining = { item_count left_of };

    fn next(&mut self) -> Option<&'t [u8]> {
        while self.at < self.zeros_from {
            if let Some(datagram) = self.step() {
                return Some(datagram);
            }
        }
        None
    }
}
