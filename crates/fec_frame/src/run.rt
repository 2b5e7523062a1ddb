//! Runs of known bytes of a table, and places where datagrams can start.
ghost use Rattle.std.specs.Prelude.{◌≡◌, ◌+◌, ◌<◌, ◌≤◌, length, slice_index, true, false, ℕ};
ghost use Rattle.fec_frame.specs.Marks.{IsRun, is_known_mark, is_start_mark};

use crate::fill::is_known;

/// The bit of a mark that tells that a datagram can start.
const START: u8 = 2;

/// So many marks are looked at together first.
const WIDE: usize = 256;

/// So many of the others are.
const BLOCK: usize = 64;

/// Answers whether a datagram can start at the place of a mark.
pub fn is_start(mark: u8) -> bool
    ensures { result ≡ is_start_mark mark }
{
    mark & START != 0
}

/// The bits that all marks of a block have.
fn common_bits(marks: &[u8], from: usize, size: usize) -> u8
    requires within { from + size ≤ length marks.now }
    ensures known { is_known_mark result ≡ true → (place : ℕ) → from ≤ place → place < from + size → is_known_mark (slice_index marks.now place) ≡ true }
{
    let mut bits = 255;
    for i in 0..size {
        bits &= marks[from + i];
    }
    bits
}

/// The bits that any mark of a block has.
fn any_bits(marks: &[u8], from: usize, size: usize) -> u8
    requires within { from + size ≤ length marks.now }
    ensures unknown { is_known_mark result ≡ false → (place : ℕ) → from ≤ place → place < from + size → is_known_mark (slice_index marks.now place) ≡ false }
    ensures no_start { is_start_mark result ≡ false → (place : ℕ) → from ≤ place → place < from + size → is_start_mark (slice_index marks.now place) ≡ false }
{
    let mut bits = 0;
    for i in 0..size {
        bits |= marks[from + i];
    }
    bits
}

/// Answers where the known bytes end that begin at `start`.
pub fn run_end(marks: &[u8], start: usize, limit: usize) -> usize
    requires order { start ≤ limit }
    requires within { limit ≤ length marks.now }
    ensures run { IsRun marks.now limit start result }
{
    let mut end = start;
    while limit - end >= WIDE && is_known(common_bits(marks, end, WIDE)) {
        end += WIDE;
    }
    while limit - end >= BLOCK && is_known(common_bits(marks, end, BLOCK)) {
        end += BLOCK;
    }
    while end < limit && is_known(marks[end]) {
        end += 1;
    }
    end
}

/// Answers where the unknown bytes end that begin at `start`.
pub fn gap_end(marks: &[u8], start: usize, limit: usize) -> usize
    requires order { start ≤ limit }
    requires within { limit ≤ length marks.now }
    ensures order { start ≤ result }
    ensures within { result ≤ limit }
    ensures unknown { (place : ℕ) → start ≤ place → place < result → is_known_mark (slice_index marks.now place) ≡ false }
    ensures over { result < limit → is_known_mark (slice_index marks.now result) ≡ true }
{
    let mut end = start;
    while limit - end >= WIDE && !is_known(any_bits(marks, end, WIDE)) {
        end += WIDE;
    }
    while limit - end >= BLOCK && !is_known(any_bits(marks, end, BLOCK)) {
        end += BLOCK;
    }
    while end < limit && !is_known(marks[end]) {
        end += 1;
    }
    end
}

/// Answers the first place from `from` on and before `limit` where a datagram can start, otherwise `limit`.
pub fn next_start(marks: &[u8], from: usize, limit: usize) -> usize
    requires order { from ≤ limit }
    requires within { limit ≤ length marks.now }
    ensures order { from ≤ result }
    ensures within { result ≤ limit }
    ensures none { (place : ℕ) → from ≤ place → place < result → is_start_mark (slice_index marks.now place) ≡ false }
    ensures start { result < limit → is_start_mark (slice_index marks.now result) ≡ true }
{
    let mut place = from;
    while limit - place >= WIDE && !is_start(any_bits(marks, place, WIDE)) {
        place += WIDE;
    }
    while limit - place >= BLOCK && !is_start(any_bits(marks, place, BLOCK)) {
        place += BLOCK;
    }
    while place < limit && !is_start(marks[place]) {
        place += 1;
    }
    place
}
