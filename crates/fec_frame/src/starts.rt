//! Marks where datagrams can start: after the places that sections tell, where datagrams end that start at marked places.
ghost use Rattle.std.specs.Prelude.{◌≡◌, ◌<◌, ◌≤◌, ◌+◌, ◌*◌, List, length, slice_index, true, ℕ};
ghost use Rattle.section_spec.specs.Mpe.{MpeFields};
ghost use Rattle.fec_frame.specs.Marks.{AreEdgesMarked, AreStartsMarked, IsRun, is_known_mark, is_start_mark};
ghost use Rattle.fec_frame.specs.Marking.{AreMarkedUpTo};
ghost use Rattle.fec_frame.specs.Stands.{TellsKnown};

use crate::fill::with_start;
use crate::place::{State, has_all_data};
use crate::run::{next_start, run_end};
use ip_datagram::{Hint, length_hint};

/// Answers where the known bytes end that begin at `place`: `end`, where that is further on.
fn end_of(marks: &[u8], place: usize, end: usize, limit: usize) -> usize
    requires below { place < limit }
    requires marks_long { limit ≤ length marks.now }
    requires run { place < end → IsRun marks.now limit place end }
    ensures run { IsRun marks.now limit place result }
{
    if place < end {
        end
    } else {
        run_end(marks, place, limit)
    }
}

/// Marks the place where the datagram at `place` ends, where the known bytes up to `end` tell it.
fn mark_next(bytes: &[u8], marks: &mut [u8], place: usize, end: usize, limit: usize)
    requires bytes_long { limit ≤ length bytes.now }
    requires marks_long { limit ≤ length marks.old }
    requires below { place < limit }
    requires run { IsRun marks.old limit place end }
    requires start { is_start_mark (slice_index marks.old place) ≡ true }
    ensures more { (old : List ℕ) → AreMarkedUpTo bytes.now old marks.old limit place → AreMarkedUpTo bytes.now old marks.new limit (place + 1) }
    ensures run { IsRun marks.new limit place end }
{
    if let Hint::Length(size) = length_hint(&bytes[place..end]) {
        if size < limit - place {
            marks[place + size] = with_start(marks[place + size]);
        }
    }
}

/// Marks what the start at `place` tells, and answers where the known bytes end.
fn mark_at(bytes: &[u8], marks: &mut [u8], place: usize, end: usize, limit: usize) -> usize
    requires bytes_long { limit ≤ length bytes.now }
    requires marks_long { limit ≤ length marks.old }
    requires below { place < limit }
    requires run { place < end → IsRun marks.old limit place end }
    requires start { is_start_mark (slice_index marks.old place) ≡ true }
    ensures more { (old : List ℕ) → AreMarkedUpTo bytes.now old marks.old limit place → AreMarkedUpTo bytes.now old marks.new limit (place + 1) }
    ensures run { IsRun marks.new limit place result }
{
    let run = end_of(marks, place, end, limit);
    mark_next(bytes, marks, place, run, limit);
    run
}

/// Where the known bytes end that begin at place 0, if the state tells that they are all before `limit`; otherwise 0.
fn told_end(state: &State, rows: usize) -> usize
    requires rows_most { rows ≤ 1024 }
    ensures run { (bytes marks : List ℕ) → TellsKnown rows bytes marks state.now → 0 < result → IsRun marks (191 * rows) 0 result }
{
    if has_all_data(state) { 191 * rows } else { 0 }
}

/// Marks all starts of the application data table. Known zeros at its end tell none.
pub fn mark_starts(bytes: &[u8], marks: &mut [u8], state: &State, rows: usize)
    requires rows_most { rows ≤ 1024 }
    requires bytes_long { 191 * rows ≤ length bytes.now }
    requires marks_long { 191 * rows ≤ length marks.old }
    requires told { TellsKnown rows bytes.now marks.old state.now }
    ensures known { (place : ℕ) → is_known_mark (slice_index marks.new place) ≡ is_known_mark (slice_index marks.old place) }
    ensures marked { (sections : List MpeFields) → AreEdgesMarked rows marks.old sections → AreStartsMarked rows bytes.now marks.new sections }
{
    let limit = 191 * rows;
    let zeros_from = state.zeros_from;
    let mut end = told_end(state, rows);
    let mut place = next_start(marks, 0, zeros_from);
    while place < zeros_from {
        end = mark_at(bytes, marks, place, end, limit);
        place = next_start(marks, place + 1, zeros_from);
    }
}
