//! What is kept of the sections placed in a table, and what a section does to it.
ghost use Rattle.std.specs.Prelude.{◌≡◌, ◌&&◌, ◌<◌, ◌≤◌, Some, length, slice_index, true, if◌then◌else◌, ℕ};
ghost use Rattle.fec_frame_spec.specs.Known.{is_in};
ghost use Rattle.fec_frame.specs.Marks.{IsStartSet, is_start_mark, marked_byte};

use crate::fill::{fill_zeros, with_start};

/// What became of a section.
#[derive(Clone, Copy, PartialEq, Eq)]
pub enum TableAnswer {
    /// It is placed.
    Placed,
    /// It passes the application data table.
    OutOfTable,
    /// It begins the next frame.
    NewFrame,
}

/// The numbers of an MPE-FEC section.
#[derive(Clone, Copy)]
pub struct Column {
    pub number: u8,
    pub padding: u8,
    pub last: u8,
}

/// What is kept of the sections placed.
#[derive(Clone, Copy)]
pub struct State {
    pub empty: bool,
    pub frame_ended: bool,
    pub table_ended: bool,
    /// Where the last datagram ends.
    pub end: usize,
    /// Where the last datagram that has bytes ends.
    pub covered: usize,
    pub column: Option<Column>,
    /// Every byte of the table before this place is known.
    pub known_to: usize,
    /// Every byte of the application data table from this place on is known, and 0.
    pub zeros_from: usize,
}

/// Answers whether the state tells that every byte of the application data table is known.
pub fn has_all_data(state: &State) -> bool
    ensures yes { result ≡ true → state.now.zeros_from ≤ state.now.known_to }
{
    state.known_to >= state.zeros_from
}

/// Marks that a datagram can start at a place.
pub fn mark_start(marks: &mut [u8], at: usize)
    requires within { at < length marks.old }
    ensures set { IsStartSet marks.old marks.new at }
{
    marks[at] = with_start(marks[at]);
}

/// Fills zeros in after the end of the datagrams, where it is known.
pub fn fill_after(bytes: &mut [u8], marks: &mut [u8], end: usize, limit: usize, is_end: bool)
    requires order { end ≤ limit }
    requires within { limit ≤ length bytes.old }
    requires marks_within { limit ≤ length marks.old }
    ensures long { length bytes.new ≡ length bytes.old }
    ensures marks_long { length marks.new ≡ length marks.old }
    ensures byte { (place : ℕ) → marked_byte bytes.new marks.new place ≡ (if is_end && is_in end limit place then Some 0 else marked_byte bytes.old marks.old place) }
    ensures start { (place : ℕ) → is_start_mark (slice_index marks.new place) ≡ is_start_mark (slice_index marks.old place) }
{
    if is_end {
        fill_zeros(bytes, marks, end, limit);
    }
}
