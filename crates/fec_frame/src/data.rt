//! Datagram_sections placed in a table.
ghost use Rattle.std.specs.Prelude.{◌≡◌, ◌≢◌, ◌↔◌, ◌⊎◌, ◌+◌, ◌-◌, ◌*◌, ◌<◌, ◌≤◌, ◌∷◌, ◌++◌, [], ◌==◌, Bool, List, length, if◌then◌else◌, false, true, ℕ};
ghost use Rattle.fec_frame_spec.specs.Sections.{FrameSection, data_section};
ghost use Rattle.fec_frame_spec.specs.Groups.{is_cut_by_table};
ghost use Rattle.fec_frame_law.specs.Summary.{is_cut_by_summary, summary_more};
ghost use Rattle.fec_frame.specs.Stands.{IsOf, IsSameSummary, TakesIn, TellsKnown, data_fields, summary_of};

use crate::fill::fill_piece;
use crate::place::{State, TableAnswer, fill_after, mark_start};

/// Takes the bytes of a section in.
fn fill_data(
    bytes: &mut [u8],
    marks: &mut [u8],
    rows: usize,
    address: usize,
    is_end: bool,
    datagram: &[u8],
)
    requires rows_some { 0 < rows }
    requires rows_most { rows ≤ 1024 }
    requires bytes_long { length bytes.old ≡ 255 * rows }
    requires marks_long { length marks.old ≡ 255 * rows }
    requires within { address + length datagram.now ≤ 191 * rows }
    ensures taken { (mac : List ℕ) (delta : ℕ) (ends : Bool) → TakesIn rows (data_section (data_fields mac delta address is_end ends datagram.now)) bytes.old marks.old bytes.new marks.new }
{
    let end = address + datagram.len();
    fill_after(bytes, marks, end, 191 * rows, is_end);
    fill_piece(bytes, marks, address, datagram);
    mark_start(marks, address);
    mark_start(marks, end);
}

/// Answers whether a datagram_section at this address begins the next frame.
fn cuts_data(state: &State, address: usize) -> bool
    ensures cut { (rows delta : ℕ) (mac datagram : List ℕ) (is_end ends : Bool) → result ≡ is_cut_by_summary rows (summary_of state.now) (data_section (data_fields mac delta address is_end ends datagram)) }
{
    state.frame_ended || state.column.is_some() || state.table_ended || address < state.end
}

/// Where the last datagram that has bytes ends, with a datagram more.
fn covered_with(covered: usize, end: usize, size: usize) -> usize
    ensures { result ≡ (if size == 0 then covered else end) }
{
    if size == 0 { covered } else { end }
}

/// Up to where every byte is known, with a datagram more.
fn known_with(known_to: usize, address: usize, end: usize) -> usize
    ensures known { (place : ℕ) → place < result → (place < known_to) ⊎ ((address ≤ place) × (place < end)) }
{
    if known_to < address || end < known_to {
        known_to
    } else {
        end
    }
}

/// What is kept with a datagram_section more.
fn with_data(
    state: &State,
    limit: usize,
    end: usize,
    size: usize,
    is_end: bool,
    ends: bool,
) -> State
    requires size { size ≤ end }
    ensures summary { (delta address : ℕ) (mac datagram : List ℕ) → address + length datagram ≡ end → length datagram ≡ size
        → IsSameSummary (summary_more (summary_of state.now) (data_section (data_fields mac delta address is_end ends datagram))) (summary_of result) }
    ensures some { result.empty ≡ false }
    ensures known { (place : ℕ) → place < result.known_to → (place < state.now.known_to) ⊎ ((end - size ≤ place) × (place < end)) }
    ensures zeros { result.zeros_from ≡ (if is_end then end else limit) }
{
    State {
        empty: false,
        frame_ended: state.frame_ended || ends,
        table_ended: state.table_ended || is_end,
        end,
        covered: covered_with(state.covered, end, size),
        column: state.column,
        known_to: known_with(state.known_to, end - size, end),
        zeros_from: if is_end { end } else { limit },
    }
}

/// Places a datagram_section.
pub fn place_data(
    bytes: &mut [u8],
    marks: &mut [u8],
    state: &mut State,
    rows: usize,
    address: usize,
    is_end: bool,
    ends: bool,
    datagram: &[u8],
) -> TableAnswer
    requires rows_some { 0 < rows }
    requires rows_most { rows ≤ 1024 }
    requires bytes_long { length bytes.old ≡ 255 * rows }
    requires marks_long { length marks.old ≡ 255 * rows }
    requires told { TellsKnown rows bytes.old marks.old state.old }
    ensures told { TellsKnown rows bytes.new marks.new state.new }
    ensures out_of_table { result ≡ TableAnswer.OutOfTable ↔ (191 * rows < address + length datagram.now) }
    ensures new_frame { (sections : List FrameSection) (mac : List ℕ) (delta : ℕ) → IsOf rows bytes.old marks.old state.old sections → result ≢ TableAnswer.OutOfTable
        → (result ≡ TableAnswer.NewFrame ↔ (is_cut_by_table rows sections (data_section (data_fields mac delta address is_end ends datagram.now)) ≡ true)) }
    ensures placed { (sections : List FrameSection) (mac : List ℕ) (delta : ℕ) → IsOf rows bytes.old marks.old state.old sections → result ≡ TableAnswer.Placed
        → IsOf rows bytes.new marks.new state.new (sections ++ data_section (data_fields mac delta address is_end ends datagram.now) ∷ []) }
    ensures unchanged { result ≢ TableAnswer.Placed → (bytes.new ≡ bytes.old) × (marks.new ≡ marks.old) × (state.new ≡ state.old) }
{
    if address > 191 * rows || datagram.len() > 191 * rows - address {
        return TableAnswer::OutOfTable;
    }
    if cuts_data(state, address) {
        return TableAnswer::NewFrame;
    }
    fill_data(bytes, marks, rows, address, is_end, datagram);
    *state = with_data(
        state,
        191 * rows,
        address + datagram.len(),
        datagram.len(),
        is_end,
        ends,
    );
    TableAnswer::Placed
}
