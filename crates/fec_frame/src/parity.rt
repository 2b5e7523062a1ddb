//! MPE-FEC sections placed in a table.
ghost use Rattle.std.specs.Prelude.{◌≡◌, ◌≢◌, ◌↔◌, ◌⊎◌, ◌+◌, ◌-◌, ◌*◌, ◌<◌, ◌≤◌, ◌∷◌, ◌++◌, [], Bool, List, Some, length, option_map, true, false, ℕ};
ghost use Rattle.fec_frame_spec.specs.Sections.{FrameSection, parity_section};
ghost use Rattle.fec_frame_spec.specs.Groups.{are_apart, is_cut_by_table};
ghost use Rattle.fec_frame_law.specs.Summary.{is_apart, is_cut_by_summary, summary_more};
ghost use Rattle.fec_frame.specs.Stands.{IsOf, IsSameSummary, TakesIn, TellsKnown, column_fields, column_of, summary_of};
ghost use Rattle.fec_frame.specs.Filled.{IsFilled};
ghost use Rattle.fec_frame.specs.Marks.{marked_byte};
ghost use Rattle.section_spec.specs.Mpe.{FecFields};

use crate::fill::{fill_piece, fill_zeros};
use crate::place::{Column, State, TableAnswer};

/// Fills zeros in, from a place on and before `limit`. From `zeros_from` on they stand there.
fn fill_padding(bytes: &mut [u8], marks: &mut [u8], from: usize, zeros_from: usize, limit: usize)
    requires order { zeros_from ≤ limit }
    requires within { limit ≤ length bytes.old }
    requires marks_within { limit ≤ length marks.old }
    requires zeros { (place : ℕ) → zeros_from ≤ place → place < limit → marked_byte bytes.old marks.old place ≡ Some 0 }
    ensures filled { IsFilled bytes.old marks.old bytes.new marks.new from limit (λ place. 0) }
{
    if from < zeros_from {
        fill_zeros(bytes, marks, from, zeros_from);
    }
}

/// Takes the bytes of a section in.
fn fill_parity(
    bytes: &mut [u8],
    marks: &mut [u8],
    state: &State,
    rows: usize,
    number: u8,
    padding: u8,
    column: &[u8],
)
    requires rows_some { 0 < rows }
    requires rows_most { rows ≤ 1024 }
    requires bytes_long { length bytes.old ≡ 255 * rows }
    requires marks_long { length marks.old ≡ 255 * rows }
    requires number_most { number ≤ 63 }
    requires padding_most { padding ≤ 190 }
    requires column_long { length column.now ≡ rows }
    requires told { TellsKnown rows bytes.old marks.old state.now }
    ensures taken { (delta address last : ℕ) (is_end ends : Bool) → TakesIn rows (parity_section (column_of delta address is_end number padding last ends column.now)) bytes.old marks.old bytes.new marks.new }
{
    let first = (191 - usize::from(padding)) * rows;
    fill_padding(bytes, marks, first, state.zeros_from, 191 * rows);
    let begin = 191 * rows + usize::from(number) * rows;
    fill_piece(bytes, marks, begin, column);
}

/// Answers whether an MPE-FEC section is of another frame than the one before it.
fn is_column_apart(before: &Column, column: &Column) -> bool
    ensures apart { (f : FecFields) → f.number ≡ column.now.number → f.padding ≡ column.now.padding → f.last ≡ column.now.last → result ≡ are_apart (column_fields before.now) f }
{
    column.number <= before.number || before.padding != column.padding || before.last != column.last
}

/// The same, where there may be none before it.
fn is_apart_from(before: &Option<Column>, column: &Column) -> bool
    ensures apart { (f : FecFields) → f.number ≡ column.now.number → f.padding ≡ column.now.padding → f.last ≡ column.now.last → result ≡ is_apart (option_map column_fields before.now) f }
{
    match before {
        Some(before) => is_column_apart(before, column),
        None => false,
    }
}

/// Answers whether an MPE-FEC section with these numbers begins the next frame.
fn cuts_parity(state: &State, rows: usize, column: &Column) -> bool
    requires rows_most { rows ≤ 1024 }
    requires padding_most { column.now.padding ≤ 190 }
    ensures cut { (delta address : ℕ) (bytes : List ℕ) (is_end ends : Bool)
        → result ≡ is_cut_by_summary rows (summary_of state.now) (parity_section (column_of delta address is_end column.now.number column.now.padding column.now.last ends bytes)) }
{
    state.frame_ended
        || is_apart_from(&state.column, column)
        || (191 - usize::from(column.padding)) * rows < state.covered
}

/// From where on the application data table is known zeros, with the padding columns.
fn zeros_with(zeros_from: usize, first: usize) -> usize
    ensures most { result ≤ zeros_from }
    ensures zeros { (place : ℕ) → result ≤ place → (zeros_from ≤ place) ⊎ (first ≤ place) }
{
    if first < zeros_from {
        first
    } else {
        zeros_from
    }
}

/// What is kept with an MPE-FEC section more.
fn with_parity(state: &State, rows: usize, column: Column, ends: bool) -> State
    requires rows_most { rows ≤ 1024 }
    requires padding_most { column.padding ≤ 190 }
    ensures summary { (delta address : ℕ) (bytes : List ℕ) (is_end : Bool)
        → IsSameSummary (summary_more (summary_of state.now) (parity_section (column_of delta address is_end column.number column.padding column.last ends bytes))) (summary_of result) }
    ensures some { result.empty ≡ false }
    ensures known_to { result.known_to ≡ state.now.known_to }
    ensures zeros_most { result.zeros_from ≤ state.now.zeros_from }
    ensures zeros { (place : ℕ) → result.zeros_from ≤ place → (state.now.zeros_from ≤ place) ⊎ ((191 - column.padding) * rows ≤ place) }
{
    State {
        empty: false,
        frame_ended: state.frame_ended || ends,
        table_ended: state.table_ended,
        end: state.end,
        covered: state.covered,
        column: Some(column),
        known_to: state.known_to,
        zeros_from: zeros_with(state.zeros_from, (191 - usize::from(column.padding)) * rows),
    }
}

/// Places an MPE-FEC section.
pub fn place_parity(
    bytes: &mut [u8],
    marks: &mut [u8],
    state: &mut State,
    rows: usize,
    numbers: Column,
    ends: bool,
    column: &[u8],
) -> TableAnswer
    requires rows_some { 0 < rows }
    requires rows_most { rows ≤ 1024 }
    requires bytes_long { length bytes.old ≡ 255 * rows }
    requires marks_long { length marks.old ≡ 255 * rows }
    requires number_most { numbers.number ≤ 63 }
    requires padding_most { numbers.padding ≤ 190 }
    requires column_long { length column.now ≡ rows }
    requires told { TellsKnown rows bytes.old marks.old state.old }
    ensures told { TellsKnown rows bytes.new marks.new state.new }
    ensures placed_or_not { result ≢ TableAnswer.OutOfTable }
    ensures new_frame { (sections : List FrameSection) (delta address : ℕ) (is_end : Bool) → IsOf rows bytes.old marks.old state.old sections
        → (result ≡ TableAnswer.NewFrame ↔ (is_cut_by_table rows sections (parity_section (column_of delta address is_end numbers.number numbers.padding numbers.last ends column.now)) ≡ true)) }
    ensures placed { (sections : List FrameSection) (delta address : ℕ) (is_end : Bool) → IsOf rows bytes.old marks.old state.old sections → result ≡ TableAnswer.Placed
        → IsOf rows bytes.new marks.new state.new (sections ++ parity_section (column_of delta address is_end numbers.number numbers.padding numbers.last ends column.now) ∷ []) }
    ensures unchanged { result ≢ TableAnswer.Placed → (bytes.new ≡ bytes.old) × (marks.new ≡ marks.old) × (state.new ≡ state.old) }
{
    if cuts_parity(state, rows, &numbers) {
        return TableAnswer::NewFrame;
    }
    fill_parity(
        bytes,
        marks,
        state,
        rows,
        numbers.number,
        numbers.padding,
        column,
    );
    *state = with_parity(state, rows, numbers, ends);
    TableAnswer::Placed
}
