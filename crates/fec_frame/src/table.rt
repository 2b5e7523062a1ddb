//! The table of a frame under way, with its buffers.
use crate::begin::clear;
use crate::data::place_data;
use crate::fill::is_known;
use crate::finish::solve_table;
use crate::parity::place_parity;
use crate::place::{Column, State, TableAnswer, has_all_data};
use crate::solving::RowCounts;
use std::alloc::Allocator;
use std::marker::Model;

/// The table of an MPE-FEC frame: 191 columns of application data and then 64 of RS data, each of so many rows (EN 301 192 clause 9).
///
/// It stands column by column: byte r of column j is at place j × rows + r.
#[derive(Drop)]
pub struct Table<A: Allocator> {
    rows: usize,
    bytes: Vec<u8, A>,
    marks: Vec<u8, A>,
    work: Vec<u8, A>,
    state: State,
}

impl<A: Allocator> Model for Table<A> {
    ghost use Rattle.std.specs.Prelude.{◌≡◌, ◌*◌, ◌<◌, ◌≤◌, vec_len};
    ghost use Rattle.fec_frame.specs.Stands.{TableState, TellsKnown};

    ghost Value = { TableState };

    ghost view = { λ table. record { rows = table.rows; bytes = table.bytes.items; marks = table.marks.items; state = table.state } };

    ghost invariant = { λ table. (vec_len table.bytes ≡ 255 * table.rows) × (vec_len table.marks ≡ 255 * table.rows) × (vec_len table.work ≡ 65 * table.rows) × (0 < table.rows) × (table.rows ≤ 1024) × TellsKnown table.rows table.bytes.items table.marks.items table.state };
}

impl<A: Allocator> Table<A> {
    ghost use Rattle.std.specs.Prelude.{◌≡◌, ◌≢◌, ◌↔◌, ◌+◌, ◌*◌, ◌<◌, ◌≤◌, ◌∷◌, ◌++◌, [], Bool, List, Some, length, slice_index, vec_len, is_some, true, ℕ};
    ghost use Rattle.section_spec.specs.Mpe.{IsRows};
    ghost use Rattle.fec_frame_spec.specs.Sections.{FrameSection, data_section, parity_section};
    ghost use Rattle.fec_frame_spec.specs.Groups.{is_cut_by_table};
    ghost use Rattle.fec_frame_spec.specs.Known.{known_byte};
    ghost use Rattle.fec_frame_spec.specs.Corrected.{left_rows, mended_rows};
    ghost use Rattle.fec_frame.specs.Marks.{is_known_mark};
    ghost use Rattle.fec_frame.specs.Stands.{IsSolved, Stands, column_of, data_fields, table_byte};

    /// A table without sections. `bytes` and `marks` have 255 bytes for each row, `work` has 65.
    pub fn over(rows: u16, bytes: Vec<u8, A>, marks: Vec<u8, A>, work: Vec<u8, A>) -> Table<A>
        requires rows { IsRows rows }
        requires bytes { vec_len bytes ≡ 255 * rows }
        requires marks { vec_len marks ≡ 255 * rows }
        requires work { vec_len work ≡ 65 * rows }
        ensures stands { Stands result [] }
        ensures rows { result.rows ≡ rows }
    {
        let mut marks = marks;
        let count = usize::from(rows);
        let state = clear(marks.as_mut_slice(), count);
        Table {
            rows: count,
            bytes,
            marks,
            work,
            state,
        }
    }

    /// Places a datagram_section with this address, a place of the application data table. It is out of the table where its bytes pass
    /// that, and begins the next frame where the sections placed so far leave no place for it.
    pub fn data(
        &mut self,
        address: u32,
        table_boundary: bool,
        frame_boundary: bool,
        datagram: &[u8],
    ) -> TableAnswer
        ensures out_of_table { result ≡ TableAnswer.OutOfTable ↔ (191 * self.old.rows < address + length datagram.now) }
        ensures new_frame { (sections : List FrameSection) (mac : List ℕ) (delta : ℕ) → Stands self.old sections → result ≢ TableAnswer.OutOfTable
            → (result ≡ TableAnswer.NewFrame ↔ (is_cut_by_table self.old.rows sections (data_section (data_fields mac delta address table_boundary frame_boundary datagram.now)) ≡ true)) }
        ensures placed { (sections : List FrameSection) (mac : List ℕ) (delta : ℕ) → Stands self.old sections → result ≡ TableAnswer.Placed
            → Stands self.new (sections ++ data_section (data_fields mac delta address table_boundary frame_boundary datagram.now) ∷ []) }
        ensures unchanged { result ≢ TableAnswer.Placed → self.new ≡ self.old }
        ensures rows { self.new.rows ≡ self.old.rows }
    {
        let rows = self.rows;
        place_data(
            self.bytes.as_mut_slice(),
            self.marks.as_mut_slice(),
            &mut self.state,
            rows,
            address as usize,
            table_boundary,
            frame_boundary,
            datagram,
        )
    }

    /// Places an MPE-FEC section: section_number, padding_columns, last_section_number, frame_boundary, and its column. None is out of
    /// the table.
    pub fn parity(
        &mut self,
        number: u8,
        padding: u8,
        last: u8,
        frame_boundary: bool,
        column: &[u8],
    ) -> TableAnswer
        requires padding { padding ≤ 190 }
        requires number { number ≤ last }
        requires last { last ≤ 63 }
        requires column { length column.now ≡ self.old.rows }
        ensures out_of_table { result ≢ TableAnswer.OutOfTable }
        ensures new_frame { (sections : List FrameSection) (delta address : ℕ) (table_boundary : Bool) → Stands self.old sections
            → (result ≡ TableAnswer.NewFrame ↔ (is_cut_by_table self.old.rows sections (parity_section (column_of delta address table_boundary number padding last frame_boundary column.now)) ≡ true)) }
        ensures placed { (sections : List FrameSection) (delta address : ℕ) (table_boundary : Bool) → Stands self.old sections → result ≡ TableAnswer.Placed
            → Stands self.new (sections ++ parity_section (column_of delta address table_boundary number padding last frame_boundary column.now) ∷ []) }
        ensures unchanged { result ≢ TableAnswer.Placed → self.new ≡ self.old }
        ensures rows { self.new.rows ≡ self.old.rows }
    {
        let rows = self.rows;
        let numbers = Column {
            number,
            padding,
            last,
        };
        place_parity(
            self.bytes.as_mut_slice(),
            self.marks.as_mut_slice(),
            &mut self.state,
            rows,
            numbers,
            frame_boundary,
            column,
        )
    }

    /// Corrects the rows that lack application data, and marks where datagrams can start.
    ///
    /// Between it and the next `clear` no section is placed.
    pub fn solve(&mut self) -> RowCounts
        ensures solved { (sections : List FrameSection) → Stands self.old sections → IsSolved self.new sections }
        ensures mended { (sections : List FrameSection) → Stands self.old sections → result.mended ≡ mended_rows self.old.rows (known_byte self.old.rows sections) }
        ensures left { (sections : List FrameSection) → Stands self.old sections → result.left ≡ left_rows self.old.rows (known_byte self.old.rows sections) }
        ensures rows { self.new.rows ≡ self.old.rows }
    {
        let rows = self.rows;
        solve_table(
            self.bytes.as_mut_slice(),
            self.marks.as_mut_slice(),
            self.work.as_mut_slice(),
            &mut self.state,
            rows,
        )
    }

    /// Answers whether the byte at a place of the table is known.
    pub fn known(&self, at: usize) -> bool
        requires { at < 255 * self.now.rows }
        ensures { result ≡ is_some (table_byte self.now at) }
    {
        is_known(self.marks.as_slice()[at])
    }

    /// Answers whether every byte of the application data table is known, as far as that shows without a look at each.
    pub fn has_all_data(&self) -> bool
        ensures { result ≡ true → (place : ℕ) → place < 191 * self.now.rows → is_known_mark (slice_index self.now.marks place) ≡ true }
    {
        has_all_data(&self.state)
    }

    /// From where on every byte of the application data table is known, and 0.
    pub fn zeros_from(&self) -> usize
        ensures most { result ≤ 191 * self.now.rows }
        ensures zeros { (place : ℕ) → result ≤ place → place < 191 * self.now.rows → table_byte self.now place ≡ Some 0 }
    {
        self.state.zeros_from
    }

    /// Answers whether no section was placed since `over` or the last `clear`.
    pub fn is_empty(&self) -> bool
        ensures stands { (sections : List FrameSection) → Stands self.now sections → (result ≡ true ↔ (length sections ≡ 0)) }
        ensures solved { (sections : List FrameSection) → IsSolved self.now sections → (result ≡ true ↔ (length sections ≡ 0)) }
    {
        self.state.empty
    }

    /// Begins the next frame.
    pub fn clear(&mut self)
        ensures stands { Stands self.new [] }
        ensures rows { self.new.rows ≡ self.old.rows }
    {
        let rows = self.rows;
        self.state = clear(self.marks.as_mut_slice(), rows);
    }

    /// The bytes of the table, column by column, for a walk.
    pub fn bytes(&self) -> &[u8]
        ensures read { result.now ≡ self.now.bytes }
        ensures long { length result.now ≡ 255 * self.now.rows }
    {
        self.bytes.as_slice()
    }

    /// The marks of its places: `is_start` and `run_end` read them.
    pub fn marks(&self) -> &[u8]
        ensures read { result.now ≡ self.now.marks }
        ensures long { length result.now ≡ 255 * self.now.rows }
    {
        self.marks.as_slice()
    }

    /// Its rows.
    pub fn rows(&self) -> usize
        ensures { result ≡ self.now.rows }
    {
        self.rows
    }
}
