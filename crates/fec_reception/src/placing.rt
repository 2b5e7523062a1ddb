//! A section of a frame -> its place in the table of the frame that is open.
ghost use Rattle.std.specs.Prelude.{◌≡◌, ◌≢◌, ◌++◌, ◌∷◌, [], List, true, false, not};
ghost use Rattle.fec_frame_spec.specs.Sections.{FrameSection};
ghost use Rattle.fec_frame_spec.specs.Groups.{is_cut_by_table};
ghost use Rattle.fec_frame.specs.Stands.{Stands};
ghost use Rattle.fec_reception.specs.Reading.{section_in, FitsTable};

use crate::sections::Section;
use fec_frame::{Table, TableAnswer};
use mpe_section::{Fec, Mpe};
use std::alloc::Allocator;

/// Places a section. False: it begins the next frame, and nothing changed.
pub(crate) fn place_in<A: Allocator>(table: &mut Table<A>, section: &Section<'_>) -> bool
    requires fits { FitsTable table.old.rows section.now }
    ensures cut { (sections : List FrameSection) → Stands table.old sections → result ≡ not (is_cut_by_table table.old.rows sections (section_in section.now)) }
    ensures placed { (sections : List FrameSection) → Stands table.old sections → result ≡ true → Stands table.new (sections ++ section_in section.now ∷ []) }
    ensures unchanged { result ≡ false → table.new ≡ table.old }
    ensures rows { table.new.rows ≡ table.old.rows }
{
    match section {
        Section::Data(mpe) => place_data(table, mpe),
        Section::Parity(fec) => place_column(table, fec),
    }
}

/// Places a datagram_section.
fn place_data<A: Allocator>(table: &mut Table<A>, mpe: &Mpe<'_>) -> bool
    requires fits { FitsTable table.old.rows (Section.Data mpe.now) }
    ensures cut { (sections : List FrameSection) → Stands table.old sections → result ≡ not (is_cut_by_table table.old.rows sections (section_in (Section.Data mpe.now))) }
    ensures placed { (sections : List FrameSection) → Stands table.old sections → result ≡ true → Stands table.new (sections ++ section_in (Section.Data mpe.now) ∷ []) }
    ensures unchanged { result ≡ false → table.new ≡ table.old }
    ensures rows { table.new.rows ≡ table.old.rows }
{
    let time = mpe.real_time;
    let answer = table.data(
        time.address,
        time.table_boundary,
        time.frame_boundary,
        mpe.datagram,
    );
    is_placed(answer)
}

/// Places an MPE-FEC section.
fn place_column<A: Allocator>(table: &mut Table<A>, fec: &Fec<'_>) -> bool
    requires fits { FitsTable table.old.rows (Section.Parity fec.now) }
    ensures cut { (sections : List FrameSection) → Stands table.old sections → result ≡ not (is_cut_by_table table.old.rows sections (section_in (Section.Parity fec.now))) }
    ensures placed { (sections : List FrameSection) → Stands table.old sections → result ≡ true → Stands table.new (sections ++ section_in (Section.Parity fec.now) ∷ []) }
    ensures unchanged { result ≡ false → table.new ≡ table.old }
    ensures rows { table.new.rows ≡ table.old.rows }
{
    let answer = table.parity(
        fec.number,
        fec.padding,
        fec.last,
        fec.real_time.frame_boundary,
        fec.column,
    );
    is_placed(answer)
}

/// Whether a section was placed.
fn is_placed(answer: TableAnswer) -> bool
    ensures placed { result ≡ true → answer ≡ TableAnswer.Placed }
    ensures none { result ≡ false → answer ≢ TableAnswer.Placed }
{
    match answer {
        TableAnswer::Placed => true,
        TableAnswer::OutOfTable | TableAnswer::NewFrame => false,
    }
}
