//! A table without sections.
ghost use Rattle.std.specs.Prelude.{◌≡◌, ◌*◌, ◌<◌, ◌≤◌, [], List, length, slice_index, if◌then◌else◌, ◌==◌, ℕ};
ghost use Rattle.fec_frame.specs.Stands.{IsOf, TellsKnown};

use crate::fill::with_start;
use crate::place::State;

/// Clears all marks.
fn clear_marks(marks: &mut [u8])
    ensures cleared { (place : ℕ) → slice_index marks.new place ≡ 0 }
    ensures long { length marks.new ≡ length marks.old }
{
    for i in 0..marks.len() {
        marks[i] = 0;
    }
}

/// Begins a frame: nothing is known, and a datagram can start at the first place.
pub fn clear(marks: &mut [u8], rows: usize) -> State
    requires rows_most { rows ≤ 1024 }
    requires some { 0 < length marks.old }
    ensures stands { (bytes : List ℕ) → IsOf rows bytes marks.new result [] }
    ensures told { (bytes : List ℕ) → TellsKnown rows bytes marks.new result }
    ensures long { length marks.new ≡ length marks.old }
{
    clear_marks(marks);
    marks[0] = with_start(0);
    State {
        empty: true,
        frame_ended: false,
        table_ended: false,
        end: 0,
        covered: 0,
        column: None,
        known_to: 0,
        zeros_from: 191 * rows,
    }
}
