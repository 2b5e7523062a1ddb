//! A frame that ended: its rows corrected, and the starts of its datagrams marked.
ghost use Rattle.std.specs.Prelude.{◌≡◌, ◌*◌, ◌<◌, ◌≤◌, List, length};
ghost use Rattle.fec_frame_spec.specs.Sections.{FrameSection};
ghost use Rattle.fec_frame_spec.specs.Known.{known_byte};
ghost use Rattle.fec_frame_spec.specs.Corrected.{left_rows, mended_rows};
ghost use Rattle.fec_frame.specs.Stands.{IsOf, IsSolved, TellsKnown};

use crate::place::State;
use crate::solving::{RowCounts, solve_rows};
use crate::starts::mark_starts;

/// Corrects the rows, and marks where datagrams can start. `work` has 65 bytes for each row.
pub fn solve_table(
    bytes: &mut [u8],
    marks: &mut [u8],
    work: &mut [u8],
    state: &mut State,
    rows: usize,
) -> RowCounts
    requires rows_some { 0 < rows }
    requires rows_most { rows ≤ 1024 }
    requires bytes_long { length bytes.old ≡ 255 * rows }
    requires marks_long { length marks.old ≡ 255 * rows }
    requires work_long { length work.old ≡ 65 * rows }
    requires told { TellsKnown rows bytes.old marks.old state.old }
    ensures told { TellsKnown rows bytes.new marks.new state.new }
    ensures solved { (sections : List FrameSection) → IsOf rows bytes.old marks.old state.old sections
        → IsSolved (record { rows = rows; bytes = bytes.new; marks = marks.new; state = state.new }) sections }
    ensures mended { (sections : List FrameSection) → IsOf rows bytes.old marks.old state.old sections → result.mended ≡ mended_rows rows (known_byte rows sections) }
    ensures left { (sections : List FrameSection) → IsOf rows bytes.old marks.old state.old sections → result.left ≡ left_rows rows (known_byte rows sections) }
{
    let (work, bad) = work.split_at_mut(64 * rows);
    let counts = solve_rows(bytes, marks, work, bad, state, rows);
    mark_starts(bytes, marks, state, rows);
    counts
}
