//! A caller of `Columns`: a frame's data table comes in, its parity table goes out. For tests alone.
ghost use Rattle.std.specs.Prelude.{◌*◌, ◌++◌, ◌<◌, ◌≡◌, ℕ, length};
ghost use Rattle.fec_spec.specs.Codeword.{IsCodeword};
ghost use Rattle.fec_spec.specs.Table.{table_row};

use rs_encode::Columns;

/// The parity table of a frame whose data table is `table`, in a buffer that may be used again after it.
pub(crate) fn encode_frame<'a>(rows: usize, table: &[u8], buffer: &'a mut [u8]) -> &'a [u8]
    requires given { length table.now ≡ 191 * rows }
    requires room { length buffer.old ≡ 64 * rows }
    ensures written { (r : ℕ) → r < rows → IsCodeword (table_row 255 rows (table.now ++ result.now) r) }
    ensures long { length result.now ≡ 64 * rows }
{
    let mut columns = Columns::over(rows, buffer);
    for column in 0..191usize {
        let start = column * rows;
        columns.push(&table[start..start + rows]);
    }
    columns.finish()
}
