//! The padding columns of a frame to send.
ghost use Rattle.std.specs.Prelude.{◌≡◌, ◌*◌, ◌≤◌, ◌<◌};
ghost use Rattle.fec_frame_spec.specs.Sender as sender;

/// padding_columns of a frame of which so many bytes of the application data table are used (EN 301 192 clause 9).
pub fn padding_of(rows: u16, used: usize) -> u8
    requires rows_some { 0 < rows }
    requires some { 1 ≤ used }
    requires most { used ≤ 191 * rows }
    ensures { result ≡ sender.padding_of rows used }
{
    let rows = usize::from(rows);
    let columns = (used + rows - 1) / rows;
    (191 - columns) as u8
}
