//! What is counted on a PID with frames beside its packets: units that are no section of a frame, frames and their rows.
ghost use Rattle.std.specs.Prelude.{◌≡◌};
ghost use Rattle.wire_spec.specs.Causes.{raised};
ghost use Rattle.service_reception.specs.Counting.{on_pid, of_frames};
ghost use Rattle.fec_reception.specs.Counting.{counted_frame};

use fec_frame::RowCounts;
use service_counts::ServiceCounts;

/// Counts a unit that is no section of a frame, or whose datagram passes the application data table.
pub(crate) fn count_unread(counts: &mut ServiceCounts)
    ensures packets { on_pid counts.new ≡ on_pid counts.old }
    ensures unread { counts.new.unread ≡ raised counts.old.unread 1 }
    ensures filtered { counts.new.filtered ≡ counts.old.filtered }
    ensures frames { of_frames counts.new ≡ of_frames counts.old }
{
    counts.unread = counts.unread.saturating_add(1);
}

/// Counts a frame that is closed: its rows, and its datagrams.
pub(crate) fn count_frame(counts: &mut ServiceCounts, rows: RowCounts, datagrams: u64)
    ensures packets { on_pid counts.new ≡ on_pid counts.old }
    ensures unread { counts.new.unread ≡ counts.old.unread }
    ensures filtered { counts.new.filtered ≡ counts.old.filtered }
    ensures frames { of_frames counts.new ≡ counted_frame (of_frames counts.old) rows.mended rows.left datagrams }
{
    counts.frames = counts.frames.saturating_add(1);
    counts.rows_mended = counts.rows_mended.saturating_add(u64::from(rows.mended));
    counts.rows_left = counts.rows_left.saturating_add(u64::from(rows.left));
    counts.datagrams = counts.datagrams.saturating_add(datagrams);
}
