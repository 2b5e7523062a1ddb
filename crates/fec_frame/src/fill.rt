//! Bytes and marks of a table, filled.
ghost use Rattle.std.specs.Prelude.{◌≡◌, ◌+◌, ◌-◌, ◌≤◌, length, slice_index, true};
ghost use Rattle.fec_frame.specs.Filled.{AreMarkedKnown, ArePut, IsFilled};
ghost use Rattle.fec_frame.specs.Marks.{is_known_mark, is_start_mark};

/// Answers whether the byte at the place of a mark is known.
pub fn is_known(mark: u8) -> bool
    ensures { result ≡ is_known_mark mark }
{
    mark & 1 != 0
}

/// The mark, with the bit of a known byte.
pub fn with_known(mark: u8) -> u8
    ensures known { is_known_mark result ≡ true }
    ensures start { is_start_mark result ≡ is_start_mark mark }
{
    mark | 1
}

/// The mark, with the bit of a start.
pub fn with_start(mark: u8) -> u8
    ensures start { is_start_mark result ≡ true }
    ensures known { is_known_mark result ≡ is_known_mark mark }
{
    mark | 2
}

/// Puts a piece to a place.
fn put_piece(bytes: &mut [u8], from: usize, piece: &[u8])
    requires within { from + length piece.now ≤ length bytes.old }
    ensures put { ArePut bytes.old bytes.new from (from + length piece.now) (λ place. slice_index piece.now (place - from)) }
{
    bytes[from..from + piece.len()].copy_from_slice(piece);
}

/// Puts zeros from a place on and before another.
fn put_zeros(bytes: &mut [u8], from: usize, to: usize)
    requires order { from ≤ to }
    requires within { to ≤ length bytes.old }
    ensures put { ArePut bytes.old bytes.new from to (λ place. 0) }
{
    bytes[from..to].fill(0);
}

/// Marks the bytes from a place on and before another as known.
fn mark_known(marks: &mut [u8], from: usize, to: usize)
    requires order { from ≤ to }
    requires within { to ≤ length marks.old }
    ensures marked { AreMarkedKnown marks.old marks.new from to }
{
    for place in from..to {
        marks[place] = with_known(marks[place]);
    }
}

/// Fills a piece in, from a place on.
pub fn fill_piece(bytes: &mut [u8], marks: &mut [u8], from: usize, piece: &[u8])
    requires within { from + length piece.now ≤ length bytes.old }
    requires marks_within { from + length piece.now ≤ length marks.old }
    ensures filled { IsFilled bytes.old marks.old bytes.new marks.new from (from + length piece.now) (λ place. slice_index piece.now (place - from)) }
{
    put_piece(bytes, from, piece);
    mark_known(marks, from, from + piece.len());
}

/// Fills zeros in, from a place on and before another.
pub fn fill_zeros(bytes: &mut [u8], marks: &mut [u8], from: usize, to: usize)
    requires order { from ≤ to }
    requires within { to ≤ length bytes.old }
    requires marks_within { to ≤ length marks.old }
    ensures filled { IsFilled bytes.old marks.old bytes.new marks.new from to (λ place. 0) }
{
    put_zeros(bytes, from, to);
    mark_known(marks, from, to);
}
