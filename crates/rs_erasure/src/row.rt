//! One row: its unknown places are filled, and the filled row is tested and goes out where it is a codeword.

ghost use Rattle.fec_spec.specs.Codeword.{IsCodeword};
ghost use Rattle.fec_spec.specs.Row.{Agrees, HasCodeword, IsCorrectable, IsCorrected, is_among};
ghost use Rattle.std.specs.List.{All};
ghost use Rattle.std.specs.List.Sorted.{IsStrictlyIncreasing};
ghost use Rattle.std.specs.Prelude.{◌<◌, ◌≡◌, ◌≢◌, ◌≤◌, ◌↔◌, ℕ, if◌then◌else◌, length, slice_index};

use crate::syndromes::{has_zeros, syndromes_of};
use crate::weights::filled;
use arrayvec::ArrayVec;

/// What became of a row.
#[derive(Clone, Copy, PartialEq, Eq)]
pub enum RowAnswer {
    /// The row is the codeword that agrees.
    Done,
    /// More than 64 places are unknown.
    TooMany,
    /// No codeword agrees with the known places.
    Inconsistent,
}

/// A row with 0 at its unknown places.
pub fn cleared(row: &[u8; 255], unknown: &[u8]) -> [u8; 255]
    requires { All (λ p. p < 255) unknown.now }
    ensures bytes { (i : ℕ) → i < 255 → slice_index result i ≡ (if is_among i unknown.now then 0 else slice_index row.now i) }
    ensures long { length result ≡ 255 }
{
    let mut clear = *row;
    for place in unknown {
        clear[usize::from(*place)] = 0;
    }
    clear
}

/// Fills the unknown places of a row by the one codeword that agrees with the others (EN 301 192 clause 9).
///
/// The places rise, each 0 to 254: each is listed once, so that their number is that of the unknown bytes.
pub fn decode_row(row: &mut [u8; 255], unknown: &ArrayVec<u8, 255>) -> RowAnswer
    requires rising { IsStrictlyIncreasing unknown.now.items }
    requires low { All (λ p. p < 255) unknown.now.items }
    ensures too_many { result ≡ RowAnswer.TooMany ↔ (64 < length unknown.now.items) }
    ensures done { result ≡ RowAnswer.Done → IsCodeword row.new × Agrees unknown.now.items row.old row.new }
    ensures inconsistent { result ≡ RowAnswer.Inconsistent ↔ ((length unknown.now.items ≤ 64) × (HasCodeword unknown.now.items row.old → ⊥)) }
    ensures only { result ≡ RowAnswer.Done ↔ IsCorrectable unknown.now.items row.old }
    ensures corrected { IsCorrected unknown.now.items row.old row.new }
    ensures unchanged { result ≢ RowAnswer.Done → row.new ≡ row.old }
{
    if unknown.len() > 64 {
        return RowAnswer::TooMany;
    }
    let clear = cleared(row, unknown.as_slice());
    let syndromes = syndromes_of(&clear);
    let full = filled(&clear, &syndromes, unknown.as_slice());
    if has_zeros(&full) {
        *row = full;
        RowAnswer::Done
    } else {
        RowAnswer::Inconsistent
    }
}
