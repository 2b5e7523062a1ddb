//! The kernels byte by byte: those by lanes end with them, where fewer bytes than lanes are left.
ghost use Rattle.std.specs.Prelude.{◌≡◌, ◌<◌, ℕ, length, slice_index};
ghost use Rattle.fec_spec.specs.Field.{field_product, field_sum};

use crate::element::Gf;

/// Adds `c` times each byte of `source` to the byte of `target` at its place.
pub(crate) fn mul_add(c: Gf, source: &[u8], target: &mut [u8])
    requires { length source.now ≡ length target.old }
    ensures { (i : ℕ) → i < length source.now → slice_index target.new i ≡ field_sum (slice_index target.old i) (field_product c.0 (slice_index source.now i)) }
{
    for i in 0..source.len() {
        target[i] = Gf(target[i]).add(c.mul(Gf(source[i]))).0;
    }
}

/// Makes each byte of `state` itself times `root` plus the byte of `column` at its place.
pub(crate) fn horner_step(root: Gf, column: &[u8], state: &mut [u8])
    requires { length column.now ≡ length state.old }
    ensures { (i : ℕ) → i < length column.now → slice_index state.new i ≡ field_sum (field_product (slice_index state.old i) root.0) (slice_index column.now i) }
{
    for i in 0..column.len() {
        state[i] = Gf(state[i]).mul(root).add(Gf(column[i])).0;
    }
}
