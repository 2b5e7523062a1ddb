//! The kernels on columns: a multiple added, one step of Horner's rule, and all its steps over some columns.
//!
//! Sixteen bytes a step; the rest, fewer than sixteen, byte by byte. Over some columns four times as many stay in registers.
ghost use Rattle.gf256.specs.Horner.{AreValues};
ghost use Rattle.std.specs.Prelude.{◌*◌, ◌-◌, ◌≡◌, ◌+◌, ◌<◌, ◌≤◌, ℕ, length, slice_index};
ghost use Rattle.std.specs.Simd.Lanes.{chunk, put_chunk, zip2};
ghost use Rattle.fec_spec.specs.Field.{field_product, field_sum};

use crate::element::Gf;
use crate::factor::Factor;
use crate::plain;
use std::simd::prelude::*;

/// How many bytes one step takes.
const LANES: usize = 16;

/// How many bytes of each column are taken together over some columns: those of four registers.
const BLOCK: usize = 64;

/// Adds the multiple of 16 bytes at a place.
fn add_lanes(factor: &Factor, source: &[u8], target: &mut [u8], at: usize)
    requires same { length source.now ≡ length target.old }
    requires room { at + 16 ≤ length source.now }
    ensures { target.new ≡ put_chunk at target.old (zip2 (λ t s. field_sum t (field_product factor.now.value.0 s)) (chunk at 16 target.old) (chunk at 16 source.now)) }
{
    let added = u8x16::from_slice(&source[at..]);
    let sum = u8x16::from_slice(&target[at..]);
    (sum ^ factor.times(added)).copy_to_slice(&mut target[at..]);
}

/// One step of Horner's rule: 16 bytes times the root, plus those of a column at a place.
#[inline(always)]
fn stepped(root: &Factor, value: u8x16, column: &[u8], at: usize) -> u8x16
    requires room { at + 16 ≤ length column.now }
    ensures { result ≡ zip2 (λ t s. field_sum (field_product t root.now.value.0) s) value (chunk at 16 column.now) }
{
    root.times(value) ^ u8x16::from_slice(&column[at..])
}

/// One step of Horner's rule on 16 bytes at a place.
fn step_lanes(root: &Factor, column: &[u8], state: &mut [u8], at: usize)
    requires same { length column.now ≡ length state.old }
    requires room { at + 16 ≤ length column.now }
    ensures { state.new ≡ put_chunk at state.old (zip2 (λ t s. field_sum (field_product t root.now.value.0) s) (chunk at 16 state.old) (chunk at 16 column.now)) }
{
    let value = u8x16::from_slice(&state[at..]);
    stepped(root, value, column, at).copy_to_slice(&mut state[at..]);
}

/// Adds `c` times each byte of `source` to the byte of `target` at its place.
pub fn mul_add(c: Gf, source: &[u8], target: &mut [u8])
    requires { length source.now ≡ length target.old }
    ensures { (i : ℕ) → i < length source.now → slice_index target.new i ≡ field_sum (slice_index target.old i) (field_product c.0 (slice_index source.now i)) }
{
    let factor = Factor::of(c);
    let steps = source.len() / LANES;
    for step in 0..steps {
        add_lanes(&factor, source, target, step * LANES);
    }
    let done = steps * LANES;
    plain::mul_add(c, &source[done..], &mut target[done..]);
}

/// Makes each byte of `state` itself times `root` plus the byte of `column` at its place.
pub fn horner_step(root: Gf, column: &[u8], state: &mut [u8])
    requires { length column.now ≡ length state.old }
    ensures { (i : ℕ) → i < length column.now → slice_index state.new i ≡ field_sum (field_product (slice_index state.old i) root.0) (slice_index column.now i) }
{
    let factor = Factor::of(root);
    let steps = column.len() / LANES;
    for step in 0..steps {
        step_lanes(&factor, column, state, step * LANES);
    }
    let done = steps * LANES;
    plain::horner_step(root, &column[done..], &mut state[done..]);
}

/// The values of 64 bytes of each column, from the place `at` on, where those before it are found.
fn find_block(
    root: &Factor,
    source: &[u8],
    first: usize,
    stride: usize,
    count: usize,
    target: &mut [u8],
    at: usize,
)
    requires some { 0 < count }
    requires room { at + 64 ≤ length target.old }
    requires source_room { (q : ℕ) → q < count → first + at + q * stride + 64 ≤ length source.now }
    ensures { AreValues root.now.value.0 first stride count source.now at target.old → AreValues root.now.value.0 first stride count source.now (at + 64) target.new }
{
    let start = first + at;
    let mut a = u8x16::from_slice(&source[start..]);
    let mut b = u8x16::from_slice(&source[start + 16..]);
    let mut c = u8x16::from_slice(&source[start + 32..]);
    let mut d = u8x16::from_slice(&source[start + 48..]);
    for step in 1..count {
        let from = start + step * stride;
        a = stepped(root, a, source, from);
        b = stepped(root, b, source, from + 16);
        c = stepped(root, c, source, from + 32);
        d = stepped(root, d, source, from + 48);
    }
    a.copy_to_slice(&mut target[at..]);
    b.copy_to_slice(&mut target[at + 16..]);
    c.copy_to_slice(&mut target[at + 32..]);
    d.copy_to_slice(&mut target[at + 48..]);
}

/// The values of the bytes after the last block: one column after another.
fn find_rest(root: Gf, source: &[u8], first: usize, stride: usize, count: usize, target: &mut [u8])
    requires some { 0 < count }
    requires source_room { (q : ℕ) → q < count → first + q * stride + length target.old ≤ length source.now }
    ensures { AreValues root.0 first stride count source.now (length target.old) target.new }
{
    target.copy_from_slice(&source[first..first + target.len()]);
    for step in 1..count {
        let from = first + step * stride;
        horner_step(root, &source[from..from + target.len()], target);
    }
}

/// Finds the values at `root` of `count` columns of `source`, the highest coefficients' first: one begins at `first`, and each other one
/// `stride` bytes after the last.
pub fn horner_columns(
    root: Gf,
    source: &[u8],
    first: usize,
    stride: usize,
    count: usize,
    target: &mut [u8],
)
    requires some { 0 < count }
    requires room { first + (count - 1) * stride + length target.old ≤ length source.now }
    ensures { AreValues root.0 first stride count source.now (length target.old) target.new }
{
    let factor = Factor::of(root);
    let blocks = target.len() / BLOCK;
    for block in 0..blocks {
        find_block(&factor, source, first, stride, count, target, block * BLOCK);
    }
    let done = blocks * BLOCK;
    if done < target.len() {
        find_rest(
            root,
            source,
            first + done,
            stride,
            count,
            &mut target[done..],
        );
    }
}
