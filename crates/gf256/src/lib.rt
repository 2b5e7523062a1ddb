//! The field of 256 elements, over which MPE-FEC works (EN 301 192 clause 9), and three kernels on columns of bytes.
//!
//! Bytes come in, sums and products go out; nothing is allocated.
//! Used by rs_encode and rs_erasure, sending and receiving.
//! Begin with `Gf`; `mul_add` and `horner_step` do a whole column at once, `horner_columns` all steps over some columns.
#![tactic(auto)]

mod element;
mod factor;
mod halves;
mod kernels;
mod plain;

pub use element::Gf;
pub use kernels::{horner_columns, horner_step, mul_add};
