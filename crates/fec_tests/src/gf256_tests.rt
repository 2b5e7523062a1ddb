//! Sums, products, inverses and powers by hand; products bit by bit, and the kernels element by element.
ghost use Rattle.std.specs.Prelude.{◌≡◌, ◌≤◌, length};

use gf256::{Gf, horner_columns, horner_step, mul_add};

/// Exponents, and those powers of x by hand: x^8 is x^4+x^3+x^2+1, x^12 is x^7+x^6+x^3+x^2+1, x^25 is x+1, and x times
/// x^7+x^3+x^2+x is 1.
const POWERS: [(u32, u8); 7] = [
    (0, 0x01),
    (7, 0x80),
    (8, 0x1D),
    (12, 0xCD),
    (25, 0x03),
    (254, 0x8E),
    (255, 0x01),
];

#[test]
fn powers_are_those_by_hand(rt: HostRuntime) {
    for (exponent, want) in POWERS {
        assert!(rt; Gf(0x02).power(exponent).0 == want, "at {exponent}");
    }
}

#[test]
fn sums_products_and_inverses_are_those_by_hand(rt: HostRuntime) {
    assert!(rt; Gf(0x53).add(Gf(0xCA)).0 == 0x99);
    assert!(rt; Gf(0x80).mul(Gf(0x02)).0 == 0x1D);
    assert!(rt; Gf(0x02).inverse().0 == 0x8E && Gf(0x01).inverse().0 == 0x01);
}

/// x times the element: x^8 is x^4+x^3+x^2+1 (EN 301 192 clause 9).
fn doubled(value: u8) -> u8 {
    if value < 0x80 {
        value << 1
    } else {
        (value << 1) ^ 0x1D
    }
}

/// The product, bit by bit.
fn product_of(one: u8, other: u8) -> u8 {
    let mut sum = 0u8;
    let mut shifted = other;
    for place in 0..8u32 {
        if (one >> place) & 1 == 1 {
            sum ^= shifted;
        }
        shifted = doubled(shifted);
    }
    sum
}

/// By halves and bit by bit: all pairs of elements.
#[test]
fn products_are_those_bit_by_bit(rt: HostRuntime) {
    for one in 0..=255u8 {
        for other in 0..=255u8 {
            assert!(rt; Gf(one).mul(Gf(other)).0 == product_of(one, other));
        }
    }
}

/// Place i has i times `factor` modulo 256.
fn column(factor: usize) -> [u8; 1024] {
    let mut bytes = [0; 1024];
    for i in 0..1024usize {
        bytes[i] = (i % 256 * (factor % 256) % 256) as u8;
    }
    bytes
}

/// What `mul_add` does, element by element.
fn add_each(c: Gf, source: &[u8], target: &mut [u8])
    requires { length source.now ≡ length target.old }
{
    for i in 0..source.len() {
        target[i] = Gf(target[i]).add(c.mul(Gf(source[i]))).0;
    }
}

/// What `horner_step` does, element by element.
fn step_each(root: Gf, column: &[u8], state: &mut [u8])
    requires { length column.now ≡ length state.old }
    ensures { length state.new ≡ length state.old }
{
    for i in 0..column.len() {
        state[i] = Gf(state[i]).mul(root).add(Gf(column[i])).0;
    }
}

/// Whether `mul_add` gives at the first `length` places what elements give.
fn adds_a_multiple(c: Gf, length: usize) -> bool
    requires { length ≤ 1024 }
{
    let other = column(7);
    let mut fast = column(11);
    let mut plain = column(11);
    mul_add(c, &other[..length], &mut fast[..length]);
    add_each(c, &other[..length], &mut plain[..length]);
    fast.as_slice() == plain.as_slice()
}

/// Whether `horner_step` gives at the first `length` places what elements give.
fn takes_a_step(root: Gf, length: usize) -> bool
    requires { length ≤ 1024 }
{
    let other = column(7);
    let mut fast = column(11);
    let mut plain = column(11);
    horner_step(root, &other[..length], &mut fast[..length]);
    step_each(root, &other[..length], &mut plain[..length]);
    fast.as_slice() == plain.as_slice()
}

/// Sixteen bytes a step and one by one, with nothing, 1 and 15 bytes after the last whole step.
#[test]
fn kernels_give_what_each_element_gives(rt: HostRuntime) {
    for length in [0usize, 1, 31, 32, 33, 1024] {
        for c in [0u8, 1, 2, 29, 142, 255] {
            assert!(rt; adds_a_multiple(Gf(c), length), "mul_add at {length}");
            assert!(rt; takes_a_step(Gf(c), length), "horner_step at {length}");
        }
    }
}

/// By hand: 2 times 0x80 is 0x1D, and 1 more is 0x1C, at each place of a whole step and after it.
#[test]
fn each_place_is_reached(rt: HostRuntime) {
    let mut target = [1u8; 18];
    mul_add(Gf(2), &[0x80; 18], &mut target);
    assert_eq!(rt; target, [0x1C; 18]);
    let mut state = [0x80u8; 18];
    horner_step(Gf(2), &[1; 18], &mut state);
    assert_eq!(rt; state, [0x1C; 18]);
}

/// By hand: 2 times 0x80, and 1 more, at each place of a whole block of columns and after it.
#[test]
fn each_place_of_columns_is_reached(rt: HostRuntime) {
    let mut source = [0x80u8; 160];
    source[80..].fill(1);
    let mut values = [0u8; 66];
    horner_columns(Gf(2), &source, 3, 80, 2, &mut values);
    assert_eq!(rt; values, [0x1C; 66]);
}

/// Whether `horner_columns` gives at the first `length` places what three steps give.
fn finds_the_values(length: usize) -> bool
    requires { length ≤ 201 }
{
    let source = column(7);
    let mut fast = column(11);
    let mut plain = column(0);
    horner_columns(Gf(29), &source, 5, 201, 3, &mut fast[..length]);
    for at in [5usize, 206, 407] {
        step_each(Gf(29), &source[at..at + length], &mut plain[..length]);
    }
    fast[..length] == plain[..length]
}

/// Blocks of 64 bytes and one by one: three columns, with nothing, 1 and 63 bytes after the last whole block.
#[test]
fn values_of_columns_are_those_of_the_steps(rt: HostRuntime) {
    for length in [0usize, 1, 63, 64, 65, 191] {
        assert!(rt; finds_the_values(length), "{length} bytes of each column");
    }
}
