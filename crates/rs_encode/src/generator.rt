//! The generator polynomial, whose roots are the powers 0 to 63 of 2 (EN 301 192 clause 9).

/// Parity bytes of a row: the degree of the generator.
pub(crate) const PARITY: usize = 64;

/// Its coefficients from that of x^63 to the constant; that of x^64 is 1.
pub(crate) const GENERATOR: [u8; PARITY] = [
    193, 10, 255, 58, 128, 183, 115, 140, 153, 147, 91, 197, 219, 221, 220, 142, 28, 120, 21, 164,
    147, 6, 204, 40, 230, 182, 14, 121, 48, 143, 77, 228, 81, 85, 43, 162, 16, 195, 163, 35, 149,
    154, 35, 132, 100, 100, 51, 176, 11, 161, 134, 208, 132, 244, 176, 192, 221, 232, 171, 125,
    155, 228, 242, 245,
];
