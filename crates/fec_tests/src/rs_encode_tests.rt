//! Parity from outside, and the two encoders side by side.
ghost use Rattle.std.specs.Prelude.{◌≡◌, length};

use crate::frame_encoding::encode_frame;
use rs_encode::encode_row;

/// The generator's own coefficients: a row whose one byte is the last data byte, 1.
#[test]
fn the_last_data_byte_gives_the_generator(rt: HostRuntime) {
    let mut given = [0u8; 191];
    let mut parity = [0u8; 64];
    given[190] = 1;
    encode_row(&given, &mut parity);
    assert!(rt; parity[0] == 0xC1 && parity[63] == 0xF5);
}

/// The parity of one row of a table of 256 rows.
fn parity_of(table: &[u8; 48896], row: u8) -> [u8; 64] {
    let mut given = [0u8; 191];
    let mut parity = [0u8; 64];
    for column in 0..191usize {
        given[column] = table[column * 256 + usize::from(row)];
    }
    encode_row(&given, &mut parity);
    parity
}

/// The bytes of one row of a parity table of 256 rows.
fn row_of(parity: &[u8], row: u8) -> [u8; 64]
    requires { length parity.now ≡ 16384 }
{
    let mut bytes = [0u8; 64];
    for column in 0..64usize {
        bytes[column] = parity[column * 256 + usize::from(row)];
    }
    bytes
}

/// The table whose byte at place n is n times the factor, modulo 251.
fn table_of(factor: u8) -> [u8; 48896] {
    let mut table = [0u8; 48896];
    for place in 0..48896usize {
        table[place] = (place * usize::from(factor) % 251) as u8;
    }
    table
}

/// 256 rows: each has the parity that division gives it, and a second frame in the same buffer too.
#[test]
fn columns_give_the_parity_of_each_row(rt: HostRuntime) {
    let mut buffer = [0u8; 16384];
    for factor in 1..3u8 {
        let table = table_of(factor);
        let parity = encode_frame(256, &table, &mut buffer);
        for row in 0..=255u8 {
            assert!(rt; row_of(parity, row) == parity_of(&table, row), "row {row}");
        }
    }
}
