//! MPE-FEC sections (EN 301 192 clause 9): a column of RS data, and where it belongs.
//!
//! Reading: a section comes in, and its fields go out, or why it carries no column.
//! Writing: the fields come in, and the section goes into the caller's bytes.

ghost use Rattle.std.specs.Prelude.{◌≡◌, ◌≤◌, ◌+◌, ◌++◌, Some, None, length, drop, IfOk, OnErr};
ghost use Rattle.std.specs.Result.{result_err};
ghost use Rattle.section_codec.specs.Views.{fields_in};
ghost use Rattle.section_spec.specs.Mpe.{FecFields, IsWritableFec, fec_bytes, fec_of};
ghost use Rattle.mpe_section.specs.Views.{fec_in};
ghost use Rattle.mpe_section.specs.Refusals.{fec_refusal};

use crate::body::{HEAD, LAST, NUMBER, PADDING, TOP, byte_at, current_next_indicator};
use crate::real_time::{RealTime, number_of, parameters_of};
use section_codec::{SectionRef, size, write_in_two};

/// An MPE-FEC section.
#[derive(Clone, Copy, Debug, PartialEq, Eq)]
pub struct Fec<'a> {
    /// padding_columns: data columns at the end of the table that are zeros and were not sent; 0 to 190.
    pub padding: u8,
    /// section_number: the place of this column among those of RS data, from 0.
    pub number: u8,
    /// last_section_number: the place of the last column that is sent, 63 at most.
    pub last: u8,
    /// real_time_parameters.
    pub real_time: RealTime,
    /// One column: a byte for each row of the frame.
    pub column: &'a [u8],
}

/// Why a section carries no column, in the order of the tests.
#[derive(Clone, Copy, Debug, PartialEq, Eq)]
pub enum FecFault {
    /// table_id is not 0x78.
    Table = 1,
    /// current_next_indicator is 0.
    Next = 2,
    /// padding_columns is above 190.
    Padding = 3,
    /// section_number is above last_section_number, or this is above 63.
    Number = 4,
    /// The bytes from byte 12 on are not one for each row, or the section ends before byte 12.
    Rows = 5,
}

/// table_id of an MPE-FEC section.
const TABLE_ID: u8 = 0x78;

/// The most padding columns: of 191 data columns at least one has data.
const MOST_PADDING: u8 = 190;

/// The place of the last of 64 columns of RS data.
const MOST_LAST: u8 = 63;

/// Eight reserved bits; and seven beside current_next_indicator 1.
const RESERVED: u8 = 0xFF;

/// Reads an MPE-FEC section of a frame with so many rows.
///
/// `column` is lent out of the section, from its byte 12 on. Reserved bits and the address are not tested.
pub fn read_fec<'a>(section: &SectionRef<'a>, rows: u16) -> Result<Fec<'a>, FecFault>
    ensures read { IfOk result (λ f. fec_of rows (fields_in section.now) ≡ Some (fec_in f)) }
    ensures only { OnErr result (fec_of rows (fields_in section.now) ≡ None) }
    ensures refused { fec_refusal rows (fields_in section.now) ≡ result_err result }
    ensures within { IfOk result (λ f. length f.column.now ≡ rows) }
{
    let body = section.body;
    let number = byte_at(body, NUMBER);
    let last = byte_at(body, LAST);
    if section.table_id != TABLE_ID {
        return Err(FecFault::Table);
    }
    if !current_next_indicator(body) {
        return Err(FecFault::Next);
    }
    if byte_at(body, PADDING) > MOST_PADDING {
        return Err(FecFault::Padding);
    }
    if number > last || last > MOST_LAST {
        return Err(FecFault::Number);
    }
    if body.len() != HEAD + usize::from(rows) {
        return Err(FecFault::Rows);
    }
    Ok(Fec {
        padding: body[PADDING],
        number,
        last,
        real_time: parameters_of(body),
        column: &body[HEAD..],
    })
}

/// Writes the MPE-FEC section of these fields to the front of `into`; answers its length.
///
/// The column has 256, 512, 768 or 1,024 bytes, and the address is `number` times as many. What stands after in `into` stays.
pub fn write_fec(fec: &Fec<'_>, into: &mut [u8]) -> usize
    requires writable { IsWritableFec (fec_in fec.now) }
    requires room { length fec.now.column.now + 16 ≤ length into.old }
    ensures size { result ≡ length (fec_bytes (fec_in fec.now)) }
    ensures written { into.new ≡ fec_bytes (fec_in fec.now) ++ drop result into.old }
{
    let time = number_of(fec.real_time).to_be_bytes();
    let head = [
        fec.padding,
        RESERVED,
        RESERVED,
        fec.number,
        fec.last,
        time[0],
        time[1],
        time[2],
        time[3],
    ];
    write_in_two(TABLE_ID, TOP, &head, fec.column, into)
}

/// Bytes of the MPE-FEC section of a column of so many bytes, 4,080 at most: those that `write_fec` writes.
pub fn fec_size(column: usize) -> usize
    requires { column ≤ 4080 }
    ensures size { (fec : FecFields) → length fec.column ≡ column → result ≡ length (fec_bytes fec) }
    ensures sum { result ≡ column + 16 }
{
    size(HEAD + column)
}
