//! real_time_parameters (EN 301 192 clause 9), the four bytes 8 to 11 of both kinds of section.
//!
//! Reading: a body comes in, and the parameters go out. Writing: the parameters come in, and their number goes out.

ghost use Rattle.std.specs.Prelude.{◌≡◌};
ghost use Rattle.wire_spec.specs.Bytes.{u32_at};
ghost use Rattle.section_spec.specs.Mpe.{IsRealTime, real_time_of, real_time_number};
ghost use Rattle.mpe_section.specs.Views.{real_time_in};

use crate::body::{REAL_TIME, byte_at};

/// real_time_parameters: when the next burst comes, what ends with this section, and where its bytes belong.
#[derive(Clone, Copy, Debug, PartialEq, Eq)]
pub struct RealTime {
    /// delta_t: below 4,096. With time slicing, tens of milliseconds from this section to the next burst, 0 for none.
    pub delta: u16,
    /// The last section of the frame's data table, or of its RS data.
    pub table_boundary: bool,
    /// The last section of the frame.
    pub frame_boundary: bool,
    /// The byte of the table at which the datagram or the column begins: below 262,144.
    pub address: u32,
}

/// delta_t stands above 20 bits.
const DELTA_UNIT: u32 = 0x10_0000;

/// table_boundary stands above 19 bits.
const TABLE_UNIT: u32 = 0x8_0000;

/// frame_boundary stands above 18 bits.
const FRAME_UNIT: u32 = 0x4_0000;

/// The parameters in a body.
pub(crate) fn parameters_of(body: &[u8]) -> RealTime
    ensures read { real_time_in result ≡ real_time_of (u32_at body.now 5) }
{
    of_number(u32::from_be_bytes([
        byte_at(body, REAL_TIME),
        byte_at(body, REAL_TIME + 1),
        byte_at(body, REAL_TIME + 2),
        byte_at(body, REAL_TIME + 3),
    ]))
}

/// The parameters in the number that their four bytes are.
fn of_number(number: u32) -> RealTime
    ensures read { real_time_in result ≡ real_time_of number }
{
    RealTime {
        delta: (number / DELTA_UNIT) as u16,
        table_boundary: number / TABLE_UNIT % 2 == 1,
        frame_boundary: number / FRAME_UNIT % 2 == 1,
        address: number % FRAME_UNIT,
    }
}

/// The number that the four bytes of parameters are.
pub(crate) fn number_of(parameters: RealTime) -> u32
    requires { IsRealTime (real_time_in parameters) }
    ensures written { result ≡ real_time_number (real_time_in parameters) }
{
    let table = if parameters.table_boundary {
        TABLE_UNIT
    } else {
        0
    };
    let frame = if parameters.frame_boundary {
        FRAME_UNIT
    } else {
        0
    };
    u32::from(parameters.delta) * DELTA_UNIT + table + frame + parameters.address
}
