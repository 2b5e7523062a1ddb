//! The tables of CRC-32: what shifts make of a register that has a byte in its highest bits and else zeros.
//!
//! A table and a byte come in, the table's entry goes out. ISO/IEC 13818-1 annex A, many shifts of its register at once.
//! All sixteen stand in one constant, so that a step of sixteen bytes forms one address of tables.

ghost use Rattle.std.specs.Prelude.{◌≡◌, slice_index};

/// The entries of all bytes, from those of the bytes 1, 2, 4 .. 128: the entry of a sum is the sum of the entries.
macro_rules! entries {
    ([$($sum:expr),*]) => {
        [$($sum),*]
    };
    ([$($sum:expr),*] $bit:literal $($bits:literal)*) => {
        entries!([$($sum,)* $($sum ^ $bit),*] $($bits)*)
    };
}

/// Table n has what 8 * (n + 1) shifts make: n zero bytes after the byte.
pub(crate) const TABLES: [[u32; 256]; 16] = [
    entries!(
        [0]
        0x04C11DB7 0x09823B6E 0x130476DC 0x2608EDB8
        0x4C11DB70 0x9823B6E0 0x34867077 0x690CE0EE
    ),
    entries!(
        [0]
        0xD219C1DC 0xA0F29E0F 0x452421A9 0x8A484352
        0x10519B13 0x20A33626 0x41466C4C 0x828CD898
    ),
    entries!(
        [0]
        0x01D8AC87 0x03B1590E 0x0762B21C 0x0EC56438
        0x1D8AC870 0x3B1590E0 0x762B21C0 0xEC564380
    ),
    entries!(
        [0]
        0xDC6D9AB7 0xBC1A28D9 0x7CF54C05 0xF9EA980A
        0xF7142DA3 0xEAE946F1 0xD1139055 0xA6E63D1D
    ),
    entries!(
        [0]
        0x490D678D 0x921ACF1A 0x20F48383 0x41E90706
        0x83D20E0C 0x036501AF 0x06CA035E 0x0D9406BC
    ),
    entries!(
        [0]
        0x1B280D78 0x36501AF0 0x6CA035E0 0xD9406BC0
        0xB641CA37 0x684289D9 0xD08513B2 0xA5CB3AD3
    ),
    entries!(
        [0]
        0x4F576811 0x9EAED022 0x399CBDF3 0x73397BE6
        0xE672F7CC 0xC824F22F 0x9488F9E9 0x2DD0EE65
    ),
    entries!(
        [0]
        0x5BA1DCCA 0xB743B994 0x6A466E9F 0xD48CDD3E
        0xADD8A7CB 0x5F705221 0xBEE0A442 0x79005533
    ),
    entries!(
        [0]
        0xF200AA66 0xE0C0497B 0xC5418F41 0x8E420335
        0x18451BDD 0x308A37BA 0x61146F74 0xC228DEE8
    ),
    entries!(
        [0]
        0x8090A067 0x05E05D79 0x0BC0BAF2 0x178175E4
        0x2F02EBC8 0x5E05D790 0xBC0BAF20 0x7CD643F7
    ),
    entries!(
        [0]
        0xF9AC87EE 0xF798126B 0xEBF13961 0xD3236F75
        0xA287C35D 0x41CE9B0D 0x839D361A 0x03FB7183
    ),
    entries!(
        [0]
        0x07F6E306 0x0FEDC60C 0x1FDB8C18 0x3FB71830
        0x7F6E3060 0xFEDC60C0 0xF979DC37 0xF632A5D9
    ),
    entries!(
        [0]
        0xE8A45605 0xD589B1BD 0xAFD27ECD 0x5B65E02D
        0xB6CBC05A 0x69569D03 0xD2AD3A06 0xA19B69BB
    ),
    entries!(
        [0]
        0x47F7CEC1 0x8FEF9D82 0x1B1E26B3 0x363C4D66
        0x6C789ACC 0xD8F13598 0xB5237687 0x6E87F0B9
    ),
    entries!(
        [0]
        0xDD0FE172 0xBEDEDF53 0x797CA311 0xF2F94622
        0xE13391F3 0xC6A63E51 0x898D6115 0x17DBDF9D
    ),
    entries!(
        [0]
        0x2FB7BF3A 0x5F6F7E74 0xBEDEFCE8 0x797CE467
        0xF2F9C8CE 0xE1328C2B 0xC6A405E1 0x89891675
    ),
];

/// The entry of a byte.
pub(crate) fn entry_of(entries: &[u32; 256], byte: u8) -> u32
    ensures { result ≡ slice_index entries.now byte }
{
    entries[usize::from(byte)]
}
