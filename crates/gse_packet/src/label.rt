//! A label's type and bytes.
ghost use Rattle.std.specs.Prelude.{◌≡◌, ◌≤◌};
ghost use Rattle.gse_spec.specs.Written.{label_bytes, type_of_label};

use crate::fields::{BROADCAST, SIX, THREE};
use addr_rules::Label;

/// LT of a label that stands in the packet: 0 has 6 bytes, 1 has 3, 2 none.
pub(crate) fn type_of(label: &Label) -> u16
    ensures read { result ≡ type_of_label label.now }
    ensures most { result ≤ 2 }
{
    match label {
        Label::Six(_) => u16::from(SIX),
        Label::Three(_) => u16::from(THREE),
        Label::Broadcast => u16::from(BROADCAST),
    }
}

/// The bytes of a label.
pub(crate) fn bytes_of(label: &Label) -> &[u8]
    ensures read { result.now ≡ label_bytes label.now }
{
    match label {
        Label::Six(bytes) => bytes,
        Label::Three(bytes) => bytes,
        Label::Broadcast => &[],
    }
}
