//! `ule:PID` or `gse:ISI` -> what carries Ethernet frames.
ghost use Rattle.std.specs.Prelude.{IfSome, IfNone};
ghost use Rattle.command_words.specs.Words.{IsCarrierText};

use crate::numbers::{isi_in, pid_in};

/// What carries Ethernet frames.
#[derive(Clone, Copy)]
pub enum Carrier {
    /// SNDUs on this PID of a transport stream.
    Ule(u16),
    /// GSE packets of this ISI in baseband frames.
    Gse(u8),
}

/// The carrier that `ule:` and a PID, or `gse:` and an ISI, write.
pub(crate) fn carrier_in(text: &str) -> Option<Carrier>
    ensures read { IfSome result (λ carrier. IsCarrierText text.now carrier) }
    ensures refused { IfNone result ((carrier : Carrier) → IsCarrierText text.now carrier → ⊥) }
{
    if let Some(pid) = text.strip_prefix("ule:") {
        return Some(Carrier::Ule(pid_in(pid)?));
    }
    let isi = text.strip_prefix("gse:")?;
    Some(Carrier::Gse(isi_in(isi)?))
}
