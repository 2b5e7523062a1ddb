//! Chains of extension headers (RFC 4326 sections 4.4 and 5).
//!
//! A first Type and the bytes after it come in; the EtherType at the end and the bytes after it go out.

ghost use Rattle.std.specs.Prelude.{◌≡◌, ◌≤◌, length, drop, IfOk, IfSome, MatchOption};
ghost use Rattle.std.specs.Result.{result_err};
ghost use Rattle.ts_spec.specs.Chain.{chain_end, ended, cut, is_optional};
ghost use Rattle.ule_extension.specs.Faults.{ext_refusal, mandatory_fault};

/// What stands after a chain of optional headers.
#[derive(Clone, Copy, Debug, PartialEq, Eq)]
pub struct Payload<'a> {
    /// The last Type, from 1536 on (RFC 4326 section 4.4.2).
    pub ether_type: u16,
    /// All bytes after that Type.
    pub bytes: &'a [u8],
}

/// Why a chain leads to no EtherType.
#[derive(Clone, Copy, Debug, PartialEq, Eq)]
pub enum ExtFault {
    /// The bytes do not hold the whole of an optional header.
    Cut,
    /// A mandatory header other than the two below, with its Type, 2 to 255 (RFC 4326 section 5).
    Mandatory(u16),
    /// A Test SNDU, Type 0 (RFC 4326 section 5.1).
    Test,
    /// A bridged Ethernet frame, Type 1 (RFC 4326 section 5.2).
    Bridged,
}

/// The least EtherType (RFC 4326 section 4.4.2).
const LEAST_ETHER_TYPE: u16 = 1536;

/// The least Type of an optional header: H-LEN is 1 (RFC 4326 section 5).
const LEAST_OPTIONAL: u16 = 256;

/// Type of a Test SNDU (RFC 4326 section 5.1).
const TEST: u16 = 0;

/// Type of a bridged frame (RFC 4326 section 5.2).
pub(crate) const BRIDGED: u16 = 1;

/// The Type after all optional headers, and the bytes after it.
#[derive(Clone, Copy)]
pub(crate) struct ChainEnd<'a> {
    pub(crate) last_type: u16,
    pub(crate) bytes: &'a [u8],
}

/// Whether a Type is an optional header's.
fn skips(type_field: u16) -> bool
    ensures optional { result ≡ is_optional type_field }
{
    LEAST_OPTIONAL <= type_field && type_field < LEAST_ETHER_TYPE
}

/// Skips the optional headers. None: the bytes do not hold the whole of one.
pub(crate) fn follow(first_type: u16, bytes: &[u8]) -> Option<ChainEnd<'_>>
    ensures end { MatchOption result (chain_end first_type bytes.now ≡ cut) (λ e. chain_end first_type bytes.now ≡ ended e.last_type e.bytes.now) }
    ensures within { IfSome result (λ e. length e.bytes.now ≤ length bytes.now) }
{
    let mut last_type = first_type;
    let mut at = 0;
    while skips(last_type) {
        let size = usize::from(last_type / 256) * 2;
        if bytes.len() - at < size {
            return None;
        }
        at += size;
        last_type = u16::from(bytes[at - 2]) * 256 + u16::from(bytes[at - 1]);
    }
    Some(ChainEnd {
        last_type,
        bytes: &bytes[at..],
    })
}

/// The fault of a Type that is neither an EtherType nor an optional header's.
fn mandatory(last_type: u16) -> ExtFault
    ensures fault { result ≡ mandatory_fault last_type }
{
    match last_type {
        TEST => ExtFault::Test,
        BRIDGED => ExtFault::Bridged,
        _ => ExtFault::Mandatory(last_type),
    }
}

/// Follows the chain that `first_type` begins; `bytes` are all that stand after that Type.
///
/// Optional headers are skipped, also those of padding (RFC 4326 section 5.3).
pub fn walk(first_type: u16, bytes: &[u8]) -> Result<Payload<'_>, ExtFault>
    ensures read { IfOk result (λ p. chain_end first_type bytes.now ≡ ended p.ether_type p.bytes.now) }
    ensures refused { ext_refusal (chain_end first_type bytes.now) ≡ result_err result }
    ensures within { IfOk result (λ p. length p.bytes.now ≤ length bytes.now) }
{
    match follow(first_type, bytes) {
        None => Err(ExtFault::Cut),
        Some(end) => {
            if end.last_type >= LEAST_ETHER_TYPE {
                Ok(Payload {
                    ether_type: end.last_type,
                    bytes: end.bytes,
                })
            } else {
                Err(mandatory(end.last_type))
            }
        }
    }
}
