//! The first bytes of what may be a datagram -> what they tell of its length.
ghost use Rattle.std.specs.Prelude.{◌≡◌, ℕ, ◌/◌, ◌<◌, length, slice_index};
ghost use Rattle.ip_datagram.specs.Hint.{hint_of, ipv4_hint, ipv6_hint};

use crate::header::{IPV6_HEADER, LEAST_IPV4};

/// What the first bytes tell of the datagram that begins with them.
#[derive(Clone, Copy, Debug, PartialEq, Eq)]
pub enum Hint {
    /// Too few bytes to tell: none, fewer than 4 of IPv4, or fewer than 7 of IPv6.
    More,
    /// Version 0, as padding has it.
    Padding,
    /// A datagram that begins so has this length in bytes.
    Length(usize),
    /// No datagram begins so.
    Bad,
}

/// Answers what `prefix` tells of the length of the datagram that begins with it.
///
/// Any answer but `More` is the answer for each longer prefix too.
pub fn length_hint(prefix: &[u8]) -> Hint
    ensures read { result ≡ hint_of prefix.now }
{
    if prefix.is_empty() {
        return Hint::More;
    }
    match prefix[0] / 16 {
        0 => Hint::Padding,
        4 => hint_ipv4(prefix),
        6 => hint_ipv6(prefix),
        _ => Hint::Bad,
    }
}

/// IPv4: IHL and Total Length stand in the first 4 bytes.
fn hint_ipv4(prefix: &[u8]) -> Hint
    ensures { result ≡ ipv4_hint prefix.now }
{
    if prefix.len() < 4 {
        return Hint::More;
    }
    let header = 4 * usize::from(prefix[0] % 16);
    let total = usize::from(prefix[2]) * 256 + usize::from(prefix[3]);
    if header < LEAST_IPV4 || total < header {
        Hint::Bad
    } else {
        Hint::Length(total)
    }
}

/// IPv6: Payload Length and Next Header stand in the first 7 bytes.
fn hint_ipv6(prefix: &[u8]) -> Hint
    ensures { result ≡ ipv6_hint prefix.now }
{
    if prefix.len() < 7 {
        return Hint::More;
    }
    let payload = usize::from(prefix[4]) * 256 + usize::from(prefix[5]);
    if payload == 0 && prefix[6] == 0 {
        Hint::Bad
    } else {
        Hint::Length(IPV6_HEADER + payload)
    }
}
