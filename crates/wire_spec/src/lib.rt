//! Definitions that every layer cites: bytes and lists, content and causes, check sums, IP datagrams.
//!
//! Words for contracts, and no code but examples of them.
//! Standards: ISO/IEC 13818-1 annex A and EN 302 307-1 (check sums), RFC 791 and RFC 8200 (datagrams).
#![tactic(auto)]

ghost use Rattle.std.specs.Prelude.{◌≡◌, [], ◌∷◌, ◌++◌, Some, None};
ghost use Rattle.wire_spec.specs.Bytes.{AreBytes};
ghost use Rattle.wire_spec.specs.Lists.{IsSubsequence};
ghost use Rattle.wire_spec.specs.Causes.{HasCause};
ghost use Rattle.wire_spec.specs.Content.{Stays};
ghost use Rattle.wire_spec.specs.Crc.{crc32_remainder, crc8_remainder};
ghost use Rattle.wire_spec.specs.Datagram.{front_length};
ghost use Rattle.wire_spec.specs.Examples.{small_ipv4, small_ipv6, jumbogram};

/// The check values of both polynomials, over the bytes of `123456789` and over no byte.
pub fn check_values()
    ensures long { crc32_remainder 0xFFFF_FFFF (49 ∷ 50 ∷ 51 ∷ 52 ∷ 53 ∷ 54 ∷ 55 ∷ 56 ∷ 57 ∷ []) ≡ 0x0376_E6E7 }
    ensures short { crc8_remainder (49 ∷ 50 ∷ 51 ∷ 52 ∷ 53 ∷ 54 ∷ 55 ∷ 56 ∷ 57 ∷ []) ≡ 0xBC }
    ensures long_of_none { crc32_remainder 0xFFFF_FFFF [] ≡ 0xFFFF_FFFF }
    ensures short_of_none { crc8_remainder [] ≡ 0 }
{}

/// A header alone is the shortest datagram; with its hop-by-hop header and Payload Length 0 it is a jumbogram.
pub fn front_examples()
    ensures ipv4 { front_length (small_ipv4 ++ 0xFF ∷ []) ≡ Some 20 }
    ensures ipv6 { front_length small_ipv6 ≡ Some 40 }
    ensures jumbo { front_length jumbogram ≡ None }
    ensures none { front_length [] ≡ None }
{}
