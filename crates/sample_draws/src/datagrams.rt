//! What was drawn -> the bytes of a datagram.
ghost use Rattle.std.specs.Prelude.{◌≡◌, ℕ, ◌+◌, ◌%◌, ◌≤◌, ◌++◌, map, length};
ghost use Rattle.std.specs.List.{range_with_len};
ghost use Rattle.sample_spec.specs.Datagrams.{head_of, bytes_after_head};

/// The header without options (RFC 791 section 3.1).
const HEADER: usize = 20;

/// Writes datagram `i` over the whole of `into`: one of UDP to a service, 0 or 1.
///
/// The header has no checksum, and the bytes after it are no UDP header.
pub(crate) fn write_datagram(into: &mut [u8], i: u16, service: u8)
    requires least { 20 ≤ length into.old }
    requires most { length into.old ≤ 1400 }
    requires early { i ≤ 4000 }
    requires service { service ≤ 1 }
    ensures kept { length into.new ≡ length into.old }
    ensures written { into.new ≡ head_of (length into.old) service ++ bytes_after_head i (length into.old) }
{
    let [high, low] = (into.len() as u16).to_be_bytes();
    into[..HEADER].copy_from_slice(&[
        0x45,
        0,
        high,
        low,
        0,
        0,
        0,
        0,
        0x40,
        0x11,
        0,
        0,
        10,
        0,
        0,
        1,
        239,
        service + 1,
        0,
        1,
    ]);
    write_bytes(&mut into[HEADER..], i);
}

/// Writes bytes that count up from `i`, modulo 256.
fn write_bytes(into: &mut [u8], i: u16)
    requires few { length into.old ≤ 1400 }
    requires early { i ≤ 4000 }
    ensures written { into.new ≡ map (λ (j : ℕ). (i + j) % 256) (range_with_len 0 (length into.old)) }
{
    for j in 0..into.len() {
        into[j] = ((usize::from(i) + j) % 256) as u8;
    }
}
