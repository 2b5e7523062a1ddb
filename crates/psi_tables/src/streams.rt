//! The streams of a PMT's body, and the descriptors of the program and of each stream.
ghost use Rattle.std.specs.Prelude.{◌≡◌, ◌≤◌, ◌+◌, true, drop, length, find, option_map, slice_index, nat_le};
ghost use Rattle.std.specs.List.{list_all};
ghost use Rattle.psi_spec.specs.Pmt.{descriptors_in, is_right as descriptor_is_right, are_right as all_are_right, is_identifier, is_stream, stream_pieces, stream_info, streams_part, program_info, info_size, has_loops as body_has_loops, has_descriptors as body_has_descriptors, has_right_info, stream_of as stream_in, tag_of as tag_in};
ghost use Rattle.int_table.specs.Pieces.{pieces_of};
ghost use Rattle.psi_tables.specs.Views.{stream_seen};

use crate::pat::PIDS;
use crate::pmt::Stream;
use crate::psi::u16_in;
use int_table::{Kind, Pieces};

/// Bytes of a body before its descriptors.
pub(crate) const HEAD: usize = 9;

/// Bytes of a stream before its descriptors.
const STREAM_HEAD: usize = 5;

/// stream_identifier_descriptor (EN 300 468 clause 6.2.39).
pub(crate) const STREAM_IDENTIFIER: u8 = 0x52;

/// The bytes after the first so many, where there are some.
fn rest_from(bytes: &[u8], count: usize) -> &[u8]
    ensures { result.now ≡ drop count bytes.now }
{
    if count < bytes.len() {
        &bytes[count..]
    } else {
        &bytes[bytes.len()..]
    }
}

/// The descriptors one after another in some bytes.
fn descriptors(bytes: &[u8]) -> Pieces<'_>
    ensures { pieces_of result.kind result.rest.now ≡ descriptors_in bytes.now }
{
    Pieces {
        kind: Kind::Descriptor,
        rest: bytes,
    }
}

/// Whether a descriptor is whole, and has one byte where it is a stream_identifier_descriptor.
fn is_right(descriptor: &[u8]) -> bool
    ensures { result ≡ descriptor_is_right descriptor.now }
{
    if descriptor.len() < 2 || descriptor.len() != 2 + usize::from(descriptor[1]) {
        return false;
    }
    descriptor[0] != STREAM_IDENTIFIER || descriptor[1] == 1
}

/// Whether all descriptors are right.
fn are_right(bytes: &[u8]) -> bool
    ensures { result ≡ all_are_right bytes.now }
{
    for descriptor in descriptors(bytes) {
        if !is_right(descriptor) {
            return false;
        }
    }
    true
}

/// program_info_length.
fn size_of_info(body: &[u8]) -> usize
    requires { 9 ≤ length body.now }
    ensures { result ≡ info_size body.now }
{
    usize::from(u16_in(body, 7) % 4096)
}

/// The streams of a body.
pub(crate) fn streams(body: &[u8]) -> Pieces<'_>
    requires { 9 ≤ length body.now }
    ensures { pieces_of result.kind result.rest.now ≡ stream_pieces body.now }
{
    Pieces {
        kind: Kind::Stream,
        rest: rest_from(body, HEAD + size_of_info(body)),
    }
}

/// Whether a stream is as long as it tells.
fn is_whole(stream: &[u8]) -> bool
    ensures { result ≡ is_stream stream.now }
{
    stream.len() >= STREAM_HEAD
        && stream.len() == STREAM_HEAD + usize::from(u16_in(stream, 3) % 4096)
}

/// Whether all streams of a body are.
fn are_whole(body: &[u8]) -> bool
    requires { 9 ≤ length body.now }
    ensures { result ≡ list_all is_stream (stream_pieces body.now) }
{
    for stream in streams(body) {
        if !is_whole(stream) {
            return false;
        }
    }
    true
}

/// Whether the descriptors of the program and all streams are whole.
pub(crate) fn has_loops(body: &[u8]) -> bool
    requires { 9 ≤ length body.now }
    ensures { result ≡ body_has_loops body.now }
{
    HEAD + size_of_info(body) <= body.len() && are_whole(body)
}

/// Whether the descriptors of all streams are right.
fn have_right_info(body: &[u8]) -> bool
    requires { 9 ≤ length body.now }
    ensures { result ≡ list_all has_right_info (stream_pieces body.now) }
{
    for stream in streams(body) {
        if !are_right(rest_from(stream, STREAM_HEAD)) {
            return false;
        }
    }
    true
}

/// Whether all descriptors of a body whose loops are whole are right.
pub(crate) fn has_descriptors(body: &[u8]) -> bool
    requires head { 9 ≤ length body.now }
    requires loops { 9 + info_size body.now ≤ length body.now }
    ensures { result ≡ body_has_descriptors body.now }
{
    are_right(&body[HEAD..HEAD + size_of_info(body)]) && have_right_info(body)
}

/// component_tag of the first stream_identifier_descriptor.
fn tag_of(bytes: &[u8]) -> Option<u8>
    requires { all_are_right bytes.now ≡ true }
    ensures { result ≡ option_map (λ b. slice_index b 2) (find is_identifier (descriptors_in bytes.now)) }
{
    for descriptor in descriptors(bytes) {
        if let [STREAM_IDENTIFIER, _, tag, ..] = descriptor {
            return Some(*tag);
        }
    }
    None
}

/// What a stream says.
pub(crate) fn stream_of(stream: &[u8]) -> Stream
    requires whole { is_stream stream.now ≡ true }
    requires right { has_right_info stream.now ≡ true }
    ensures { stream_seen result ≡ stream_in stream.now }
{
    Stream {
        pid: u16_in(stream, 1) % PIDS,
        tag: tag_of(rest_from(stream, STREAM_HEAD)),
    }
}
