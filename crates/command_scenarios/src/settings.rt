//! Names -> settings. `INT+FILES` is one part after the other, and `-` is no part.
use std::alloc::{AllocError as OutOfMemory, Global};
use std::test::Fail;

/// Names and parts, in which `;` ends a line, and `'` is a quotation mark.
///
/// SNDUS, SECTIONS, BURSTS and GSE are one service for 239.0.0.0/8: at most 100 packets in each 400 of the bursts, 16 columns of parity among
/// them. INT is on PID 600, INT_8190 on the first PID that a PMT could have. TAG_1 and TAG_2 are what a lecture and files have beside in a plan
/// with an INT. SLICED is a lecture in sliced frames, ONE and TWO are services of SNDUs each of which begins in a packet of its own.
const PARTS: &str =
    "SNDUS|[[service]];name = 'sndus';kind = 'ule';pid = 256;rules = ['239.0.0.0/8'];
SECTIONS|[[service]];name = 'sections';kind = 'mpe';pid = 300;rules = ['239.0.0.0/8'];
BURSTS|recording = 'stamped';cycle = 400;[[service]];name = 'bursts';kind = 'fec';pid = 512;mode = 'sliced';rows = 256;parity = 16;window_start = 10;window_length = 100;rules = ['239.0.0.0/8'];
GSE|carrier = 'bb';frame_bytes = 300;[[service]];name = 'gse';kind = 'gse';isi = 1;rules = ['239.0.0.0/8'];
INT|[int];pid = 600;platform_id = 1;network_id = 2;original_network_id = 3;transport_stream_id = 4;
INT_8190|[int];pid = 8190;platform_id = 1;network_id = 2;original_network_id = 3;transport_stream_id = 4;
LECTURE|[[service]];name = 'lecture';kind = 'mpe';pid = 512;rules = ['239.1.0.0/16'];
SLICED|[[service]];name = 'lecture';kind = 'fec';pid = 512;mode = 'sliced';rows = 1024;window_start = 100;window_length = 1500;service_id = 10;component_tag = 1;rules = ['239.1.0.0/16'];
INDEXED|[[service]];name = 'lecture';kind = 'fec';pid = 512;mode = 'indexed';rows = 256;rules = ['239.1.0.0/16'];parity = 2;
FILES|[[service]];name = 'files';kind = 'ule';pid = 513;rules = ['239.2.0.0/16'];
BASEBAND|carrier = 'bb';[[service]];name = 'files';kind = 'gse';isi = 0;rules = ['239.2.0.0/16'];
ONE|[[service]];name = 'a';kind = 'ule';pid = 256;packing = false;rules = ['239.1.0.0/16'];
TWO|[[service]];name = 'b';kind = 'ule';pid = 257;packing = false;rules = ['239.2.0.0/16'];
TAG_1|service_id = 10;component_tag = 1;
TAG_2|service_id = 10;component_tag = 2;
TAG_2_OF_0|service_id = 0;component_tag = 2;
TAG_1_OF_11|service_id = 11;component_tag = 1;
TO_514|cycle = 100;[[change]];at = 3;[[change.service]];name = 'files';pid = 514;
TO_8189|[[change]];at = 3;[[change.service]];name = 'files';pid = 8189;
STAMPED|recording = 'stamped';
M2TS|recording = 'm2ts';
SPEED|speed = 1;
X|x
-|";

/// Appends the lines of a part.
fn put_lines(text: &mut String, lines: &str) -> Result<(), OutOfMemory> {
    for character in lines.chars() {
        text.push(match character {
            ';' => '\n',
            '\'' => '"',
            other => other,
        })?;
    }
    Ok(())
}

/// The other columns of the line of a table that begins with a name.
pub fn row_of(table: &'static str, name: &str) -> Result<&'static str, Fail> {
    for line in table.lines() {
        let (own, row) = line.split_once('|').ok_or("no bar")?;
        if own == name {
            return Ok(row);
        }
    }
    Err("no such name".into())
}

/// The settings of these names.
pub fn settings_of(alloc: Global, names: &str) -> Result<String, Fail> {
    let mut text = String::new(alloc);
    for name in names.split('+') {
        put_lines(&mut text, row_of(PARTS, name)?)?;
    }
    Ok(text)
}
