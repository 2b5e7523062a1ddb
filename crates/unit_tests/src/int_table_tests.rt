//! A table by hand, with its CRC_32 by an independent program, and bodies with one fault each.
ghost use Rattle.std.specs.Prelude.{◌≡◌, true, IfOk};
ghost use Rattle.std.specs.List.{list_all};
ghost use Rattle.int_spec.specs.Descriptors.{has_right_slash};

use crate::cases::expect_read;
use crate::texts::bytes_of;
use addr_rules::{Rule, RuleList};
use int_table::{IntEntry, IntFault, IntReadFault, IntTable, version_of};
use ip_datagram::IpAddress;
use section_codec::write;
use std::alloc::{AllocError as OutOfMemory, Global};
use std::process::Abort;
use std::test::Fail;
use test_lines::expect;

/// Two streams of one transport stream, 239.1.0.0/16, sliced, and 239.2.0.0/16 (EN 301 192 clause 8.4): the head, a target loop,
/// its operational loop, another target loop, its operational loop and the CRC_32.
const TWO_STREAMS: &str = "4CF040 01 01 C1 00 00 000001 00 F000
F007 0F05 EF010000 10
F010 1309 0002 0003 0004 000A 01 7703 BB0770
F007 0F05 EF020000 10
F00B 1309 0002 0003 0004 000A 02
E7A6B5A2";

/// Its entries: service_id, component_tag, slices and rules.
const ENTRIES: &str = "10 1 Some([187, 7, 112]) Rule { address: V4([239, 1, 0, 0]), slash: 16 }
10 2 None Rule { address: V4([239, 2, 0, 0]), slash: 16 }
";

/// The same with a wrong platform_id_hash, its fifth byte, and the CRC_32 of that.
const WRONG_HASH: &str = "4CF040 01 02 C1 00 00 000001 00 F000
F007 0F05 EF010000 10
F010 1309 0002 0003 0004 000A 01 7703 BB0770
F007 0F05 EF020000 10
F00B 1309 0002 0003 0004 000A 02
5A06C520";

/// So many times the rule 239.n.0.0/16.
fn same_rules(alloc: Global, n: u8, count: usize) -> Result<RuleList, OutOfMemory>
    ensures { IfOk result (λ rules. list_all has_right_slash rules ≡ true) }
{
    let mut rules = RuleList::new(alloc);
    for _ in 0..count {
        rules.push(Rule {
            address: IpAddress::V4([239, n, 0, 0]),
            slash: 16,
        })?;
    }
    Ok(rules)
}

/// Puts an entry into a table.
fn push(
    table: &mut IntTable,
    rules: RuleList,
    component_tag: u8,
    slices: Option<[u8; 3]>,
) -> Result<(), OutOfMemory>
    requires { list_all has_right_slash rules ≡ true }
{
    let entry = IntEntry {
        rules,
        service_id: 10,
        component_tag,
        slices,
    };
    match table.push(entry) {
        Ok(()) => Ok(()),
        Err(_) => Err(OutOfMemory),
    }
}

/// Whether a table is written as this section.
fn is_written_so(table: &IntTable, section: &[u8]) -> bool {
    let mut into = [0u8; 4096];
    table.write(&mut into) == Ok(section.len()) && into.starts_with(section)
}

/// Appends an entry: service_id, component_tag, slices and rules.
fn put_entry(text: &mut String, entry: &IntEntry) -> Result<(), OutOfMemory> {
    let (service, tag) = (entry.service_id, entry.component_tag);
    write!(text, "{service} {tag} {:?}", entry.slices)?;
    for at in 0..entry.rules.len() {
        write!(text, " {:?}", entry.rules.at(at))?;
    }
    text.push('\n')
}

/// A line for each entry of a table.
fn entries_of(alloc: Global, table: &IntTable) -> Result<String, OutOfMemory> {
    let mut text = String::new(alloc);
    for at in 0..table.len() {
        put_entry(&mut text, table.entry(at))?;
    }
    Ok(text)
}

/// The number of entries that are read of a section, or the fault.
fn read_of(alloc: Global, section: &[u8]) -> Result<String, OutOfMemory> {
    match IntTable::read(alloc, section) {
        Ok(table) => format!(in alloc; "{}", table.len()),
        Err(IntReadFault::Fault(fault)) => format!(in alloc; "{fault:?}"),
        Err(IntReadFault::OutOfMemory) => Err(OutOfMemory),
    }
}

/// The same of the section of a body of 5 to 100 bytes, with table_id 0x4C.
fn read_of_body(alloc: Global, body: &[u8]) -> Result<String, OutOfMemory> {
    if body.len() < 5 || body.len() > 100 {
        return "no body".to_string(alloc);
    }
    let mut section = [0u8; 128];
    let size = write(0x4C, 0xF0, body, &mut section);
    read_of(alloc, &section[..size])
}

/// The table of two streams.
fn two_streams(alloc: Global) -> Result<IntTable, OutOfMemory> {
    let mut table = IntTable::new(alloc, 0, 1, 2, 3, 4);
    let slices = Some([0xBB, 7, 0x70]);
    push(&mut table, same_rules(alloc, 1, 1)?, 1, slices)?;
    push(&mut table, same_rules(alloc, 2, 1)?, 2, None)?;
    Ok(table)
}

/// EN 301 192 clause 8.4, byte for byte.
#[test]
fn a_table_is_written(rt: HostRuntime) -> Result<(), Fail> {
    let table = two_streams(rt.alloc())?;
    let section = bytes_of(rt.alloc(), TWO_STREAMS)?;
    assert!(rt; is_written_so(&table, &section));
    Ok(())
}

/// The entries of the table of a section, which is written again as the section.
fn read_entries(alloc: Global, section: &[u8]) -> Result<String, Fail> {
    let Ok(table) = IntTable::read(alloc, section) else {
        return Err(Fail::new("no table"));
    };
    if !is_written_so(&table, section) {
        return Err(Fail::new("another section"));
    }
    Ok(entries_of(alloc, &table)?)
}

#[test]
fn a_table_is_read(rt: HostRuntime) -> Result<(), Fail> {
    let section = bytes_of(rt.alloc(), TWO_STREAMS)?;
    let versions = [version_of(&section, 1), version_of(&section, 2)];
    assert!(rt; versions == [Some(0), None]);
    let entries = read_entries(rt.alloc(), &section)?;
    expect("the two streams", &entries, ENTRIES)
}

/// Bodies, the number of entries that are read or the fault, and what the body has (EN 301 192 clause 8.4 and the rules of the
/// profile).
const BODIES: &str = "HEAD|0|no entries
HEAD TARGET F00B LOCATION|1|one entry
02 01 C1 00 00 000001 00 F000|Table|action_type 2
01 01 C0 00 00 000001 00 F000|Table|current_next_indicator 0
01 01 C1 00 00 000001 00 F0|Loop|no room for a platform loop
HEAD TARGET|Loop|a target loop alone
HEAD TARGET F00C LOCATION|Loop|a loop that passes the section
HEAD TARGET F00F 53020708 LOCATION|1|an unknown descriptor
HEAD F007 0F0A EF01000010 F00B LOCATION|Descriptor|a descriptor that passes its loop
HEAD F007 0F05 EF010000 21 F00B LOCATION|Descriptor|a slash of 33
HEAD F013 1111 FF0E0000000000000000000000000001 81 F00B LOCATION|Descriptor|a slash of 129
HEAD F002 1100 F00B LOCATION|1|no rule
HEAD TARGET F000|Descriptor|no location
HEAD TARGET F016 LOCATION LOCATION|Descriptor|two locations
HEAD TARGET F00B LOCATION TARGET F00B 1309 0002 0003 0005 000A 01|Descriptor|two networks
01 01 C1 00 00 000001 00 F004 77020000|Descriptor|a short identifier in the platform loop
01 03 C1 00 00 000001 00 F000|Hash|the hash of another platform
01 01 C1 01 01 000001 00 F000|Numbers|the second of two sections";

#[test]
fn each_fault_is_named(rt: HostRuntime) -> Result<(), Fail> {
    expect_read(rt.alloc(), read_of_body, BODIES)?;
    let section = bytes_of(rt.alloc(), WRONG_HASH)?;
    expect("a wrong hash", &read_of(rt.alloc(), &section)?, "Hash")
}

/// Places in a section, and the bytes there: action_type, the hash, version 31 and platform_id; the head of a loop, a descriptor of
/// 51 rules, one of another rule, and one of an IPv6 rule.
const PLACES: &str = "3|01 FF FF 00 00 FFFFFF
14|F11B 0FFF
273|0F05
280|1111";

/// Whether a section has such bytes at their place.
fn holds(alloc: Global, section: &[u8], line: &str) -> Result<bool, Fail> {
    let Some((place, bytes)) = line.split_once('|') else {
        return Ok(false);
    };
    let place = place.parse::<usize>()?;
    let bytes = bytes_of(alloc, bytes)?;
    Ok(place <= section.len() && section[place..].starts_with(&bytes))
}

/// Asserts that a section has the bytes of each line at their place.
fn assert_places(rt: &impl Abort, alloc: Global, section: &[u8], lines: &str) -> Result<(), Fail> {
    for line in lines.lines() {
        assert!(rt; holds(alloc, section, line)?, "{line}");
    }
    Ok(())
}

/// A table of 52 rules of IPv4 and one of IPv6 for one stream.
fn many_rules(alloc: Global) -> Result<IntTable, OutOfMemory> {
    let mut rules = same_rules(alloc, 1, 52)?;
    rules.push(Rule {
        address: IpAddress::V6([0; 16]),
        slash: 0,
    })?;
    let mut table = IntTable::new(alloc, 31, 0xFF_FFFF, 0, 0, 0);
    push(&mut table, rules, 1, None)?;
    Ok(table)
}

/// A descriptor has at most 255 bytes: 51 rules of IPv4, 15 of IPv6. A section has at most 4,096.
#[test]
fn rules_share_descriptors(rt: HostRuntime) -> Result<(), Fail> {
    let alloc = rt.alloc();
    let mut table = many_rules(alloc)?;
    let mut section = [0; 4096];
    // 18 of the section, 4 of two loops, 257 + 7 + 19 of three descriptors, 11 of the location
    assert!(rt; table.write(&mut section) == Ok(316));
    assert_places(&rt, alloc, &section, PLACES)?;
    push(&mut table, same_rules(alloc, 1, 900)?, 2, None)?;
    assert!(rt; table.write(&mut section) == Err(IntFault::TooLarge));
    Ok(())
}
