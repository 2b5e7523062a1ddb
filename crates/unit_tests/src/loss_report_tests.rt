//! Whole reports, compared with texts written by hand.

use addr_rules::{Rule, parse_rule};
use ip_datagram::IpAddress;
use loss_report::{Report, ServiceCounts, StreamCounts};
use std::alloc::{AllocError, Global};
use std::test::Fail;
use test_lines::expect;
use test_recordings::counts_of;

/// Two services, a table and a version: an MPE-FEC service of which 56 packets were lost in a row, and a ULE service that lost none.
const REALISTIC: &str = "scope,name,value
stream,records,1817
stream,tail_bytes,0
stream,unreadable,0
stream,without_payload,0
stream,other,0
lecture,heard,1046
lecture,repeats,0
lecture,gaps,1
lecture,units,155
lecture,bad_check,0
lecture,delimited,1
lecture,bad_length,0
lecture,unread,0
lecture,filtered,0
lecture,frames,1
lecture,rows_mended,1024
lecture,rows_left,0
lecture,datagrams,100
files,heard,770
files,repeats,0
files,gaps,0
files,units,100
files,bad_check,0
files,delimited,0
files,bad_length,0
files,unread,0
files,filtered,0
files,frames,0
files,rows_mended,0
files,rows_left,0
files,datagrams,100
table,units,1
table,refused,0
table,version,31
rule,239.1.0.0/16,1
rule,239.2.0.0/16,2
";

/// No service, each number of the stream another, the largest among them; an IPv6 rule of the prefix for documentation
/// (RFC 3849), all of it and none of it, and an IPv4 rule with numbers of one to three digits.
const RULES: &str = "scope,name,value
stream,records,18446744073709551615
stream,tail_bytes,187
stream,unreadable,10
stream,without_payload,9
stream,other,1
table,units,3
table,refused,255
rule,2001:0db8:0000:0000:00ab:cdef:0000:0001/128,0
rule,0000:0000:0000:0000:0000:0000:0000:0000/0,255
rule,10.0.255.99/32,10
";

/// Counts of a stream of no record.
const EMPTY: StreamCounts = StreamCounts {
    records: 0,
    tail_bytes: 0,
    unreadable: 0,
    without_payload: 0,
    other: 0,
};

fn v4(address: [u8; 4], slash: u8) -> Rule {
    Rule {
        address: IpAddress::V4(address),
        slash,
    }
}

fn v6(address: [u8; 16], slash: u8) -> Rule {
    Rule {
        address: IpAddress::V6(address),
        slash,
    }
}

/// Fails where a report is printed otherwise.
fn expect_printed(alloc: Global, report: &Report, want: &str) -> Result<(), Fail> {
    let text = report.text(alloc)?;
    expect("a report", std::str::from_utf8(&text)?, want)
}

/// The service that lost packets, and the one that lost none.
const LECTURE: &str =
    "heard=1046 gaps=1 units=155 delimited=1 frames=1 rows_mended=1024 datagrams=100";

const FILES: &str = "heard=770 units=100 datagrams=100";

/// Adds the two services, the table and its rules.
fn add_all(
    report: &mut Report,
    lecture: ServiceCounts,
    files: ServiceCounts,
) -> Result<(), AllocError> {
    report.add_service("lecture", lecture)?;
    report.add_service("files", files)?;
    report.add_table(1, 0)?;
    report.add_version(31)?;
    report.add_rule(&v4([239, 1, 0, 0], 16), 1)?;
    report.add_rule(&v4([239, 2, 0, 0], 16), 2)
}

#[test]
fn a_whole_report_is_printed(rt: HostRuntime) -> Result<(), Fail> {
    let stream = StreamCounts {
        records: 1817,
        ..EMPTY
    };
    let lecture = counts_of(LECTURE)?;
    let files = counts_of(FILES)?;
    let mut report = Report::new(rt.alloc(), stream);
    add_all(&mut report, lecture, files)?;
    expect_printed(rt.alloc(), &report, REALISTIC)
}

/// Adds a table, and rules of both versions.
fn add_rules(report: &mut Report) -> Result<(), AllocError> {
    let documented = [
        0x20, 1, 0x0D, 0xB8, 0, 0, 0, 0, 0, 0xAB, 0xCD, 0xEF, 0, 0, 0, 1,
    ];
    report.add_table(3, 255)?;
    report.add_rule(&v6(documented, 128), 0)?;
    report.add_rule(&v6([0; 16], 0), 255)?;
    report.add_rule(&v4([10, 0, 255, 99], 32), 10)
}

#[test]
fn rules_of_both_versions_are_printed(rt: HostRuntime) -> Result<(), Fail> {
    let stream = StreamCounts {
        records: 18446744073709551615,
        tail_bytes: 187,
        unreadable: 10,
        without_payload: 9,
        other: 1,
    };
    let mut report = Report::new(rt.alloc(), stream);
    add_rules(&mut report)?;
    expect_printed(rt.alloc(), &report, RULES)
}

/// The rule in the last line of a report.
fn rule_in(text: &str) -> Option<Rule> {
    let (_, line) = text.split_once("rule,")?;
    let (printed, _) = line.split_once(',')?;
    parse_rule(printed)
}

/// Whether the report of a rule is read as the rule.
fn is_read_again(alloc: Global, rule: &Rule) -> Result<bool, Fail> {
    let mut report = Report::new(alloc, EMPTY);
    report.add_rule(rule, 1)?;
    let bytes = report.text(alloc)?;
    Ok(rule_in(std::str::from_utf8(&bytes)?) == Some(*rule))
}

#[test]
fn a_printed_rule_is_read_again(rt: HostRuntime) -> Result<(), Fail> {
    let mut global = [0; 16];
    global[0] = 0xFF;
    global[1] = 0x0E;
    for rule in [v4([239, 1, 0, 0], 16), v4([0; 4], 0), v6(global, 16)] {
        assert!(rt; is_read_again(rt.alloc(), &rule)?, "{rule:?}");
    }
    Ok(())
}
