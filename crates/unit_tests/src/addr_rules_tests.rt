//! Addresses and texts from the standards, and texts at their edges.
use addr_rules::{Label, MacList, Rule, mac_of, matches, parse_mac, parse_rule, wants};
use hex::FromHex;
use ip_datagram::IpAddress;
use std::alloc::Global;
use std::test::Fail;
use test_lines::expect_lines;

/// What the text of a rule is read as: the bytes of its address, and how many bits count.
fn rule_of(alloc: Global, given: &str) -> Result<String, Fail> {
    let text = match parse_rule(given) {
        Some(
            Rule {
                address: IpAddress::V4(bytes),
                slash,
            },
        ) => format!(in alloc; "{bytes:?} {slash}"),
        Some(
            Rule {
                address: IpAddress::V6(bytes),
                slash,
            },
        ) => format!(in alloc; "{} {slash}", hex::encode(alloc, bytes)?),
        None => "none".to_string(alloc),
    };
    Ok(text?)
}

/// Spellings of RFC 4291 section 2.2, and what is left out of them here. 2001:db8::/32 is for documentation (RFC 3849).
const RULES: &str = "\
239.1.0.0/16|[239, 1, 0, 0] 16
0.0.0.0/0|[0, 0, 0, 0] 0
10.0.0.255/32|[10, 0, 0, 255] 32
10.0.0.255/33|none
10.0.0.255/31|none
10.0.0.256/32|none
10.0.00.0/8|none
10.0.0/8|none
10.0.0.0.0/8|none
10.0.0.0/08|none
10.0.0.0|none
2001:db8::1/128|20010db8000000000000000000000001 128
2001:DB8:0:0:0:0:0:0001/128|20010db8000000000000000000000001 128
2001:db8:0:0:0:0::1/128|20010db8000000000000000000000001 128
::/0|00000000000000000000000000000000 0
ff0e::/16|ff0e0000000000000000000000000000 16
ff0e::/14|none
2001:db8:0:0:0:0:0::1/128|none
2001:db8::0::1/128|none
2001:db8:::1/128|none
2001:db8:1/128|none
20010:db8::/32|none
::/129|none";

/// What the text of a MAC address is read as.
fn mac_in(alloc: Global, given: &str) -> Result<String, Fail> {
    let text = match parse_mac(given) {
        Some(mac) => hex::encode(alloc, mac),
        None => "none".to_string(alloc),
    };
    Ok(text?)
}

const MACS: &str = "\
02:00:5e:AB:cd:0F|02005eabcd0f
02:00:5e:AB:cd:0|none
02:00:5e:AB:cd:0F:|none
02-00-5e-AB-cd-0F|none
02:00:5e:AB:cg:0F|none";

#[test]
fn rules_and_mac_addresses_are_read(rt: HostRuntime) -> Result<(), Fail> {
    expect_lines(rt.alloc(), rule_of, RULES)?;
    expect_lines(rt.alloc(), mac_in, MACS)
}

/// The MAC address of the destination that a rule has, where that of unicast is 02:02:02:02:02:02.
fn mac_to(alloc: Global, given: &str) -> Result<String, Fail> {
    let Some(rule) = parse_rule(given) else {
        return Err(Fail::new("no rule"));
    };
    Ok(hex::encode(alloc, mac_of(&rule.address, [2; 6]))?)
}

/// RFC 1112 section 6.4 and RFC 2464 section 7.
const DESTINATIONS: &str = "\
239.129.2.3/32|01005e010203
224.0.0.1/32|01005e000001
240.0.0.1/32|020202020202
255.255.255.255/32|ffffffffffff
ff0e::102:304/128|333301020304
2001:db8::1/128|020202020202";

#[test]
fn destinations_have_their_mac_address(rt: HostRuntime) -> Result<(), Fail> {
    expect_lines(rt.alloc(), mac_to, DESTINATIONS)
}

/// Whether the first of two rules matches the address of the second.
fn first_matches(rules: &str) -> Option<bool> {
    let (rule, other) = rules.split_once(' ')?;
    Some(matches(&parse_rule(rule)?, &parse_rule(other)?.address))
}

/// The same as text.
fn is_matched(alloc: Global, given: &str) -> Result<String, Fail> {
    let Some(matched) = first_matches(given) else {
        return Err(Fail::new("no two rules"));
    };
    Ok(format!(in alloc; "{matched}")?)
}

const MATCHES: &str = "\
239.1.128.0/17 239.1.255.9/32|true
239.1.128.0/17 239.1.127.9/32|false
239.1.128.0/17 238.1.128.0/32|false
239.1.128.0/17 ::/128|false";

/// The label of these digits.
fn label_of(digits: &str) -> Result<Label, Fail> {
    match digits.len() {
        6 => Ok(Label::Three(<[u8; 3]>::from_hex(digits)?)),
        12 => Ok(Label::Six(<[u8; 6]>::from_hex(digits)?)),
        _ => Ok(Label::Broadcast),
    }
}

/// Whether a filter of one MAC address, or of none, wants a label.
fn is_wanted(alloc: Global, given: &str) -> Result<String, Fail> {
    let Some((mac, label)) = given.split_once(' ') else {
        return Err(Fail::new("no label"));
    };
    let label = label_of(label)?;
    let mut filter = MacList::new(alloc);
    if let Some(mac) = parse_mac(mac) {
        filter.push(mac)?;
    }
    Ok(format!(in alloc; "{}", wants(&filter, &label))?)
}

const LABELS: &str = "\
none 010203|true
02:02:02:02:02:02 020202020202|true
02:02:02:02:02:02 030303030303|false
02:02:02:02:02:02 ffffffffffff|true
02:02:02:02:02:02 020202|false
02:02:02:02:02:02 broadcast|true";

#[test]
fn bits_and_labels_are_compared(rt: HostRuntime) -> Result<(), Fail> {
    expect_lines(rt.alloc(), is_matched, MATCHES)?;
    expect_lines(rt.alloc(), is_wanted, LABELS)
}
