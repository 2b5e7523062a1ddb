//! Lists of datagrams as text: `239.2.0.1:169` is one of 169 bytes to 239.2.0.1. The first of a list has number 0.
use std::alloc::Global;
use std::test::Fail;
use test_recordings::{Datagram, capture_of, numbers_in};

/// The bytes of an address.
fn address_of(text: &str) -> Result<[u8; 4], Fail> {
    let mut address = [0u8; 4];
    let mut numbers = text.split('.');
    for at in 0..4usize {
        address[at] = numbers.next().ok_or("no address")?.parse::<u8>()?;
    }
    match numbers.next() {
        Some(_) => Err("a longer address".into()),
        None => Ok(address),
    }
}

/// The datagram of a word.
fn datagram_in(word: &str) -> Result<Datagram, Fail> {
    let (address, size) = word.split_once(':').ok_or("no size")?;
    let to = address_of(address)?;
    Ok(Datagram {
        size: size.parse()?,
        to,
    })
}

/// The capture of a list.
pub fn capture_of_list(alloc: Global, list: &str) -> Result<Vec<u8>, Fail> {
    let mut datagrams = Vec::new(alloc);
    for word in list.split_whitespace() {
        datagrams.push(datagram_in(word)?)?;
    }
    capture_of(alloc, &datagrams)
}

/// Appends the datagram of a list with a number.
fn put_numbered(into: &mut Vec<Datagram>, list: &str, number: u16) -> Result<(), Fail> {
    let word = list.split_whitespace().nth(usize::from(number));
    into.push(datagram_in(word.ok_or("no such datagram")?)?)?;
    Ok(())
}

/// The datagrams of a list with the numbers of words: `0-1 4`, or `0*101`, which is 101 times the first.
pub fn datagrams_of(alloc: Global, list: &str, words: &str) -> Result<Vec<Datagram>, Fail> {
    let numbers = numbers_in(alloc, words)?;
    let mut datagrams = Vec::new(alloc);
    for number in &numbers {
        put_numbered(&mut datagrams, list, *number)?;
    }
    Ok(datagrams)
}
