//! What the words of the command line ask for.

use cd_name::Blob;
use std::net::Ipv6Addr;

/// A layer, by the word that asks for it.
#[derive(Clone, Copy, PartialEq, Eq)]
pub enum Asked {
    Name,
    Message,
    Packets,
    Layers,
    Events,
    Pairs,
    Released,
    Records,
    File,
    Read,
    Cbor,
    Words,
    Prefix,
    Checksum,
    Numbers,
}

// Each layer with its word.
const LAYERS: [(&[u8], Asked); 15] = [
    (b"name", Asked::Name),
    (b"message", Asked::Message),
    (b"packets", Asked::Packets),
    (b"layers", Asked::Layers),
    (b"events", Asked::Events),
    (b"pairs", Asked::Pairs),
    (b"released", Asked::Released),
    (b"records", Asked::Records),
    (b"file", Asked::File),
    (b"read", Asked::Read),
    (b"cbor", Asked::Cbor),
    (b"words", Asked::Words),
    (b"prefix", Asked::Prefix),
    (b"checksum", Asked::Checksum),
    (b"numbers", Asked::Numbers),
];

// The layer of these that a word asks for.
fn named(layers: &[(&[u8], Asked)], word: &[u8]) -> Option<Asked> {
    for (name, asked) in layers {
        if *name == word {
            return Some(*asked);
        }
    }
    None
}

/// A layer, how the standard input is taken for it, and its own words.
#[derive(Drop)]
pub struct Request<'a> {
    pub asked: Asked,
    /// Whether each line is an input of its own, in hexadecimal.
    pub hex: bool,
    /// Captures, files that are read, and bytes of CBOR are fed in chunks of so many bytes, or at once where it is 0.
    pub chunk: usize,
    /// The prefix of IPv6 that the addresses of events are embedded in, if they are (RFC 6052 2.2, with 96 bits).
    pub ipv6: Option<[u8; 16]>,
    pub words: &'a [Blob],
}

/// The number that a word says in decimal.
pub fn number_of(word: &[u8]) -> Option<usize> {
    match str::from_utf8(word) {
        Ok(word) => match word.parse::<usize>() {
            Ok(number) => Some(number),
            Err(_) => None,
        },
        Err(_) => None,
    }
}

// The octets of an address of IPv6.
fn octets_of(word: &[u8]) -> Option<[u8; 16]> {
    match Ipv6Addr::parse_ascii(word) {
        Ok(address) => Some(address.octets()),
        Err(_) => None,
    }
}

// Whether a word comes first, and the words after it.
fn flag<'a>(words: &'a [Blob], name: &[u8]) -> (bool, &'a [Blob]) {
    match words {
        [first, tail @ ..] if first.as_slice() == name => (true, tail),
        _ => (false, words),
    }
}

// What stands after a word, where the word comes first and something does, and the words after both.
fn value<'a>(words: &'a [Blob], name: &[u8]) -> (Option<&'a Blob>, &'a [Blob]) {
    match words {
        [first, second, tail @ ..] if first.as_slice() == name => (Some(second), tail),
        _ => (None, words),
    }
}

// The size of the chunks that a word says, and 0 without a word.
fn chunk_of(word: Option<&Blob>) -> Option<usize> {
    match word {
        Some(word) => number_of(word.as_slice()),
        None => Some(0),
    }
}

// The prefix that a word says. None where the word says none.
fn prefix_of(word: Option<&Blob>) -> Option<Option<[u8; 16]>> {
    match word {
        Some(word) => match octets_of(word.as_slice()) {
            Some(octets) => Some(Some(octets)),
            None => None,
        },
        None => Some(None),
    }
}

/// Reads the layer, `--hex`, `--chunk N` and `--ipv6 PREFIX`, and leaves the words after them to the layer.
pub fn request_of(words: &[Blob]) -> Option<Request<'_>> {
    let (layer, rest) = words.split_first()?;
    let asked = named(&LAYERS, layer.as_slice())?;
    let (hex, rest) = flag(rest, b"--hex");
    let (chunk, rest) = value(rest, b"--chunk");
    let (ipv6, rest) = value(rest, b"--ipv6");
    let chunk = chunk_of(chunk)?;
    let ipv6 = prefix_of(ipv6)?;
    Some(Request {
        asked,
        hex,
        chunk,
        ipv6,
        words: rest,
    })
}
