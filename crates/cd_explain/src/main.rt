//! Tells what each layer of the compactor makes of its input, line by line, for people and for a diff.
//!
//! The first word of the command line names a *layer*:
//!
//! - `message`: a DNS message (RFC 1035 4.1) and how it is written; `message N` with the type N for its answers.
//! - `packets`: the packets of a capture.
//! - `layers`: the datagram of each packet, or why there is none.
//! - `events`: the events of DNS traffic in a capture.
//! - `pairs`: each event with its partner.
//! - `released`: each event as it comes, and the records that are released by it.
//! - `records`: the records of a capture and the blocks that are kept of them (RFC 8618 7.3.2).
//! - `file`: the head, the blocks and the end of the file of a capture, as they are written, and what the tables of each block
//!   resolve to.
//! - `read`: the block parameters and the blocks of a file of C-DNS, and `whole` or its first refusal.
//! - `cbor`: the item that some bytes begin with (RFC 8949) and its length, or the first fault; with `--chunk N` the
//!   events after each chunk.
//! - `words`: the words after it as a command line, or without such words each line of the input as one.
//! - `name N..`: the names at offsets of a message; `numbers N..`: the numbers at offsets.
//! - `prefix N..`: so many bits of an address.
//! - `checksum N..`: the Internet checksum of the bytes, given in two pieces of which the first has so many.
//!
//! Words may stand after the layer, in this order: `--hex`, where each line of the input is one input in hexadecimal;
//! `--chunk N`, where a capture, a file that is read, or bytes of CBOR are fed in chunks of so many bytes;
//! `--ipv6 PREFIX`, where the addresses of events are embedded in a prefix of IPv6 of 96 bits (RFC 6052 2.2). Layers of
//! a capture take the options of `compact` last.
//!
//! ```text
//! $ printf '1a2b01000001000000000000 0161 00 0001 0001' | cd_explain message --hex
//! ```
//!
//! The exit status is 0; 1 for words that are not these, 2 for a line that is not hexadecimal, 4 and 5 for a read or a
//! write that fails, 6 for want of memory, and 10 for a word that is no UTF-8 text.
#![tactic(auto)]

mod asked;
mod captures;
mod events;
mod explaining;
mod files;
mod inputs;
mod items;
mod kept;
mod messages;
mod names;
mod packets;
mod reading;
mod records;
mod released;
mod runs;
mod settings;
mod text;

use asked::request_of;
use cd_name::Blob;
use cd_ports::{Sink, SinkFault, StdSink, StdSource};
use explaining::explain;
use inputs::read_all;
use std::alloc::AllocError;
use std::env;
use std::io::ErrorKind;
use std::process::ExitCode;

const USAGE: &[u8] = b"usage: cd_explain LAYER [--hex] [--chunk N] [--ipv6 PREFIX] [WORDS]
layers: message, packets, layers, events, pairs, released, records, file, read, cbor, words, name, prefix, checksum,
        numbers
WORDS: options of compact for a capture; numbers for name, prefix, checksum, numbers; a type of answers for message.
";

/// Why nothing is explained.
#[derive(Clone, Copy, Debug, PartialEq, Eq)]
pub enum Ended {
    Usage,
    /// A line of the input is not hexadecimal.
    NoHex,
    ReadFault,
    WriteFault,
    NoMemory,
    /// A word is not UTF-8 text.
    NoText,
}

impl From<AllocError> for Ended {
    fn from(_: AllocError) -> Ended {
        Ended::NoMemory
    }
}

// The words of the command line without the program's name.
fn words_of(rt: &HostRuntime) -> Result<Vec<Blob>, Ended> {
    let args = match env::args(rt) {
        Ok(args) => args,
        Err(error) => {
            return Err(match error.kind() {
                ErrorKind::OutOfMemory => Ended::NoMemory,
                _ => Ended::NoText,
            });
        }
    };
    let mut words = Vec::new(rt.alloc());
    for arg in args.skip(1) {
        if words.push(Blob::from_vec(arg.into_bytes())).is_err() {
            return Err(Ended::NoMemory);
        }
    }
    Ok(words)
}

fn send<K: Sink>(out: &mut K, bytes: &[u8]) -> Result<(), Ended> {
    match out.write(bytes) {
        Ok(()) => Ok(()),
        Err(SinkFault::Failed) => Err(Ended::WriteFault),
        Err(SinkFault::NoMemory) => Err(Ended::NoMemory),
    }
}

// Explains the standard input by the words of the command line.
fn start(rt: &HostRuntime) -> Result<(), Ended> {
    let words = words_of(rt)?;
    let Some(request) = request_of(&words) else {
        return Err(Ended::Usage);
    };
    let input = read_all(rt.alloc(), &mut StdSource::new(rt.stdin()))?;
    let mut text = String::new(rt.alloc());
    explain(rt.alloc(), &mut text, &request, &input)?;
    send(&mut StdSink::new(rt.stdout()), text.as_bytes())
}

fn main(rt: HostRuntime) -> ExitCode {
    ExitCode::from(match start(&rt) {
        Ok(()) => 0,
        Err(Ended::Usage) => match send(&mut StdSink::new(rt.stderr()), USAGE) {
            Ok(()) => 1,
            Err(_) => 5,
        },
        Err(Ended::NoHex) => 2,
        Err(Ended::ReadFault) => 4,
        Err(Ended::WriteFault) => 5,
        Err(Ended::NoMemory) => 6,
        Err(Ended::NoText) => 10,
    })
}
