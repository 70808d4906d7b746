//! Explains each input by the layer that is asked for.

ghost use Rattle.std.specs.Prelude.{IfOk};
ghost use Rattle.cd_hints.specs.Validity.{IsValid};

use crate::Ended;
use crate::asked::{Asked, Request, number_of};
use crate::captures::walk;
use crate::events::{Events, put_events, put_pairs};
use crate::files::{put_end, put_head};
use crate::inputs::{bytes_of_hex, words_of_line};
use crate::items::explain_cbor;
use crate::messages::explain_message;
use crate::names::{explain_checksum, explain_name, explain_numbers, explain_prefix};
use crate::packets::{Layers, Packets, put_walked};
use crate::reading::explain_file;
use crate::released::put_released;
use crate::runs::{Shown, put_runs};
use crate::settings::explain_words;
use cd_hints::Settings;
use cd_name::Blob;
use cd_words::{Command, WordsFault, read_words};
use std::alloc::{AllocError, Global};
use std::fmt::Write;

// The command line with some options.
fn command_line(alloc: Global, options: &[Blob]) -> Result<Vec<Blob>, AllocError> {
    let mut words = words_of_line(alloc, b"compact")?;
    for option in options {
        words.push(Blob::from_vec(Vec::from_slice(alloc, option.as_slice())?))?;
    }
    Ok(words)
}

// The settings that options of `compact` say.
fn settings_of(alloc: Global, options: &[Blob]) -> Result<Settings, Ended>
    ensures { IfOk result IsValid }
{
    let words = command_line(alloc, options)?;
    match read_words(alloc, &words) {
        Ok(Command::Compact(settings)) => Ok(settings),
        Ok(_) | Err(WordsFault::Usage { .. }) => Err(Ended::Usage),
        Err(WordsFault::NoMemory) => Err(Ended::NoMemory),
    }
}

// The file of events with their partners, in pieces.
fn put_file(
    alloc: Global,
    text: &mut String,
    settings: &Settings,
    events: Events,
    partners: &[Option<usize>],
) -> Result<(), AllocError>
    requires { IsValid settings.now }
{
    put_head(alloc, text, &settings.params)?;
    put_runs(alloc, text, settings, Shown::Spelled, events, partners)?;
    put_end(alloc, text)
}

// What a layer makes of events with their partners.
fn put_paired(
    alloc: Global,
    text: &mut String,
    asked: Asked,
    settings: &Settings,
    events: Events,
) -> Result<(), AllocError>
    requires { IsValid settings.now }
{
    let partners = events.partners(settings)?;
    let partners = partners.as_slice();
    match asked {
        Asked::Pairs => put_pairs(text, events.as_slice(), partners),
        Asked::File => put_file(alloc, text, settings, events, partners),
        _ => put_runs(alloc, text, settings, Shown::Kept, events, partners),
    }
}

// What a layer makes of events.
fn put_events_of(
    alloc: Global,
    text: &mut String,
    asked: Asked,
    settings: &Settings,
    events: Events,
) -> Result<(), AllocError>
    requires { IsValid settings.now }
{
    match asked {
        Asked::Events => put_events(text, events.as_slice()),
        Asked::Released => put_released(alloc, text, settings, events),
        asked => put_paired(alloc, text, asked, settings, events),
    }
}

// A capture, by valid settings.
fn put_capture(
    alloc: Global,
    text: &mut String,
    request: &Request,
    settings: &Settings,
    bytes: &[u8],
) -> Result<(), AllocError>
    requires { IsValid settings.now }
{
    let chunk = request.chunk;
    let walked = match request.asked {
        Asked::Packets => walk(alloc, bytes, chunk, &mut Packets { text })?,
        Asked::Layers => {
            let port = settings.port;
            walk(alloc, bytes, chunk, &mut Layers { text, port })?
        }
        asked => {
            let mut events = Events::new(alloc, settings, request.ipv6);
            let walked = walk(alloc, bytes, chunk, &mut events)?;
            put_events_of(alloc, text, asked, settings, events)?;
            walked
        }
    };
    put_walked(text, walked)
}

// What a layer of CBOR makes of bytes.
fn put_cbor(
    alloc: Global,
    text: &mut String,
    request: &Request,
    bytes: &[u8],
) -> Result<(), AllocError> {
    match request.asked {
        Asked::Read => explain_file(alloc, text, bytes, request.chunk),
        _ => explain_cbor(alloc, text, bytes, request.chunk),
    }
}

// What a layer that takes a number makes of bytes. False where it does not take the number with them.
fn put_numbered(
    alloc: Global,
    text: &mut String,
    asked: Asked,
    number: usize,
    bytes: &[u8],
) -> Result<bool, AllocError> {
    match asked {
        Asked::Prefix => explain_prefix(text, bytes, number),
        Asked::Checksum => explain_checksum(text, bytes, number),
        Asked::Numbers => {
            explain_numbers(text, bytes, number)?;
            Ok(true)
        }
        _ => {
            explain_name(alloc, text, bytes, number)?;
            Ok(true)
        }
    }
}

// The type for the answers of a message that is written, where a word says one.
fn answer_type_of(words: &[Blob]) -> Result<Option<u16>, Ended> {
    let [word] = words else {
        return if words.is_empty() {
            Ok(None)
        } else {
            Err(Ended::Usage)
        };
    };
    let Some(number) = number_of(word.as_slice()) else {
        return Err(Ended::Usage);
    };
    match u16::try_from(number) {
        Ok(rtype) => Ok(Some(rtype)),
        Err(_) => Err(Ended::Usage),
    }
}

// One input.
fn explain_input(
    alloc: Global,
    text: &mut String,
    request: &Request,
    bytes: &[u8],
) -> Result<(), Ended> {
    match request.asked {
        Asked::Message => {
            let answer_type = answer_type_of(request.words)?;
            explain_message(alloc, text, bytes, answer_type)?;
        }
        Asked::Cbor | Asked::Read => {
            if !request.words.is_empty() {
                return Err(Ended::Usage);
            }
            put_cbor(alloc, text, request, bytes)?;
        }
        Asked::Name | Asked::Prefix | Asked::Checksum | Asked::Numbers => {
            for word in request.words {
                let Some(number) = number_of(word.as_slice()) else {
                    return Err(Ended::Usage);
                };
                if !put_numbered(alloc, text, request.asked, number, bytes)? {
                    return Err(Ended::Usage);
                }
            }
        }
        _ => {
            let settings = settings_of(alloc, request.words)?;
            put_capture(alloc, text, request, &settings, bytes)?;
        }
    }
    Ok(())
}

// A line of the input: a command line, or an input in hexadecimal.
fn explain_line(
    alloc: Global,
    text: &mut String,
    request: &Request,
    line: &[u8],
) -> Result<(), Ended> {
    if request.asked == Asked::Words {
        let words = words_of_line(alloc, line)?;
        return Ok(explain_words(alloc, text, &words)?);
    }
    match bytes_of_hex(alloc, line)? {
        Some(bytes) => explain_input(alloc, text, request, &bytes),
        None => Err(Ended::NoHex),
    }
}

/// Explains the input.
pub fn explain(
    alloc: Global,
    text: &mut String,
    request: &Request,
    input: &[u8],
) -> Result<(), Ended> {
    let words = request.asked == Asked::Words;
    if words && !request.words.is_empty() {
        return Ok(explain_words(alloc, text, request.words)?);
    }
    if !words && !request.hex {
        return explain_input(alloc, text, request, input);
    }
    let lines = input.strip_suffix(b"\n").unwrap_or(input);
    for (index, line) in lines.split(|byte| *byte == b'\n').enumerate() {
        writeln!(text, "input {index}")?;
        explain_line(alloc, text, request, line)?;
    }
    Ok(())
}
