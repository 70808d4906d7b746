//! Settings, by the names of the options that say them.

use crate::text::{put_field, put_optional};
use cd_block::{Hints, Params};
use cd_hints::Settings;
use cd_name::Blob;
use cd_words::{Command, DrillSettings, WordsFault, read_words};
use std::alloc::{AllocError, Global};
use std::fmt::Write;

// The opcodes that are listed: bit n stands for opcode n.
fn put_opcodes(text: &mut String, opcodes: u16) -> Result<(), AllocError> {
    text.push_str("opcodes")?;
    for opcode in 0..16u32 {
        if opcodes >> opcode & 1 == 1 {
            write!(text, " {opcode}")?;
        }
    }
    text.push('\n')
}

// Ascending types, each run of them as its first and its last.
fn put_types(text: &mut String, types: &[u16]) -> Result<(), AllocError> {
    text.push_str("rr-types")?;
    let mut run: Option<(u16, u16)> = None;
    for rtype in types {
        let rtype = *rtype;
        let mut first = rtype;
        if let Some((least, most)) = run {
            if most.checked_add(1) == Some(rtype) {
                first = least;
            } else {
                write!(text, " {least}-{most}")?;
            }
        }
        run = Some((first, rtype));
    }
    if let Some((least, most)) = run {
        write!(text, " {least}-{most}")?;
    }
    text.push('\n')
}

fn put_limits(text: &mut String, params: &Params) -> Result<(), AllocError> {
    put_field(text, "ticks", &params.ticks)?;
    put_optional(text, "query-timeout", &params.query_ms)?;
    put_optional(text, "skew-timeout", &params.skew_us)?;
    put_field(text, "block-items", &params.max_items)
}

fn put_hints(text: &mut String, hints: &Hints) -> Result<(), AllocError> {
    put_field(text, "qr-hints", &hints.qr)?;
    put_field(text, "sig-hints", &hints.sig)?;
    put_field(text, "rr-hints", &hints.rr)?;
    put_field(text, "other-hints", &hints.other)
}

fn put_prefixes(text: &mut String, params: &Params) -> Result<(), AllocError> {
    let [client4, client6, server4, server6] = params.prefixes;
    put_optional(text, "client-prefix4", &client4)?;
    put_optional(text, "client-prefix6", &client6)?;
    put_optional(text, "server-prefix4", &server4)?;
    put_optional(text, "server-prefix6", &server6)
}

/// Block parameters, a line a field (RFC 8618 7.3.1.1).
pub fn put_params(text: &mut String, params: &Params) -> Result<(), AllocError> {
    put_limits(text, params)?;
    put_hints(text, &params.hints)?;
    put_opcodes(text, params.opcodes)?;
    put_types(text, params.rr_types.as_slice())?;
    put_field(text, "storage-flags", &params.flags)?;
    put_prefixes(text, params)
}

fn put_settings(text: &mut String, settings: &Settings) -> Result<(), AllocError> {
    put_field(text, "workers", &settings.workers)?;
    put_params(text, &settings.params)?;
    put_field(text, "window", &settings.window)?;
    put_field(text, "window-bytes", &settings.window_bytes)?;
    put_field(text, "block-bytes", &settings.block_bytes)?;
    put_field(text, "port", &settings.port)?;
    put_field(text, "max-input", &settings.max_input)
}

fn put_drill(text: &mut String, settings: &DrillSettings) -> Result<(), AllocError> {
    put_field(text, "count", &settings.count)?;
    put_field(text, "seed", &settings.seed)?;
    put_field(text, "workers", &settings.workers)
}

/// What the words of a command line say: a command and its settings, or the place of the word that breaks a rule.
pub fn explain_words(alloc: Global, text: &mut String, words: &[Blob]) -> Result<(), AllocError> {
    match read_words(alloc, words) {
        Ok(Command::Compact(settings)) => {
            text.push_str("compact\n")?;
            put_settings(text, &settings)
        }
        Ok(Command::Check { max_input }) => {
            text.push_str("check\n")?;
            put_field(text, "max-input", &max_input)
        }
        Ok(Command::Inspect { max_input }) => {
            text.push_str("inspect\n")?;
            put_field(text, "max-input", &max_input)
        }
        Ok(Command::Drill(settings)) => {
            text.push_str("drill\n")?;
            put_drill(text, &settings)
        }
        Err(WordsFault::Usage { place }) => writeln!(text, "usage {place}"),
        Err(WordsFault::NoMemory) => Err(AllocError),
    }
}
