//! The settings of a compaction.

ghost use Rattle.std.specs.Prelude.{◌≡◌, ◌<◌, IfOk};
ghost use Rattle.cd_hints.specs.Settings.{default_settings, stored_prefix, with_number};
ghost use Rattle.cd_hints.specs.Options.{Admits};
ghost use Rattle.cd_hints.specs.Validity.{IsValid};

mod interval;
mod listing;
mod options;
pub(crate) mod validity;

use cd_block::{Hints, Params};
pub use interval::Interval;
pub use listing::{opcodes_of, types_of};
pub use options::{ListOption, NumberOption};
use std::alloc::{AllocError, Global};
pub use validity::valid;

/// The settings of a compaction: what the file says in its parameters, and the limits of the run.
#[derive(Debug, Drop)]
pub struct Settings {
    pub params: Params,
    /// Events that may wait at once.
    pub window: u64,
    /// The weight of the events that may wait at once.
    pub window_bytes: u64,
    /// The weight of the events of a block.
    pub block_bytes: u64,
    /// The port of DNS.
    pub port: u16,
    /// The number of workers.
    pub workers: u32,
    /// Bytes of the input that are read.
    pub max_input: u64,
}

// A prefix as it is stored: one of the full width is absent.
fn stored_prefix(option: NumberOption, bits: u64) -> Option<u8>
    requires { bits < 256 }
    ensures { result ≡ stored_prefix option bits }
{
    if bits == option.range().most {
        None
    } else {
        Some(bits as u8)
    }
}

impl Settings {
    /// Puts the number of an option into the field that it stands for. The option must admit it. A prefix of the full
    /// width becomes absent.
    pub fn put(&mut self, option: NumberOption, number: u64)
        requires { Admits option number }
        ensures put { self.new ≡ with_number option number self.old }
        ensures valid { IsValid self.old → IsValid self.new }
    {
        let params = &mut self.params;
        match option {
            NumberOption::Workers => self.workers = number as u32,
            NumberOption::Ticks => params.ticks = number,
            NumberOption::QueryTimeout => params.query_ms = Some(number),
            NumberOption::SkewTimeout => params.skew_us = Some(number),
            NumberOption::Window => self.window = number,
            NumberOption::WindowBytes => self.window_bytes = number,
            NumberOption::BlockItems => params.max_items = number,
            NumberOption::BlockBytes => self.block_bytes = number,
            NumberOption::QrHints => params.hints.qr = number as u32,
            NumberOption::SigHints => params.hints.sig = number as u32,
            NumberOption::RrHints => params.hints.rr = number as u8,
            NumberOption::OtherHints => params.hints.other = number as u8,
            NumberOption::ClientPrefix4 => params.prefixes[0] = stored_prefix(option, number),
            NumberOption::ClientPrefix6 => params.prefixes[1] = stored_prefix(option, number),
            NumberOption::ServerPrefix4 => params.prefixes[2] = stored_prefix(option, number),
            NumberOption::ServerPrefix6 => params.prefixes[3] = stored_prefix(option, number),
            NumberOption::Port => self.port = number as u16,
            NumberOption::MaxInput => self.max_input = number,
        }
    }
}

/// The settings where no option is given. An `Err` is for want of memory.
#[tactic(auto, using(crate::proofs::Listed::listed_below_ascends))]
pub fn default_settings(alloc: Global) -> Result<Settings, AllocError>
    ensures defaults { IfOk result (λ settings. settings ≡ default_settings) }
    ensures valid { IfOk result IsValid }
{
    let rr_types = types_of(alloc, ListOption::RrTypes.default())?;
    Ok(Settings {
        params: Params {
            ticks: NumberOption::Ticks.default(),
            max_items: NumberOption::BlockItems.default(),
            hints: Hints {
                qr: NumberOption::QrHints.default() as u32,
                sig: NumberOption::SigHints.default() as u32,
                rr: NumberOption::RrHints.default() as u8,
                other: NumberOption::OtherHints.default() as u8,
            },
            opcodes: opcodes_of(ListOption::Opcodes.default()),
            rr_types,
            flags: 0,
            prefixes: [None; 4],
            query_ms: Some(NumberOption::QueryTimeout.default()),
            skew_us: Some(NumberOption::SkewTimeout.default()),
        },
        window: NumberOption::Window.default(),
        window_bytes: NumberOption::WindowBytes.default(),
        block_bytes: NumberOption::BlockBytes.default(),
        port: NumberOption::Port.default() as u16,
        workers: NumberOption::Workers.default() as u32,
        max_input: NumberOption::MaxInput.default(),
    })
}
