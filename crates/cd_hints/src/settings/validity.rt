//! Whether settings are valid: the caller of a compaction asks it of settings that it made itself.

ghost use Rattle.std.specs.Prelude.{◌↔◌, IsTrue, IfSome, IsSomeAnd};
ghost use Rattle.std.specs.List.Sorted.{IsStrictlyIncreasing};
ghost use Rattle.cd_hints.specs.Options.{Admits};
ghost use Rattle.cd_hints.specs.Validity.{AreValidHints, AreValidPrefixes, AreValidParams, IsValid};

use crate::settings::Settings;
use crate::settings::options::NumberOption;
use cd_block::{Hints, Params};

// Whether a number that must be there is one that the option may say.
fn admits_present(option: NumberOption, number: Option<u64>) -> bool
    ensures { IsTrue result ↔ IsSomeAnd number (Admits option) }
{
    match number {
        Some(number) => option.admits(number),
        None => false,
    }
}

// Whether the bits of a prefix, if they are there, are a number that the option may say.
fn admits_bits(option: NumberOption, bits: Option<u8>) -> bool
    ensures { IsTrue result ↔ IfSome bits (Admits option) }
{
    match bits {
        Some(bits) => option.admits(u64::from(bits)),
        None => true,
    }
}

fn are_valid_hints(hints: Hints) -> bool
    ensures { IsTrue result ↔ AreValidHints hints }
{
    NumberOption::QrHints.admits(u64::from(hints.qr))
        && NumberOption::SigHints.admits(u64::from(hints.sig))
        && NumberOption::RrHints.admits(u64::from(hints.rr))
        && NumberOption::OtherHints.admits(u64::from(hints.other))
}

fn are_valid_prefixes(prefixes: &[Option<u8>; 4]) -> bool
    ensures { IsTrue result ↔ AreValidPrefixes prefixes.now }
{
    admits_bits(NumberOption::ClientPrefix4, prefixes[0])
        && admits_bits(NumberOption::ClientPrefix6, prefixes[1])
        && admits_bits(NumberOption::ServerPrefix4, prefixes[2])
        && admits_bits(NumberOption::ServerPrefix6, prefixes[3])
}

// Whether each number is below the next.
pub(crate) fn ascends(numbers: &[u16]) -> bool
    ensures { IsTrue result ↔ IsStrictlyIncreasing numbers.now }
{
    numbers.is_sorted_by(|first, second| *first < *second)
}

fn are_valid_params(params: &Params) -> bool
    ensures { IsTrue result ↔ AreValidParams params.now }
{
    NumberOption::Ticks.admits(params.ticks)
        && NumberOption::BlockItems.admits(params.max_items)
        && are_valid_hints(params.hints)
        && ascends(params.rr_types.as_slice())
        && params.flags == 0
        && are_valid_prefixes(&params.prefixes)
        && admits_present(NumberOption::QueryTimeout, params.query_ms)
        && admits_present(NumberOption::SkewTimeout, params.skew_us)
}

/// Whether settings are valid: each number is one that its option may say, both timeouts are there, no flag is set, and
/// the types ascend, each once. A prefix may be absent.
pub fn valid(settings: &Settings) -> bool
    ensures { IsTrue result ↔ IsValid settings.now }
{
    are_valid_params(&settings.params)
        && NumberOption::Window.admits(settings.window)
        && NumberOption::WindowBytes.admits(settings.window_bytes)
        && NumberOption::BlockBytes.admits(settings.block_bytes)
        && NumberOption::Port.admits(u64::from(settings.port))
        && NumberOption::Workers.admits(u64::from(settings.workers))
        && NumberOption::MaxInput.admits(settings.max_input)
}
