//! A copy of settings.

ghost use Rattle.std.specs.Prelude.{◌≡◌, IfOk};

use cd_block::Params;
use cd_hints::Settings;
use cd_name::List;
use std::alloc::{AllocError, Global};

fn params_copy(alloc: Global, params: &Params) -> Result<Params, AllocError>
    ensures { IfOk result (λ copy. copy ≡ params.now) }
{
    let prefixes = params.prefixes;
    Ok(Params {
        ticks: params.ticks,
        max_items: params.max_items,
        hints: params.hints,
        opcodes: params.opcodes,
        rr_types: List::from_vec(Vec::from_slice(alloc, params.rr_types.as_slice())?),
        flags: params.flags,
        prefixes,
        query_ms: params.query_ms,
        skew_us: params.skew_us,
    })
}

/// The same settings.
pub(crate) fn copy_of(alloc: Global, settings: &Settings) -> Result<Settings, AllocError>
    ensures { IfOk result (λ copy. copy ≡ settings.now) }
{
    Ok(Settings {
        params: params_copy(alloc, &settings.params)?,
        window: settings.window,
        window_bytes: settings.window_bytes,
        block_bytes: settings.block_bytes,
        port: settings.port,
        workers: settings.workers,
        max_input: settings.max_input,
    })
}
