//! What an option changes in settings.

ghost use Rattle.std.specs.Prelude.{◌≡◌, OnOk};
ghost use Rattle.cd_hints.specs.Validity.{IsValid};
ghost use Rattle.cd_words.specs.Compact.{with_parts};

use cd_hints::{Interval, ListOption, Settings, opcodes_of, types_of};
use std::alloc::{AllocError, Global};

/// Puts the union of parts into the field that an option stands for. An `Err` is for want of memory.
#[tactic(auto, using(crate::proofs::ValidParts::valid_parts), unfolding(crate::specs::Compact::with_parts))]
pub fn put_parts(
    alloc: Global,
    settings: &mut Settings,
    option: ListOption,
    parts: &[Interval],
) -> Result<(), AllocError>
    ensures put { OnOk result (settings.new ≡ with_parts option parts.now settings.old) }
    ensures valid { IsValid settings.old → OnOk result (IsValid settings.new) }
{
    match option {
        ListOption::Opcodes => settings.params.opcodes = opcodes_of(parts),
        ListOption::RrTypes => settings.params.rr_types = types_of(alloc, parts)?,
    }
    Ok(())
}
