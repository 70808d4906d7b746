//! The language of `compact`.

ghost use Rattle.std.specs.Prelude.{◌≡◌, false, IfOk, OnOk};
ghost use Rattle.std.specs.Bool.{MatchBool};
ghost use Rattle.cd_hints.specs.Validity.{IsValid};
ghost use Rattle.cd_words.specs.Options.{Says};
ghost use Rattle.cd_words.specs.Compact.{compact, with_value};

use crate::compact_option::{CompactOption, named};
use crate::language::CommandOption;
use crate::number::number_for;
use crate::parts::parts;
use crate::setting::put_parts;
use cd_hints::{Settings, default_settings};
use std::alloc::{AllocError, Global};

// Gives an option the value that a word says, and tells whether it says one. Where it says none, nothing changes.
fn put(
    alloc: Global,
    settings: &mut Settings,
    option: CompactOption,
    word: &[u8],
) -> Result<bool, AllocError>
    ensures value { IfOk result (λ says. MatchBool says
        (Says option word.now × (settings.new ≡ with_value option word.now settings.old))
        (¬ (Says option word.now))) }
    ensures unchanged { IfOk result (λ says. says ≡ false → settings.new ≡ settings.old) }
    ensures valid { IsValid settings.old → OnOk result (IsValid settings.new) }
{
    match option {
        CompactOption::Number(option) => match number_for(option, word) {
            Some(number) => {
                settings.put(option, number);
                Ok(true)
            }
            None => Ok(false),
        },
        CompactOption::Parts(option) => match parts(alloc, option.range(), word)? {
            Some(parts) => {
                put_parts(alloc, settings, option, &parts)?;
                Ok(true)
            }
            None => Ok(false),
        },
    }
}

impl CommandOption for CompactOption {
    type Settings = Settings;

    ghost language = { compact };

    ghost is_valid = { IsValid };

    fn defaults(alloc: Global) -> Result<Settings, AllocError> {
        default_settings(alloc)
    }

    fn named(word: &[u8]) -> Option<CompactOption> {
        named(word)
    }

    fn is_same(self, other: CompactOption) -> bool {
        self == other
    }

    fn put(self, alloc: Global, settings: &mut Settings, word: &[u8]) -> Result<bool, AllocError> {
        put(alloc, settings, self, word)
    }
}
