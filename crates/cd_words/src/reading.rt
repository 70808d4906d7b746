//! The language of `check` and of `inspect`, which both read a C-DNS file.

ghost use Rattle.std.specs.Prelude.{◌≡◌};
ghost use Rattle.cd_hints.specs.Options.{Admits};
ghost use Rattle.cd_hints.specs.declared.settings.options.NumberOption.TheVariants as number;
ghost use Rattle.cd_words.specs.Reading.{reading};

use crate::language::CommandOption;
use crate::number::number_for;
use crate::reading_option::{ReadingOption, named};
use cd_hints::NumberOption;
use std::alloc::{AllocError, Global};

impl CommandOption for ReadingOption {
    type Settings = u64;

    ghost language = { reading };

    ghost is_valid = { Admits number.MaxInput };

    fn defaults(_alloc: Global) -> Result<u64, AllocError> {
        Ok(NumberOption::MaxInput.default())
    }

    fn named(word: &[u8]) -> Option<ReadingOption> {
        named(word)
    }

    fn is_same(self, other: ReadingOption) -> bool {
        self == other
    }

    fn put(self, _alloc: Global, settings: &mut u64, word: &[u8]) -> Result<bool, AllocError> {
        match number_for(self.number_option(), word) {
            Some(number) => {
                *settings = number;
                Ok(true)
            }
            None => Ok(false),
        }
    }
}
