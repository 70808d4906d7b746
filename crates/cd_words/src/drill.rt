//! The language of `drill`.

ghost use Rattle.std.specs.Prelude.{◌≡◌};
ghost use Rattle.cd_words.specs.Drill.{drill, drill_range, drill_with_number, IsValidDrill};
ghost use Rattle.cd_words.specs.Numbers.{IsIn};

use crate::drill_option::{DrillOption, named};
use crate::language::CommandOption;
use crate::number::number_in;
use cd_hints::NumberOption;
use std::alloc::{AllocError, Global};

/// The settings of a drill.
#[derive(Clone, Copy, Debug, PartialEq, Eq)]
pub struct DrillSettings {
    /// The number of lookups.
    pub count: u64,
    /// What the lookups are made from.
    pub seed: u64,
    /// The number of workers.
    pub workers: u32,
}

impl DrillSettings {
    // Puts the number of an option into the field that it stands for. The option must be one that may say it.
    fn put(&mut self, option: DrillOption, number: u64)
        requires { IsIn (drill_range option) number }
        ensures put { self.new ≡ drill_with_number option number self.old }
        ensures valid { IsValidDrill self.old → IsValidDrill self.new }
    {
        match option {
            DrillOption::Count => self.count = number,
            DrillOption::Seed => self.seed = number,
            DrillOption::Workers => self.workers = number as u32,
        }
    }
}

impl CommandOption for DrillOption {
    type Settings = DrillSettings;

    ghost language = { drill };

    ghost is_valid = { IsValidDrill };

    fn defaults(_alloc: Global) -> Result<DrillSettings, AllocError> {
        Ok(DrillSettings {
            count: 1000,
            seed: 1,
            workers: NumberOption::Workers.default() as u32,
        })
    }

    fn named(word: &[u8]) -> Option<DrillOption> {
        named(word)
    }

    fn is_same(self, other: DrillOption) -> bool {
        self == other
    }

    fn put(
        self,
        _alloc: Global,
        settings: &mut DrillSettings,
        word: &[u8],
    ) -> Result<bool, AllocError> {
        match number_in(self.range(), word) {
            Some(number) => {
                settings.put(self, number);
                Ok(true)
            }
            None => Ok(false),
        }
    }
}
