//! The options of `drill`, by the words that name them.

ghost use Rattle.std.specs.Prelude.{◌≡◌, ◌≢◌, MatchOption};
ghost use Rattle.cd_words.specs.declared.drill_option.DrillOption.{DrillOption};
ghost use Rattle.cd_words.specs.Drill.{drill_name_of, drill_range, drill_option_named};

use cd_hints::{Interval, NumberOption};

/// An option of `drill`.
#[derive(Clone, Copy, Debug, PartialEq, Eq)]
pub enum DrillOption {
    /// The number of lookups: `count` of the settings.
    Count,
    /// What the lookups are made from: `seed` of the settings.
    Seed,
    /// The number of workers: `workers` of the settings.
    Workers,
}

static DRILL_OPTIONS: [DrillOption; 3] = [
    DrillOption::Count,
    DrillOption::Seed,
    DrillOption::Workers,
];

impl DrillOption {
    /// The option with a name, if one has it.
    pub fn with_name(name: &[u8]) -> Option<DrillOption>
        ensures { MatchOption result ((option : DrillOption) → drill_name_of option ≢ name.now)
            (λ option. drill_name_of option ≡ name.now) }
    {
        DRILL_OPTIONS
            .iter()
            .copied()
            .find(|option| option.name() == name)
    }

    /// Its name on the command line, without the dashes before it.
    pub fn name(self) -> &'static [u8]
        ensures { result.now ≡ drill_name_of self }
    {
        match self {
            DrillOption::Count => b"count",
            DrillOption::Seed => b"seed",
            DrillOption::Workers => NumberOption::Workers.name(),
        }
    }

    /// The numbers that it may say.
    pub fn range(self) -> Interval
        ensures { result ≡ drill_range self }
    {
        match self {
            DrillOption::Count => Interval {
                least: 1,
                most: 200_000,
            },
            DrillOption::Seed => Interval {
                least: 0,
                most: u64::MAX,
            },
            DrillOption::Workers => NumberOption::Workers.range(),
        }
    }
}

/// The option that a word names.
pub fn named(word: &[u8]) -> Option<DrillOption>
    ensures { result ≡ drill_option_named word.now }
{
    match word.strip_prefix(b"--") {
        Some(name) => DrillOption::with_name(name),
        None => None,
    }
}
