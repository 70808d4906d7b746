//! The options of `check` and `inspect`, by the words that name them.

ghost use Rattle.std.specs.Prelude.{◌≡◌};
ghost use Rattle.cd_words.specs.Reading.{number_option, reading_option_named};

use cd_hints::NumberOption;

/// An option of `check` and `inspect`.
#[derive(Clone, Copy, Debug, PartialEq, Eq)]
pub enum ReadingOption {
    /// Bytes of the input that are read.
    MaxInput,
}

impl ReadingOption {
    /// The option of `compact` with its name, its range and its default.
    pub fn number_option(self) -> NumberOption
        ensures { result ≡ number_option self }
    {
        match self {
            ReadingOption::MaxInput => NumberOption::MaxInput,
        }
    }
}

/// The option that a word names.
pub fn named(word: &[u8]) -> Option<ReadingOption>
    ensures { result ≡ reading_option_named word.now }
{
    let option = ReadingOption::MaxInput;
    match word.strip_prefix(b"--") {
        Some(name) if name == option.number_option().name() => Some(option),
        _ => None,
    }
}
