//! The options of `compact`, by the words that name them.

ghost use Rattle.std.specs.Prelude.{◌≡◌};
ghost use Rattle.cd_words.specs.Options.{option_named};

use cd_hints::{ListOption, NumberOption};

/// An option of `compact`: one with a number, or one with a list.
#[derive(Clone, Copy, Debug, PartialEq, Eq)]
pub enum CompactOption {
    Number(NumberOption),
    Parts(ListOption),
}

/// The option that a word names.
pub fn named(word: &[u8]) -> Option<CompactOption>
    ensures { result ≡ option_named word.now }
{
    let Some(name) = word.strip_prefix(b"--") else {
        return None;
    };
    if let Some(option) = NumberOption::named(name) {
        return Some(CompactOption::Number(option));
    }
    match ListOption::named(name) {
        Some(option) => Some(CompactOption::Parts(option)),
        None => None,
    }
}
