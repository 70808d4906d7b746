//! The language of what stands after a command, as its options tell it.

ghost use Rattle.std.specs.Prelude.{◌≡◌, false, IfOk, OnOk};
ghost use Rattle.std.specs.Bool.{Decides, MatchBool};
ghost use Rattle.cd_words.specs.CommandLines.{Language};

use std::alloc::{AllocError, Global};

/// An option of a command. It tells the language of what stands after the command: which options there are, what each
/// says and what it changes.
pub trait CommandOption: Copy {
    /// What the options change.
    type Settings: Drop;

    ghost language: { Language Self Self.Settings };

    ghost is_valid: { Self.Settings → Type 0 };

    /// The settings where no option is given. An `Err` is for want of memory.
    fn defaults(alloc: Global) -> Result<Self::Settings, AllocError>
        ensures defaults { IfOk result (λ settings. settings ≡ language.defaults) }
        ensures valid { IfOk result is_valid };

    /// The option that a word names.
    fn named(word: &[u8]) -> Option<Self>
        ensures { result ≡ language.named word.now };

    /// Whether two options are the same.
    fn is_same(self, other: Self) -> bool
        ensures { Decides result (self ≡ other) };

    /// Gives the option the value that a word says, and tells whether it says one. Where it says none, nothing changes.
    /// An `Err` is for want of memory.
    fn put(
        self,
        alloc: Global,
        settings: &mut Self::Settings,
        word: &[u8],
    ) -> Result<bool, AllocError>
        ensures value { IfOk result (λ says. MatchBool says
            (language.Says self word.now × (settings.new ≡ language.with_value self word.now settings.old))
            (¬ (language.Says self word.now))) }
        ensures unchanged { IfOk result (λ says. says ≡ false → settings.new ≡ settings.old) }
        ensures valid { is_valid settings.old → OnOk result (is_valid settings.new) };
}
