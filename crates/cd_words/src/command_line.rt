//! A command line of any command.

ghost use Rattle.std.specs.Prelude.{◌≡◌, ◌<◌, ◌≤◌, ◌↔◌, IsTrue, length, Some, MatchOption, IfOk, IfErr};
ghost use Rattle.std.specs.Bool.{Decides, MatchBool};
ghost use Rattle.cd_words.specs.CommandLines.{word_at, HasCommand, IsNamedBefore, NamesOption, HasOptions};
ghost use Rattle.cd_words.specs.CommandLines.{settings_of};
ghost use Rattle.cd_words.specs.Faults.{HasFaultIn};

use crate::fault::WordsFault;
use crate::language::CommandOption;
use cd_name::Blob;
use std::alloc::Global;

/// Whether the words begin with a command.
pub fn begins_with(words: &[Blob], command: &[u8]) -> bool
    ensures { IsTrue result ↔ HasCommand command.now words.now }
{
    match words.first() {
        Some(word) => word.as_slice() == command,
        None => false,
    }
}

// Whether a word names an option.
fn names<O: CommandOption>(word: &[u8], option: O) -> bool
    ensures { Decides result (O.language.named word.now ≡ Some option) }
{
    match O::named(word) {
        Some(other) => other.is_same(option),
        None => false,
    }
}

// Whether a name before a place names an option. Names stand at the odd places.
fn is_named_before<O: CommandOption>(words: &[Blob], place: usize, option: O) -> bool
    requires { place ≤ length words.now }
    ensures { MatchBool result (IsNamedBefore O.language words.now place option)
        (¬ (IsNamedBefore O.language words.now place option)) }
{
    let mut before = 1;
    'names: while before < place {
        let word = words[before].as_slice();
        if names::<O>(word, option) {
            return true;
        }
        before += 2;
    }
    false
}

// The option that a word names, if no name before it does.
fn option_at<O: CommandOption>(words: &[Blob], place: usize) -> Option<O>
    requires { place < length words.now }
    ensures { MatchOption result (¬ (NamesOption O.language words.now place))
        (λ option. NamesOption O.language words.now place
        × (O.language.named (word_at words.now place) ≡ Some option)) }
{
    let word = words[place].as_slice();
    let Some(option) = O::named(word) else {
        return None;
    };
    if is_named_before(words, place, option) {
        return None;
    }
    Some(option)
}

/// The settings that the options say, which stand after the command.
pub fn read_options<O: CommandOption>(
    alloc: Global,
    words: &[Blob],
) -> Result<O::Settings, WordsFault>
    requires { 0 < length words.now }
    ensures settings { IfOk result (λ settings.
        HasOptions O.language words.now × (settings ≡ settings_of O.language words.now)) }
    ensures fault { IfErr result (HasFaultIn O.language words.now) }
    ensures valid { IfOk result O.is_valid }
{
    let Ok(mut settings) = O::defaults(alloc) else {
        return Err(WordsFault::NoMemory);
    };
    let mut place = 1;
    'options: while place < words.len() {
        let Some(option) = option_at::<O>(words, place) else {
            return Err(WordsFault::Usage {
                place: place as u64,
            });
        };
        let Some(value) = words.get(place + 1) else {
            return Err(WordsFault::Usage {
                place: place as u64 + 1,
            });
        };
        match option.put(alloc, &mut settings, value.as_slice()) {
            Ok(true) => place += 2,
            Ok(false) => return Err(WordsFault::Usage {
                place: place as u64 + 1,
            }),
            Err(_) => return Err(WordsFault::NoMemory),
        }
    }
    Ok(settings)
}
