//! Numbers of the command line.

ghost use Rattle.std.specs.Prelude.{◌≡◌, ◌^◌, ◌<◌, ◌≤◌, IfSome, MatchOption, Some};
ghost use Rattle.cd_hints.specs.Options.{Admits};
ghost use Rattle.cd_words.specs.Numbers.{has_no_leading_zero, number_of, IsIn, SaysNumber, SaysNumberIn};

use cd_hints::{Interval, NumberOption};

// Whether there is a byte, and the first of several is not a 0.
fn has_no_leading_zero(text: &[u8]) -> bool
    ensures { result ≡ has_no_leading_zero text.now }
{
    match text {
        [] => false,
        [_] => true,
        [first, ..] => *first != b'0',
    }
}

/// The number that some bytes are. A number of more than 64 bits is none.
pub fn number(text: &[u8]) -> Option<u64>
    ensures { MatchOption result (IfSome (number_of text.now) (λ n. 2 ^ 64 ≤ n)) (λ n. number_of text.now ≡ Some n) }
{
    if !has_no_leading_zero(text) {
        return None;
    }
    let mut value: u64 = 0;
    for byte in text {
        if !byte.is_ascii_digit() {
            return None;
        }
        let Some(tens) = value.checked_mul(10) else {
            return None;
        };
        let Some(next) = tens.checked_add(u64::from(*byte - b'0')) else {
            return None;
        };
        value = next;
    }
    Some(value)
}

/// The number that a word says, if the option may say it.
pub fn number_for(option: NumberOption, word: &[u8]) -> Option<u64>
    ensures { MatchOption result (¬ (SaysNumber option word.now))
        (λ n. (number_of word.now ≡ Some n) × Admits option n) }
{
    match number(word) {
        Some(number) if option.admits(number) => Some(number),
        _ => None,
    }
}

/// The number of a range that a word says.
pub fn number_in(range: Interval, word: &[u8]) -> Option<u64>
    requires { range.most < 2 ^ 64 }
    ensures { MatchOption result (¬ (SaysNumberIn range word.now))
        (λ n. (number_of word.now ≡ Some n) × IsIn range n) }
{
    match number(word) {
        Some(number) if range.holds(number) => Some(number),
        _ => None,
    }
}
