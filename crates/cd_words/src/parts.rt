//! Lists of the command line: their parts.

ghost use Rattle.std.specs.Prelude.{◌≡◌, ◌∷◌, [], ◌==◌, ◌<◌, ◌≤◌, ◌^◌, length, IfOk, IfSome, is_some, MatchOption};
ghost use Rattle.std.specs.Prelude.{if◌then◌else◌, Some, None};
ghost use Rattle.std.specs.Option.{option_map, option_map_or};
ghost use Rattle.std.specs.List.{list_any, before_first, after_first, slice_split};
ghost use Rattle.cd_hints.specs.Options.{between};
ghost use Rattle.cd_words.specs.Numbers.{number_of};
ghost use Rattle.cd_words.specs.Parts.{is_within, part_of, parts_of};

use crate::number::number;
use cd_hints::Interval;
use std::alloc::{AllocError, Global};

// What stands before the first such byte, and what stands after it if there is one.
fn cut(text: &[u8], at: u8) -> (&[u8], Option<&[u8]>)
    ensures before { result.0.now ≡ before_first (λ b. b == at) text.now }
    ensures found { is_some result.1 ≡ list_any (λ b. b == at) text.now }
    ensures after { IfSome result.1 (λ rest. rest.now ≡ after_first (λ b. b == at) text.now) }
    ensures shorter { IfSome result.1 (λ rest. length rest.now < length text.now) }
    ensures split { slice_split (λ b. b == at) text.now ≡ result.0.now
        ∷ option_map_or (λ rest. slice_split (λ b. b == at) rest.now) result.1 [] }
{
    match text.iter().position(|byte| *byte == at) {
        Some(index) => (&text[..index], Some(&text[index + 1..])),
        None => (text, None),
    }
}

// The numbers from one to another, if there is one and all lie in the range.
fn interval(range: Interval, least: u64, most: u64) -> Option<Interval>
    ensures { result ≡ (if is_within range (between least most) then Some (between least most) else None) }
{
    (least <= most && range.least <= least && most <= range.most).then_some(Interval {
        least,
        most,
    })
}

// The numbers that a part holds, if all of them lie in the range.
fn part(range: Interval, text: &[u8]) -> Option<Interval>
    requires { range.most < 2 ^ 64 }
    ensures { result ≡ part_of range text.now }
{
    let (before, after) = cut(text, b'-');
    let Some(least) = number(before) else {
        return None;
    };
    let Some(after) = after else {
        return interval(range, least, least);
    };
    match number(after) {
        Some(most) => interval(range, least, most),
        None => None,
    }
}

/// The parts of a list, if each holds numbers of the range. An `Err` is for want of memory.
pub fn parts(
    alloc: Global,
    range: Interval,
    text: &[u8],
) -> Result<Option<Vec<Interval>>, AllocError>
    ensures { IfOk result (λ parts. option_map (λ v. v.items) parts ≡ parts_of range text.now) }
{
    let mut parts = Vec::new(alloc);
    let mut rest = text;
    'parts: loop {
        let (before, after) = cut(rest, b',');
        let Some(part) = part(range, before) else {
            return Ok(None);
        };
        parts.push(part)?;
        match after {
            Some(after) => rest = after,
            None => return Ok(Some(parts)),
        }
    }
}
