//! What stands at an offset of well-formed bytes, by its head.

ghost use Rattle.std.specs.Prelude.{◌≡◌, ℕ};
ghost use Rattle.cd_cbor.specs.declared.item.Item.{Item};
ghost use Rattle.cd_cbor.specs.declared.item.Item.TheViews.{out-Item};
ghost use Rattle.cd_file.specs.Kinds.{unsigned_in, items_in, pairs_in};
ghost use Rattle.cd_file.specs.ReadFile as files;
ghost use Rattle.cd_file.specs.ItemReading as reading;
ghost use Rattle.cd_file.specs.ItemReading.{ItemAt, HeadOf, Views, ViewsItems, ViewsPairs};

use cd_cbor::{Integer, MajorType, argument_at, byte_at, major_type_of};

// The additional information from which on a head tells no argument (RFC 8949 3).
const NO_ARGUMENT: u8 = 28;

// The break that ends what has no definite length.
const BREAK: u8 = 0xff;

/// The head of an item.
#[derive(Clone, Copy, Debug)]
pub struct Begun {
    /// The major type.
    pub kind: MajorType,
    /// The argument, which is absent where the length is indefinite.
    pub argument: Option<u64>,
    /// The offset behind the head.
    pub next: usize,
}

// Any head, where no item stands.
fn no_head(at: usize) -> Begun {
    Begun {
        kind: MajorType::Simple,
        argument: None,
        next: at,
    }
}

/// The head of the item at an offset.
pub fn head_at(bytes: &[u8], at: usize) -> Begun
    ensures { (depth : ℕ) (item : Item) (end : ℕ) → ItemAt depth bytes.now at item end
        → HeadOf result.kind result.argument result.next depth bytes.now item end }
{
    let first = match byte_at(bytes, at) {
        Ok(first) => first,
        Err(_none) => return no_head(at),
    };
    let kind = major_type_of(first);
    let info = first % 32;
    if info >= NO_ARGUMENT {
        return Begun {
            kind,
            argument: None,
            next: at + 1,
        };
    }
    match argument_at(bytes, info, at) {
        Ok((argument, next)) => Begun {
            kind,
            argument: Some(argument),
            next,
        },
        Err(_none) => no_head(at),
    }
}

// The integer that a head tells, and the offset behind it.
fn number_of(head: Begun) -> Option<(Integer, usize)>
    ensures { result ≡ reading.number_of_head head.kind head.argument head.next }
{
    match (head.kind, head.argument) {
        (MajorType::Unsigned, Some(n)) => Some((Integer::Unsigned(n), head.next)),
        (MajorType::Negative, Some(n)) => Some((Integer::Negative(n), head.next)),
        _ => None,
    }
}

/// The integer that the item at an offset is.
pub fn number_at(bytes: &[u8], at: usize) -> Option<(Integer, usize)>
    ensures { (depth : ℕ) (item : Item) (end : ℕ) → ItemAt depth bytes.now at item end
        → Views result (reading.number_in (out-Item item)) end }
{
    let head = head_at(bytes, at);
    number_of(head)
}

// The number from 0 that a head tells, and the offset behind it.
fn unsigned_of(head: Begun) -> Option<(u64, usize)>
    ensures { result ≡ reading.unsigned_of_head head.kind head.argument head.next }
{
    match (head.kind, head.argument) {
        (MajorType::Unsigned, Some(n)) => Some((n, head.next)),
        _ => None,
    }
}

/// The number from 0 that the item at an offset is.
pub fn unsigned_at(bytes: &[u8], at: usize) -> Option<(u64, usize)>
    ensures { (depth : ℕ) (item : Item) (end : ℕ) → ItemAt depth bytes.now at item end
        → Views result (unsigned_in (out-Item item)) end }
{
    let head = head_at(bytes, at);
    unsigned_of(head)
}

// How many items the array of a head has, if its length is definite, and the offset behind it.
fn items_of(head: Begun) -> Option<(Option<u64>, usize)>
    ensures { result ≡ reading.items_of_head head.kind head.argument head.next }
{
    match head.kind {
        MajorType::Array => Some((head.argument, head.next)),
        _ => None,
    }
}

/// How many items the array at an offset has, if its length is definite, and the offset behind its head.
pub fn array_at(bytes: &[u8], at: usize) -> Option<(Option<u64>, usize)>
    ensures { (depth : ℕ) (item : Item) (end : ℕ) → ItemAt depth bytes.now at item end
        → ViewsItems result (items_in (out-Item item)) depth bytes.now end }
{
    let head = head_at(bytes, at);
    items_of(head)
}

// How many pairs the map of a head has, if its length is definite, and the offset behind it.
fn pairs_of(head: Begun) -> Option<(Option<u64>, usize)>
    ensures { result ≡ reading.pairs_of_head head.kind head.argument head.next }
{
    match head.kind {
        MajorType::Map => Some((head.argument, head.next)),
        _ => None,
    }
}

/// How many pairs the map at an offset has, if its length is definite, and the offset behind its head.
pub fn map_at(bytes: &[u8], at: usize) -> Option<(Option<u64>, usize)>
    ensures { (depth : ℕ) (item : Item) (end : ℕ) → ItemAt depth bytes.now at item end
        → ViewsPairs result (pairs_in (out-Item item)) depth bytes.now end }
{
    let head = head_at(bytes, at);
    pairs_of(head)
}

/// An integer as a signed number of 64 bits, if it is in that range.
pub fn signed_of(n: Integer) -> Option<i64>
    ensures { result ≡ reading.signed_by n }
{
    match n {
        Integer::Unsigned(n) => { if n < 1 << 63 { Some(n as i64) } else { None } }
        Integer::Negative(n) => {
            if n < 1 << 63 {
                Some(-1 - n as i64)
            } else {
                None
            }
        }
    }
}

/// An integer as a key.
pub fn key_of(n: Integer) -> i128
    ensures { result ≡ reading.key_by n }
{
    match n {
        Integer::Unsigned(n) => n as i128,
        Integer::Negative(n) => -1 - n as i128,
    }
}

/// Where items end, if the offset is their end: so many are left, or all up to a break.
pub fn ended_at(bytes: &[u8], left: Option<u64>, at: usize) -> Option<usize>
    ensures { result ≡ reading.ended_at left bytes.now at }
{
    match left {
        Some(n) => { if n == 0 { Some(at) } else { None } }
        None => {
            if at < bytes.len() && bytes[at] == BREAK {
                Some(at + 1)
            } else {
                None
            }
        }
    }
}

/// How many items are left after one more, where their number is known.
pub fn one_less(left: Option<u64>) -> Option<u64>
    ensures { result ≡ files.one_less left }
{
    match left {
        Some(n) => Some(n.saturating_sub(1)),
        None => None,
    }
}
