//! Reads arrays.

ghost use Rattle.std.specs.Prelude.{◌≡◌, ℕ, ◌+◌, ◌≤◌, length, pos, List};
ghost use Rattle.cd_cbor.specs.Spells.{most_depth};
ghost use Rattle.cd_cbor.specs.declared.item.Item.{Item};
ghost use Rattle.cd_file.specs.Kinds as kinds;
ghost use Rattle.cd_file.specs.Refusing.{Refusing};
ghost use Rattle.cd_file.specs.ItemReading.{ItemsAt, ReadsItem, Reads, Gathers};

use super::fault::ItemFault;
use super::heads::{array_at, ended_at, one_less};
use super::kinds::{shape, unsigned};
use cd_name::List;
use std::alloc::Global;

/// A kind of values, which a type stands for.
pub trait Kind {
    /// What a value is read as.
    type Value: Drop;

    ghost kind: { kinds.Kind Self.Value };

    /// The value at an offset, and the offset behind it. So many arrays, maps and tags may be open in it.
    fn read(
        alloc: Global,
        bytes: &[u8],
        depth: usize,
        at: usize,
        key: u64,
    ) -> Result<(Self::Value, usize), ItemFault>
        requires { depth ≤ most_depth }
        ensures { ReadsItem (λ v. v) result depth bytes.now at (kind (pos key)) };
}

// The values at an offset, so many or all up to a break, and the offset behind them.
fn elements<K: Kind>(
    alloc: Global,
    bytes: &[u8],
    depth: usize,
    left: Option<u64>,
    at: usize,
    key: u64,
) -> Result<(List<K::Value>, usize), ItemFault>
    requires { depth ≤ most_depth }
    ensures { (items : List Item) (end : ℕ) → ItemsAt depth bytes.now left at items end
        → Reads (λ values. values) result (kinds.each K.kind (pos key) items) end }
{
    let mut values = Vec::new(alloc);
    let mut here = at;
    let mut still = left;
    'elements: for _ in 0..bytes.len() {
        match ended_at(bytes, still, here) {
            Some(end) => return Ok((List::from_vec(values), end)),
            None => {}
        }
        match K::read(alloc, bytes, depth, here, key) {
            Err(fault) => return Err(fault),
            Ok((value, next)) => match values.push(value) {
                Ok(()) => {
                    here = next;
                    still = one_less(still);
                }
                Err(_refused) => return Err(ItemFault::NoMemory),
            },
        }
    }
    Ok((List::from_vec(values), here))
}

/// The array of values of a kind at an offset, each read under the key of the array, and the offset behind it.
#[tactic(auto, unfolding(crate::specs::Kinds::array_of))]
pub fn array_of<K: Kind>(
    alloc: Global,
    bytes: &[u8],
    depth: usize,
    at: usize,
    key: u64,
) -> Result<(List<K::Value>, usize), ItemFault>
    requires { depth ≤ most_depth }
    ensures { ReadsItem (λ values. values) result depth bytes.now at (kinds.array_of K.kind (pos key)) }
{
    let (left, next) = match array_at(bytes, at) {
        Some(head) => head,
        None => return Err(shape(key)),
    };
    elements::<K>(alloc, bytes, depth.saturating_sub(1), left, next, key)
}

/// The array of values of a kind at an offset, at least one, each read under the key of the array, and the offset
/// behind it.
pub fn filled_array_of<K: Kind>(
    alloc: Global,
    bytes: &[u8],
    depth: usize,
    at: usize,
    key: u64,
) -> Result<(List<K::Value>, usize), ItemFault>
    requires { depth ≤ most_depth }
    ensures { ReadsItem (λ values. values) result depth bytes.now at (kinds.filled_array_of K.kind (pos key)) }
{
    match array_at(bytes, at) {
        Some((left, next)) => match ended_at(bytes, left, next) {
            Some(_end) => Err(shape(key)),
            None => elements::<K>(alloc, bytes, depth.saturating_sub(1), left, next, key),
        },
        None => Err(shape(key)),
    }
}

/// Numbers from 0, of 64 bits.
pub struct Numbers;

impl Kind for Numbers {
    type Value = u64;

    ghost kind = { kinds.unsigned };

    fn read(
        _alloc: Global,
        bytes: &[u8],
        _depth: usize,
        at: usize,
        key: u64,
    ) -> Result<(u64, usize), ItemFault> {
        unsigned(bytes, at, key)
    }
}

/// Lists of numbers.
pub struct Lists;

impl Kind for Lists {
    type Value = List<u64>;

    ghost kind = { kinds.array_of kinds.unsigned };

    fn read(
        alloc: Global,
        bytes: &[u8],
        depth: usize,
        at: usize,
        key: u64,
    ) -> Result<(List<u64>, usize), ItemFault> {
        array_of::<Numbers>(alloc, bytes, depth, at, key)
    }
}
