//! Reads maps.

ghost use Rattle.std.specs.Prelude.{◌≡◌, ℕ, ◌≤◌, ℤ, pos, not, List, Some, find};
ghost use Rattle.cd_cbor.specs.Spells.{most_depth};
ghost use Rattle.cd_cbor.specs.declared.item.Item.{Item};
ghost use Rattle.cd_cbor.specs.declared.item.Item.TheViews.{out-Item};
ghost use Rattle.cd_file.specs.Kinds.{integer_in};
ghost use Rattle.cd_file.specs.MapReading as maps;
ghost use Rattle.cd_file.specs.MapReading.{Line, read_by, line_of};
ghost use Rattle.cd_file.specs.Meeting.{is_kept, Keeps, Meets};
ghost use Rattle.cd_file.specs.Putting as putting;
ghost use Rattle.cd_file.specs.Putting.{map_or};
ghost use Rattle.cd_file.specs.ItemReading.{ItemAt, PairsAt, Puts, PutsItem, ReadsItem, key_by};
ghost use Rattle.cd_file.specs.declared.refusal.FileWhy.TheVariants as why;
ghost use Rattle.cd_file.specs.declared.reading.fault.ItemFault.TheVariants as fault;

use super::arrays::Kind;
use super::fault::ItemFault;
use super::heads::{ended_at, key_of, map_at, number_at, one_less};
use super::kinds::shape;
use super::met::Met;
use super::putting::passed_over;
use crate::refusal::FileWhy;
use cd_cbor::{Integer, item_end};
use std::alloc::Global;
use std::marker::PhantomData;

/// A kind of map, by what its entries are read into: a line a key.
pub trait Table {
    /// What the entries are read into.
    type Fields: Drop;

    ghost table: { List (Line Self.Fields) };

    /// The keys that a map must have, ascending.
    fn required_keys() -> &'static [u64]
        ensures { result.now ≡ putting.required_keys table };

    /// Reads the value of a key into the fields, or passes it over if the key has no line, and gives the offset behind
    /// it. What the fields are after a fault is not said.
    fn read_value(
        alloc: Global,
        bytes: &[u8],
        depth: usize,
        at: usize,
        key: u64,
        fields: &mut Self::Fields,
    ) -> Result<usize, ItemFault>
        requires { depth ≤ most_depth }
        ensures { PutsItem fields.new result depth bytes.now at (λ item. read_by (line_of table key) item fields.old) };
}

/// A kind of map whose entries are read into fields of its own.
pub trait WholeMap: Table {
    ghost initial: { Self.Fields };

    /// The fields before the first entry.
    fn initial(alloc: Global) -> Self::Fields
        ensures { result ≡ initial };
}

// The least key that a map must have and that was not met.
fn first_missing(keys: &[u64], met: &Met) -> Option<u64>
    ensures { result ≡ find (λ key. not (is_kept met.now (pos key))) keys.now }
{
    keys.iter().copied().find(|key| !met.is_met(*key))
}

// The end of a map with these keys, or the key that it does not have.
fn complete<T: Table>(met: &Met, end: usize) -> Result<usize, ItemFault>
    ensures { (keys : List ℤ) (fields : T.Fields) → Keeps met.now keys
        → Puts fields result (maps.complete (maps.first_missing T.table keys) fields) end }
{
    match first_missing(T::required_keys(), met) {
        None => Ok(end),
        Some(key) => Err(missing(key)),
    }
}

// The refusal of a map without a key.
fn missing(key: u64) -> ItemFault
    ensures { result ≡ fault.Refused (why.Missing (pos key)) }
{
    ItemFault::Refused(FileWhy::Missing(key as i128))
}

// The refusal of a key that was met before.
fn repeated(key: Integer) -> ItemFault
    ensures { result ≡ fault.Refused (why.Repeated (key_by key)) }
{
    ItemFault::Refused(FileWhy::Repeated(key_of(key)))
}

// Reads the value of an integer key into the fields; a key below 0 has no line.
fn read_value<T: Table>(
    alloc: Global,
    bytes: &[u8],
    depth: usize,
    at: usize,
    key: Integer,
    fields: &mut T::Fields,
) -> Result<usize, ItemFault>
    requires { depth ≤ most_depth }
    ensures { PutsItem fields.new result depth bytes.now at
        (λ item. maps.value_read T.table (key_by key) item fields.old) }
{
    match key {
        Integer::Unsigned(key) => T::read_value(alloc, bytes, depth, at, key, fields),
        Integer::Negative(_n) => passed_over(bytes, depth, at),
    }
}

// Reads the value of an integer key that was not met before into the fields.
fn meet_value<T: Table>(
    alloc: Global,
    bytes: &[u8],
    depth: usize,
    at: usize,
    key: Integer,
    met: &mut Met,
    fields: &mut T::Fields,
) -> Result<usize, ItemFault>
    requires { depth ≤ most_depth }
    ensures { (keys : List ℤ) (value : Item) (end : ℕ) → Keeps met.old keys → ItemAt depth bytes.now at value end
        → Meets met.new fields.new result
        (maps.entry_by T.table (Some (key_by key)) value (record { met = keys; fields = fields.old })) end }
{
    match met.meet(key) {
        Err(_refused) => Err(ItemFault::NoMemory),
        Ok(is_new) => {
            if is_new {
                read_value::<T>(alloc, bytes, depth, at, key, fields)
            } else {
                Err(repeated(key))
            }
        }
    }
}

// Reads the entry at an offset into the fields.
fn read_entry<T: Table>(
    alloc: Global,
    bytes: &[u8],
    depth: usize,
    at: usize,
    met: &mut Met,
    fields: &mut T::Fields,
) -> Result<usize, ItemFault>
    requires { depth ≤ most_depth }
    ensures { (keys : List ℤ) (pair : Item × Item) (middle end : ℕ) → Keeps met.old keys
        → ItemAt depth bytes.now at pair.0 middle → ItemAt depth bytes.now middle pair.1 end
        → Meets met.new fields.new result
        (maps.entry_by T.table (integer_in (out-Item pair.0)) pair.1 (record { met = keys; fields = fields.old })) end }
{
    match number_at(bytes, at) {
        Some((key, middle)) => meet_value::<T>(alloc, bytes, depth, middle, key, met, fields),
        None => {
            let middle = item_end(depth, bytes, at);
            passed_over(bytes, depth, middle)
        }
    }
}

// Reads the entries at an offset into the fields, so many or all up to a break.
fn read_pairs<T: Table>(
    alloc: Global,
    bytes: &[u8],
    depth: usize,
    left: Option<u64>,
    at: usize,
    fields: &mut T::Fields,
) -> Result<usize, ItemFault>
    requires { depth ≤ most_depth }
    ensures { (pairs : List (Item × Item)) (end : ℕ) → PairsAt depth bytes.now left at pairs end
        → Puts fields.new result (maps.fields_of T.table fields.old pairs) end }
{
    let mut met = Met::new(alloc);
    let mut here = at;
    let mut still = left;
    'pairs: for _ in 0..bytes.len() {
        match ended_at(bytes, still, here) {
            Some(end) => return complete::<T>(&met, end),
            None => {}
        }
        match read_entry::<T>(alloc, bytes, depth, here, &mut met, fields) {
            Err(fault) => return Err(fault),
            Ok(next) => {
                here = next;
                still = one_less(still);
            }
        }
    }
    complete::<T>(&met, here)
}

/// Reads the entries of the map at an offset into fields, and gives the offset behind it.
pub fn read_entries<T: Table>(
    alloc: Global,
    bytes: &[u8],
    depth: usize,
    at: usize,
    key: u64,
    fields: &mut T::Fields,
) -> Result<usize, ItemFault>
    requires { depth ≤ most_depth }
    ensures { PutsItem fields.new result depth bytes.now at (maps.map_from T.table fields.old (pos key)) }
{
    match map_at(bytes, at) {
        Some((left, next)) => read_pairs::<T>(
            alloc,
            bytes,
            depth.saturating_sub(1),
            left,
            next,
            fields,
        ),
        None => Err(shape(key)),
    }
}

/// The fields of the map at an offset, which stands under no key, and the offset behind it. What is no map is refused
/// so.
pub fn outer_map<T: WholeMap>(
    alloc: Global,
    bytes: &[u8],
    depth: usize,
    at: usize,
    no_map: FileWhy,
) -> Result<(T::Fields, usize), ItemFault>
    requires { depth ≤ most_depth }
    ensures { ReadsItem (λ fields. fields) result depth bytes.now at (map_or no_map T.table T.initial) }
{
    let (left, next) = match map_at(bytes, at) {
        Some(head) => head,
        None => return Err(ItemFault::Refused(no_map)),
    };
    let mut fields = T::initial(alloc);
    match read_pairs::<T>(
        alloc,
        bytes,
        depth.saturating_sub(1),
        left,
        next,
        &mut fields,
    ) {
        Ok(end) => Ok((fields, end)),
        Err(fault) => Err(fault),
    }
}

/// The fields of the map at an offset, and the offset behind it.
pub fn map_of<T: WholeMap>(
    alloc: Global,
    bytes: &[u8],
    depth: usize,
    at: usize,
    key: u64,
) -> Result<(T::Fields, usize), ItemFault>
    requires { depth ≤ most_depth }
    ensures { ReadsItem (λ fields. fields) result depth bytes.now at (maps.map_from T.table T.initial (pos key)) }
{
    let mut fields = T::initial(alloc);
    match read_entries::<T>(alloc, bytes, depth, at, key, &mut fields) {
        Ok(next) => Ok((fields, next)),
        Err(fault) => Err(fault),
    }
}

/// Maps, each read into fields of its own.
pub struct Maps<T>(PhantomData<T>);

impl<T: WholeMap> Kind for Maps<T> {
    type Value = T::Fields;

    ghost kind = { maps.map_from T.table T.initial };

    fn read(
        alloc: Global,
        bytes: &[u8],
        depth: usize,
        at: usize,
        key: u64,
    ) -> Result<(T::Fields, usize), ItemFault> {
        map_of::<T>(alloc, bytes, depth, at, key)
    }
}
