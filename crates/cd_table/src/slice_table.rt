//! A table of lists.

ghost use Rattle.std.specs.Prelude.{◌≡◌, [], OnOk, IfOk};
ghost use Rattle.std.specs.List.{position, position_or_len};
ghost use Rattle.std.specs.Cmp.Lexicographic.{pointwise};
ghost use Rattle.cd_table.specs.Interning.{put};

use cd_hash::ByteHash;
use cd_name::{Blob, List};
use indexmap::IndexSet;
use std::alloc::{AllocError, Global};
use std::hash::Hash;
use std::marker::Model;

/// Lists, each once, in the order in which they were put. Contracts see it as their list.
#[derive(Drop)]
pub struct SliceTable<T: Eq + Hash> {
    values: IndexSet<Vec<T>, ByteHash>,
    alloc: Global,
}

impl<T: Eq + Hash> Model for SliceTable<T> {
    ghost use Rattle.std.specs.Prelude.{List, map};
    ghost use Rattle.std.specs.Coded.{coded_list};

    ghost Value = { List (List T) };

    ghost coded = { coded_list (coded_list T.code) };

    ghost view = { λ t. map (λ v. v.items) t.values.keys };
}

impl<T: Copy + Eq + Hash> SliceTable<T> {
    /// A table that holds nothing.
    pub fn new(alloc: Global) -> SliceTable<T>
        ensures { result ≡ [] }
    {
        SliceTable {
            values: IndexSet::with_hasher(alloc, ByteHash::new()),
            alloc,
        }
    }

    // The index of a list in the table.
    fn index_of(&self, items: &[T]) -> Option<usize>
        ensures { result ≡ position (pointwise T.eq items.now) self.now }
    {
        self.values.get_index_of(items)
    }

    // The same of a list that is not copied.
    fn insert(&mut self, items: Vec<T>) -> Result<u64, AllocError>
        ensures table { OnOk result (self.new ≡ put (pointwise T.eq) self.old items.items) }
        ensures index { IfOk result (λ index. index ≡ position_or_len (pointwise T.eq items.items) self.old) }
    {
        match self.values.insert_full(items) {
            Ok((index, _)) => Ok(index as u64),
            Err(_) => Err(AllocError),
        }
    }

    /// The index, from 0, of a list, which is copied and put last if it is not there. An `Err` says that no memory was
    /// found.
    pub fn put(&mut self, items: &[T]) -> Result<u64, AllocError>
        ensures table { OnOk result (self.new ≡ put (pointwise T.eq) self.old items.now) }
        ensures index { IfOk result (λ index. index ≡ position_or_len (pointwise T.eq items.now) self.old) }
    {
        if let Some(index) = self.index_of(items) {
            return Ok(index as u64);
        }
        let copy = Vec::from_slice(self.alloc, items)?;
        self.insert(copy)
    }
}

impl SliceTable<u8> {
    /// The lists in their order, which are not copied.
    pub fn into_blobs(self, alloc: Global) -> Result<List<Blob>, AllocError>
        ensures { IfOk result (λ blobs. blobs ≡ self) }
    {
        let blobs = self
            .values
            .into_iter()
            .map(|bytes| Blob::from_vec(bytes))
            .collect(alloc)?;
        Ok(List::from_vec(blobs))
    }
}

impl SliceTable<u64> {
    /// The lists in their order, which are not copied.
    pub fn into_lists(self, alloc: Global) -> Result<List<List<u64>>, AllocError>
        ensures { IfOk result (λ lists. lists ≡ self) }
    {
        let lists = self
            .values
            .into_iter()
            .map(|indexes| List::from_vec(indexes))
            .collect(alloc)?;
        Ok(List::from_vec(lists))
    }
}
