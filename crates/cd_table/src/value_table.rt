//! A table of values that are copied.

ghost use Rattle.std.specs.Prelude.{◌≡◌, [], OnOk, IfOk};
ghost use Rattle.std.specs.List.{position_or_len};
ghost use Rattle.cd_table.specs.Interning.{put};

use cd_name::List;
use indexmap::IndexSet;
use std::alloc::{AllocError, Global};
use std::hash::Hash;
use std::marker::Model;

/// Values, each once, in the order in which they were put. Contracts see it as their list.
#[derive(Drop)]
pub struct ValueTable<T: Eq + Hash> {
    values: IndexSet<T>,
}

impl<T: Eq + Hash> Model for ValueTable<T> {
    ghost use Rattle.std.specs.Prelude.{List};
    ghost use Rattle.std.specs.Coded.{coded_list};

    ghost Value = { List T };

    ghost coded = { coded_list T.code };

    ghost view = { λ t. t.values.keys };
}

impl<T: Eq + Hash + Drop> ValueTable<T> {
    /// A table that holds nothing.
    pub fn new(alloc: Global) -> ValueTable<T>
        ensures { result ≡ [] }
    {
        ValueTable {
            values: IndexSet::new(alloc),
        }
    }

    /// The index, from 0, of a value, which is put last if it is not there. An `Err` says that no memory was found.
    pub fn put(&mut self, value: T) -> Result<u64, AllocError>
        ensures table { OnOk result (self.new ≡ put T.eq self.old value) }
        ensures index { IfOk result (λ index. index ≡ position_or_len (T.eq value) self.old) }
    {
        match self.values.insert_full(value) {
            Ok((index, _)) => Ok(index as u64),
            Err(_) => Err(AllocError),
        }
    }

    /// The values, in their order.
    pub fn into_list(self, alloc: Global) -> Result<List<T>, AllocError>
        ensures { IfOk result (λ list. list ≡ self) }
    {
        let values = self.values.into_iter().collect(alloc)?;
        Ok(List::from_vec(values))
    }
}
