//! The integer keys that were met in a map.

ghost use Rattle.std.specs.Prelude.{◌≡◌, ◌||◌, ◌∷◌, ℤ, ℕ, List, pos, not, false, OnOk, IfOk};
ghost use Rattle.cd_file.specs.ItemReading.{key_by};
ghost use Rattle.cd_file.specs.MapReading.{same_key};
ghost use Rattle.cd_file.specs.Meeting as meeting;
ghost use Rattle.cd_file.specs.Meeting.{is_kept};

use super::heads::key_of;
use cd_cbor::Integer;
use indexmap::IndexSet;
use std::alloc::{AllocError, Global};

// The keys from 0 to below it have a place. Each key that has a line is one of them.
const PLACES: usize = 64;

/// The integer keys that were met in a map. It takes memory only for keys that have no place.
#[derive(Drop)]
pub struct Met {
    low: [bool; PLACES],
    others: IndexSet<i128>,
}

// The place of a key.
fn low_place(key: Integer) -> Option<usize>
    ensures { result ≡ meeting.low_place (key_by key) }
{
    match key {
        Integer::Unsigned(n) => {
            if n < PLACES as u64 {
                Some(n as usize)
            } else {
                None
            }
        }
        Integer::Negative(_n) => None,
    }
}

impl Met {
    /// No key was met.
    pub fn new(alloc: Global) -> Met
        ensures { (key : ℤ) → is_kept result key ≡ false }
    {
        Met {
            low: [false; PLACES],
            others: IndexSet::new(alloc),
        }
    }

    /// Whether a key was met.
    pub fn is_met(&self, key: u64) -> bool
        ensures { result ≡ is_kept self.now (pos key) }
    {
        if key < PLACES as u64 {
            self.low[key as usize]
        } else {
            self.others.contains(&(key as i128))
        }
    }

    /// Keeps a key as met, and says whether it was not met before. An `Err` says that no memory was found.
    pub fn meet(&mut self, key: Integer) -> Result<bool, AllocError>
        ensures is_new { IfOk result (λ is_new. is_new ≡ not (is_kept self.old (key_by key))) }
        ensures kept { OnOk result ((other : ℤ) →
            is_kept self.new other ≡ (same_key other (key_by key) || is_kept self.old other)) }
    {
        match low_place(key) {
            Some(place) => {
                let was_met = self.low[place];
                self.low[place] = true;
                Ok(!was_met)
            }
            None => match self.others.insert_full(key_of(key)) {
                Ok((_index, is_new)) => Ok(is_new),
                Err(_refused) => Err(AllocError),
            },
        }
    }
}
