ghost use Rattle.std.specs.Prelude.{◌≡◌, ◌<◌, ◌≤◌, ◌+◌, ◌^◌, ℕ, Some, None, IsSome, IfSome, IfOk, OnOk, OnErr, [], length, slice_get, slice_index_or};
ghost use Rattle.cd_chain.specs.Contents.{value_at, used_slots, list_at, list_count, slots_of, after_in, StandsIn};
ghost use Rattle.cd_chain.specs.Lists.{InList, gone_from, put_last_in, in_lane};
ghost use Rattle.cd_chain.specs.Calls.{ChangesLists, KeepsLists, KeepsValues, PutsValue, TakesValue, AddsList, DropsList};

use crate::chain::{put_in_lists, take_out, take_out_of_all};
use crate::lane::{Lanes, add_row, drop_row, ends_of, no_lists, rows_in};
use crate::slot::{Slot, empty, fill, link_at, value_in};
use crate::spare::add_spare;
use std::alloc::{AllocError, Global};
use std::marker::Model;

/// Values in numbered slots, each of which stands in at most one list of each of the lanes 0 to 2. A clause sees it as
/// its `Contents`.
#[derive(Drop)]
pub struct Store<T> {
    slots: Vec<Slot<T>>,
    lanes: Lanes,
    // The free slot that is used next, and how many are free.
    free: Option<u32>,
    spare: u32,
}

impl<T> Model for Store<T> {
    ghost use Rattle.cd_chain.specs.Contents.{Contents, contents_code, seen_of};
    ghost use Rattle.cd_chain.specs.Lanes.{rows_in, free_in};
    ghost use Rattle.cd_chain.specs.Holds.{Holds};

    ghost Value = { Contents T };

    ghost coded = { contents_code T.code };

    ghost view = { λ a. seen_of a.slots.items a.lanes a.spare };

    ghost invariant = { λ a. Holds a.slots.items (rows_in a.lanes) (free_in a.lanes) a.free a.spare };
}

impl<T> Store<T> {
    /// A store with no slots and no lists, which takes its memory from this allocator.
    pub fn new(alloc: Global) -> Store<T>
        ensures { result ≡ record { values = []; spare = 0; first = []; second = []; third = [] } }
    {
        Store {
            slots: Vec::new(alloc),
            lanes: Lanes {
                first: no_lists(alloc),
                second: no_lists(alloc),
                third: no_lists(alloc),
            },
            free: None,
            spare: 0,
        }
    }

    /// Makes slots until at least this many are spare. Where memory is wanting, nothing has changed.
    pub fn reserve(&mut self, count: u32) -> Result<(), AllocError>
        requires { used_slots self.old + count < 2 ^ 31 }
        ensures room { OnOk result (count ≤ self.new.spare) }
        ensures kept { self.old.spare ≤ self.new.spare }
        ensures values { KeepsValues self.old self.new }
        ensures lists { KeepsLists self.old self.new }
        ensures err { OnErr result (self.new ≡ self.old) }
    {
        let missing = count.saturating_sub(self.spare);
        self.slots.reserve(missing as usize)?;
        self.free = add_spare(&mut self.slots, self.free, missing);
        self.spare += missing;
        Ok(())
    }

    /// The number of slots that are spare.
    pub fn spare_slots(&self) -> u32
        ensures { result ≡ self.now.spare }
    {
        self.spare
    }

    /// Adds a list without slots to a lane, and gives its number, which may be that of a list that was dropped. Where
    /// memory is wanting, nothing has changed.
    pub fn add_list(&mut self, lane: u8) -> Result<u32, AllocError>
        requires lane { lane < 3 }
        requires room { list_count self.old lane < 2 ^ 31 }
        ensures ok { IfOk result (λ list. AddsList self.old self.new lane list) }
        ensures values { self.new.values ≡ self.old.values }
        ensures spare { self.new.spare ≡ self.old.spare }
        ensures err { OnErr result (self.new ≡ self.old) }
    {
        add_row(&mut self.lanes, lane)
    }

    /// Drops a list that has no slots. Its number may be given out again.
    pub fn drop_list(&mut self, lane: u8, list: u32)
        requires { list_at self.old lane list ≡ Some [] }
        ensures lists { DropsList self.old self.new lane list }
        ensures values { self.new.values ≡ self.old.values }
        ensures spare { self.new.spare ≡ self.old.spare }
    {
        drop_row(&mut self.lanes, lane, list);
    }

    /// Puts a value into a spare slot and gives the slot's number. The slot comes last in the list that is named for
    /// each lane.
    pub fn put_reserved(&mut self, value: T, lists: [Option<u32>; 3]) -> u32
        requires spare { 0 < self.old.spare }
        requires there { (l : ℕ) → l < 3 →
            IfSome (slice_index_or lists l None) (λ k. IsSome (list_at self.old l k)) }
        ensures values { PutsValue self.old self.new result value }
        ensures lists { ChangesLists self.old self.new
            (λ l k. put_last_in (slice_index_or lists l None) result k) }
        ensures spare { self.new.spare + 1 ≡ self.old.spare }
    {
        let slot = self.free.unwrap();
        self.free = fill(&mut self.slots, slot as usize, value);
        self.spare -= 1;
        put_in_lists(&mut self.slots, &mut self.lanes, slot, lists);
        slot
    }

    /// The first slot of a list, or None where it is empty. The slot is used.
    pub fn first(&self, lane: u8, list: u32) -> Option<u32>
        requires { IsSome (list_at self.now lane list) }
        ensures first { result ≡ slice_get (slots_of (list_at self.now lane list)) 0 }
        ensures used { IfSome result (λ s. IsSome (value_at self.now s)) }
    {
        let ends = ends_of(rows_in(&self.lanes, lane), list as usize);
        ends.first
    }

    /// The slot after this one in its list of a lane, or None after the last. The slot is used.
    pub fn next(&self, lane: u8, slot: u32) -> Option<u32>
        requires { StandsIn self.now lane slot }
        ensures next { (k : ℕ) → InList (list_at self.now lane k) slot →
            result ≡ after_in slot (slots_of (list_at self.now lane k)) }
        ensures used { IfSome result (λ s. IsSome (value_at self.now s)) }
    {
        let link = link_at(&self.slots, lane, slot as usize);
        link.after
    }

    /// The value of a used slot.
    pub fn get(&self, slot: u32) -> &T
        requires { IsSome (value_at self.now slot) }
        ensures { value_at self.now slot ≡ Some result.now }
    {
        value_in(&self.slots, slot as usize)
    }

    /// Takes a slot out of its list in a lane. The others stay in their order, and the slot keeps its value.
    pub fn unlink(&mut self, lane: u8, slot: u32)
        requires { StandsIn self.old lane slot }
        ensures lists { ChangesLists self.old self.new (in_lane lane (λ k. gone_from slot)) }
        ensures values { self.new.values ≡ self.old.values }
        ensures spare { self.new.spare ≡ self.old.spare }
    {
        take_out(&mut self.slots, &mut self.lanes, lane, slot as usize);
    }

    /// Takes a slot out of all its lists, gives its value and leaves the slot spare. The others stay in their order.
    pub fn remove(&mut self, slot: u32) -> T
        requires { IsSome (value_at self.old slot) }
        ensures values { TakesValue self.old self.new slot result }
        ensures lists { ChangesLists self.old self.new (λ l k. gone_from slot) }
        ensures spare { self.new.spare ≡ self.old.spare + 1 }
    {
        take_out_of_all(&mut self.slots, &mut self.lanes, slot as usize);
        let value = empty(&mut self.slots, slot as usize, self.free);
        self.free = Some(slot);
        self.spare += 1;
        value
    }
}
