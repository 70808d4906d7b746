ghost use Rattle.std.specs.Prelude.{◌≡◌, ◌<◌, ℕ, length, None, Some, IfSome, slice_index_or};
ghost use Rattle.cd_chain.specs.Lanes.{rows_in, free_in, row_at};
ghost use Rattle.cd_chain.specs.Links.{link_in, places_of, first_past};
ghost use Rattle.cd_chain.specs.Chains.{or_else};
ghost use Rattle.cd_chain.specs.Lists.{AreLists, IsThere, Relinked, Relinks, in_lane, gone_from, put_in, put_last_in};

use crate::lane::{Ends, Lanes, Row, ends_of, rows_in, set_row};
use crate::link::{Link, NO_LINK};
use crate::slot::{Slot, lead_back, lead_on, link_at, set_link};

// What is first, or last, when a slot goes that has this neighbour on that side and that one on the other.
fn first_past(end: Option<u32>, here: Option<u32>, there: Option<u32>) -> Option<u32>
    ensures { result ≡ first_past end here there }
{
    match here {
        None => there,
        Some(_) => end,
    }
}

// What is first when this slot comes last.
fn or_else(slot: u32, first: Option<u32>) -> Option<u32>
    ensures { result ≡ or_else slot first }
{
    match first {
        None => Some(slot),
        Some(_) => first,
    }
}

// Takes a slot out of the list that it stands in.
fn take_out_of<T>(slots: &mut [Slot<T>], lanes: &mut Lanes, lane: u8, slot: usize, list: usize)
    requires lane { lane < 3 }
    requires slot { slot < length slots.old }
    requires list { (link_in slots.old lane slot).list ≡ Some list }
    requires lists { AreLists (link_in slots.old lane) (length slots.old) (rows_in lanes.old lane) }
    ensures lists { Relinked (link_in slots.old lane) (link_in slots.new lane) (length slots.old) slot
        (rows_in lanes.old lane) (rows_in lanes.new lane) (λ k. gone_from slot) }
    ensures out { (link_in slots.new lane slot).list ≡ None }
    ensures others { (l : ℕ) → (l ≡ lane → ⊥) → link_in slots.new l ≡ link_in slots.old l }
    ensures other_rows { (l : ℕ) → (l ≡ lane → ⊥) → rows_in lanes.new l ≡ rows_in lanes.old l }
    ensures places { places_of slots.new ≡ places_of slots.old }
    ensures free { (l : ℕ) → free_in lanes.new l ≡ free_in lanes.old l }
{
    let link = link_at(slots, lane, slot);
    let ends = ends_of(rows_in(lanes, lane), list);
    lead_on(slots, lane, link.before, link.after);
    lead_back(slots, lane, link.after, link.before);
    set_link(slots, lane, slot, NO_LINK);
    let row = Row::There(Ends {
        first: first_past(ends.first, link.before, link.after),
        last: first_past(ends.last, link.after, link.before),
    });
    set_row(lanes, lane, list, row);
}

// Takes a slot out of its list in a lane, where it stands in one.
pub(crate) fn take_out<T>(slots: &mut [Slot<T>], lanes: &mut Lanes, lane: u8, slot: usize)
    requires lane { lane < 3 }
    requires slot { slot < length slots.old }
    requires lists { (l : ℕ) → AreLists (link_in slots.old l) (length slots.old) (rows_in lanes.old l) }
    ensures lists { Relinks (link_in slots.old) (link_in slots.new) (length slots.old) slot
        (rows_in lanes.old) (rows_in lanes.new) (in_lane lane (λ k. gone_from slot)) }
    ensures out { (link_in slots.new lane slot).list ≡ None }
    ensures others { (l : ℕ) → (l ≡ lane → ⊥) → link_in slots.new l ≡ link_in slots.old l }
    ensures places { places_of slots.new ≡ places_of slots.old }
    ensures free { (l : ℕ) → free_in lanes.new l ≡ free_in lanes.old l }
{
    let link = link_at(slots, lane, slot);
    if let Some(list) = link.list {
        take_out_of(slots, lanes, lane, slot, list as usize);
    }
}

// Takes a slot out of all its lists.
pub(crate) fn take_out_of_all<T>(slots: &mut [Slot<T>], lanes: &mut Lanes, slot: usize)
    requires slot { slot < length slots.old }
    requires lists { (l : ℕ) → AreLists (link_in slots.old l) (length slots.old) (rows_in lanes.old l) }
    ensures lists { Relinks (link_in slots.old) (link_in slots.new) (length slots.old) slot
        (rows_in lanes.old) (rows_in lanes.new) (λ l k. gone_from slot) }
    ensures out { (l : ℕ) → (link_in slots.new l slot).list ≡ None }
    ensures places { places_of slots.new ≡ places_of slots.old }
    ensures free { (l : ℕ) → free_in lanes.new l ≡ free_in lanes.old l }
{
    take_out(slots, lanes, 0, slot);
    take_out(slots, lanes, 1, slot);
    take_out(slots, lanes, 2, slot);
}

// Puts a slot that stands in no list of a lane last in one of them.
fn put_last<T>(slots: &mut [Slot<T>], lanes: &mut Lanes, lane: u8, slot: u32, list: u32)
    requires lane { lane < 3 }
    requires slot { slot < length slots.old }
    requires there { IsThere (row_at (rows_in lanes.old lane) list) }
    requires out { (link_in slots.old lane slot).list ≡ None }
    requires lists { AreLists (link_in slots.old lane) (length slots.old) (rows_in lanes.old lane) }
    ensures lists { Relinked (link_in slots.old lane) (link_in slots.new lane) (length slots.old) slot
        (rows_in lanes.old lane) (rows_in lanes.new lane) (put_in list slot) }
    ensures others { (l : ℕ) → (l ≡ lane → ⊥) → link_in slots.new l ≡ link_in slots.old l }
    ensures other_rows { (l : ℕ) → (l ≡ lane → ⊥) → rows_in lanes.new l ≡ rows_in lanes.old l }
    ensures places { places_of slots.new ≡ places_of slots.old }
    ensures free { (l : ℕ) → free_in lanes.new l ≡ free_in lanes.old l }
{
    let ends = ends_of(rows_in(lanes, lane), list as usize);
    let link = Link {
        list: Some(list),
        before: ends.last,
        after: None,
    };
    set_link(slots, lane, slot as usize, link);
    lead_on(slots, lane, ends.last, Some(slot));
    let row = Row::There(Ends {
        first: or_else(slot, ends.first),
        last: Some(slot),
    });
    set_row(lanes, lane, list as usize, row);
}

// Puts a slot last in the list of a lane that is named, if one is.
fn put_in<T>(slots: &mut [Slot<T>], lanes: &mut Lanes, lane: u8, slot: u32, list: Option<u32>)
    requires lane { lane < 3 }
    requires slot { slot < length slots.old }
    requires there { IfSome list (λ k. IsThere (row_at (rows_in lanes.old lane) k)) }
    requires out { (link_in slots.old lane slot).list ≡ None }
    requires lists { (l : ℕ) → AreLists (link_in slots.old l) (length slots.old) (rows_in lanes.old l) }
    ensures lists { Relinks (link_in slots.old) (link_in slots.new) (length slots.old) slot
        (rows_in lanes.old) (rows_in lanes.new) (in_lane lane (put_last_in list slot)) }
    ensures others { (l : ℕ) → (l ≡ lane → ⊥) → link_in slots.new l ≡ link_in slots.old l }
    ensures other_rows { (l : ℕ) → (l ≡ lane → ⊥) → rows_in lanes.new l ≡ rows_in lanes.old l }
    ensures places { places_of slots.new ≡ places_of slots.old }
    ensures free { (l : ℕ) → free_in lanes.new l ≡ free_in lanes.old l }
{
    if let Some(k) = list {
        put_last(slots, lanes, lane, slot, k);
    }
}

// Puts a slot that stands in no list last in the list that is named for each lane.
pub(crate) fn put_in_lists<T>(
    slots: &mut [Slot<T>],
    lanes: &mut Lanes,
    slot: u32,
    lists: [Option<u32>; 3],
)
    requires slot { slot < length slots.old }
    requires there { (l : ℕ) → l < 3 →
        IfSome (slice_index_or lists l None) (λ k. IsThere (row_at (rows_in lanes.old l) k)) }
    requires out { (l : ℕ) → (link_in slots.old l slot).list ≡ None }
    requires lists { (l : ℕ) → AreLists (link_in slots.old l) (length slots.old) (rows_in lanes.old l) }
    ensures lists { Relinks (link_in slots.old) (link_in slots.new) (length slots.old) slot
        (rows_in lanes.old) (rows_in lanes.new) (λ l. put_last_in (slice_index_or lists l None) slot) }
    ensures places { places_of slots.new ≡ places_of slots.old }
    ensures free { (l : ℕ) → free_in lanes.new l ≡ free_in lanes.old l }
{
    put_in(slots, lanes, 0, slot, lists[0]);
    put_in(slots, lanes, 1, slot, lists[1]);
    put_in(slots, lanes, 2, slot, lists[2]);
}
