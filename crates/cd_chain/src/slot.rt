ghost use Rattle.std.specs.Prelude.{◌≡◌, ◌<◌, ℕ, length, IfSome, IsSome, None, Some, slice_set, slice_index_or};
ghost use Rattle.cd_chain.specs.Links.{link_in, places_of, with_link, led_on, backed};
ghost use Rattle.cd_chain.specs.Cells.{place_cells, cell_at};
ghost use Rattle.cd_chain.specs.Contents.{values_of};
ghost use Rattle.cd_chain.specs.declared.slot.Place.TheVariants.{Used, Vacant};

use crate::link::{Link, Links, lane_link, with_lane};
use std::mem;

// What is in a slot.
#[derive(Drop)]
pub(crate) enum Place<T> {
    // The value of a slot that is used.
    Used(T),
    // A slot that is free, with the next one that is.
    Vacant(Option<u32>),
}

// A slot, with its link in each lane.
#[derive(Drop)]
pub(crate) struct Slot<T> {
    pub(crate) place: Place<T>,
    pub(crate) links: Links,
}

// The link of a slot in a lane.
pub(crate) fn link_at<T>(slots: &[Slot<T>], lane: u8, slot: usize) -> Link
    requires { slot < length slots.now }
    ensures { result ≡ link_in slots.now lane slot }
{
    lane_link(&slots[slot].links, lane)
}

// Gives a slot another link in a lane.
pub(crate) fn set_link<T>(slots: &mut [Slot<T>], lane: u8, slot: usize, link: Link)
    requires lane { lane < 3 }
    requires slot { slot < length slots.old }
    ensures links { link_in slots.new lane ≡ with_link (link_in slots.old lane) slot link }
    ensures others { (l : ℕ) → (l ≡ lane → ⊥) → link_in slots.new l ≡ link_in slots.old l }
    ensures places { places_of slots.new ≡ places_of slots.old }
{
    let links = with_lane(&slots[slot].links, lane, link);
    slots[slot].links = links;
}

// Has the slot lead on to this one, where there is one.
pub(crate) fn lead_on<T>(slots: &mut [Slot<T>], lane: u8, slot: Option<u32>, after: Option<u32>)
    requires lane { lane < 3 }
    requires slot { IfSome slot (λ s. s < length slots.old) }
    ensures links { link_in slots.new lane ≡ led_on (link_in slots.old lane) slot after }
    ensures others { (l : ℕ) → (l ≡ lane → ⊥) → link_in slots.new l ≡ link_in slots.old l }
    ensures places { places_of slots.new ≡ places_of slots.old }
{
    if let Some(s) = slot {
        let link = link_at(slots, lane, s as usize);
        set_link(slots, lane, s as usize, Link { after, ..link });
    }
}

// Has the slot lead back to this one, where there is one.
pub(crate) fn lead_back<T>(slots: &mut [Slot<T>], lane: u8, slot: Option<u32>, before: Option<u32>)
    requires lane { lane < 3 }
    requires slot { IfSome slot (λ s. s < length slots.old) }
    ensures links { link_in slots.new lane ≡ backed (link_in slots.old lane) slot before }
    ensures others { (l : ℕ) → (l ≡ lane → ⊥) → link_in slots.new l ≡ link_in slots.old l }
    ensures places { places_of slots.new ≡ places_of slots.old }
{
    if let Some(s) = slot {
        let link = link_at(slots, lane, s as usize);
        set_link(slots, lane, s as usize, Link { before, ..link });
    }
}

// The value of a used slot.
pub(crate) fn value_in<T>(slots: &[Slot<T>], slot: usize) -> &T
    requires slot { slot < length slots.now }
    requires used { IsSome (slice_index_or (values_of (places_of slots.now)) slot None) }
    ensures { slice_index_or (values_of (places_of slots.now)) slot None ≡ Some result.now }
{
    match &slots[slot].place {
        Place::Used(value) => value,
        Place::Vacant(_) => unreachable!(),
    }
}

// Puts a value into a free slot, and gives the next free one.
pub(crate) fn fill<T>(slots: &mut [Slot<T>], slot: usize, value: T) -> Option<u32>
    requires slot { slot < length slots.old }
    requires free { IsSome (cell_at (place_cells (places_of slots.old)) slot) }
    ensures next { cell_at (place_cells (places_of slots.old)) slot ≡ Some result }
    ensures links { link_in slots.new ≡ link_in slots.old }
    ensures places { places_of slots.new ≡ slice_set (places_of slots.old) slot (Used value) }
{
    match mem::replace(&mut slots[slot].place, Place::Used(value)) {
        Place::Vacant(next) => next,
        Place::Used(_) => unreachable!(),
    }
}

// Takes the value out of a used slot, which is free then and leads on to this one.
pub(crate) fn empty<T>(slots: &mut [Slot<T>], slot: usize, next: Option<u32>) -> T
    requires slot { slot < length slots.old }
    requires used { IsSome (slice_index_or (values_of (places_of slots.old)) slot None) }
    ensures value { slice_index_or (values_of (places_of slots.old)) slot None ≡ Some result }
    ensures links { link_in slots.new ≡ link_in slots.old }
    ensures places { places_of slots.new ≡ slice_set (places_of slots.old) slot (Vacant next) }
{
    match mem::replace(&mut slots[slot].place, Place::Vacant(next)) {
        Place::Used(value) => value,
        Place::Vacant(_) => unreachable!(),
    }
}
