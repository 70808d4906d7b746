ghost use Rattle.std.specs.Prelude.{◌≡◌, ◌<◌, ◌≤◌, ◌+◌, ℕ, length, slice_set, [], ◌∷◌, ◌++◌};
ghost use Rattle.std.specs.VecDeque.{deque_len, deque_capacity};
ghost use Rattle.std.specs.Prelude.{Some, None, IsSome, MatchOption, nat_lt, is_none, ◌&&◌};
ghost use Rattle.cd_window.specs.Places.{place_at, IsAmong, HoldsNext};
ghost use Rattle.cd_window.specs.declared.released.Released.TheVariants.{One};
ghost use Rattle.cd_window.specs.Pops.{in_order};
ghost use Rattle.cd_window.specs.Places.{Dropped, Trims, Takes};
ghost use Rattle.cd_window.specs.Keeping.{IsMated};
ghost use Rattle.cd_window.specs.Pushes.{with_partner};

use crate::Released;
use crate::held::Held;
use crate::released::in_order;
use crate::stamps::Stamp;
use cd_pairing::Keyed;
use std::collections::VecDeque;

// What is held at a place.
#[tactic(auto, using(crate::proofs::AtPlaces::item_at, crate::proofs::AtPlaces::nothing_at))]
pub(crate) fn held_at<E>(places: &VecDeque<Option<Held<E>>>, k: usize) -> Option<&Held<E>>
    ensures { MatchOption result
        (place_at places.now.items k ≡ None) (λ h. place_at places.now.items k ≡ Some h.now) }
{
    match places.get(k) {
        Some(Some(held)) => Some(held),
        Some(None) => None,
        None => None,
    }
}

// Takes what is held at a place out of it.
fn take_at<E>(places: &mut VecDeque<Option<Held<E>>>, k: usize) -> Option<Held<E>>
    requires { k < length places.old.items }
    ensures result { result ≡ place_at places.old.items k }
    ensures places { places.new.items ≡ slice_set places.old.items k None }
{
    places[k].take()
}

// Notes the partner of what is held at a place.
#[tactic(auto, using(crate::proofs::AtPlaces::set_again))]
fn set_partner<E: Drop>(places: &mut VecDeque<Option<Held<E>>>, k: usize, partner: u64)
    requires within { k < length places.old.items }
    requires there { IsSome (place_at places.old.items k) }
    ensures { (h : _) → place_at places.old.items k ≡ Some h →
        places.new.items ≡ slice_set places.old.items k (Some (with_partner h partner)) }
{
    match take_at(places, k) {
        Some(held) => {
            let paired = Held {
                event: held.event,
                clock: held.clock,
                weight_sum: held.weight_sum,
                partner: Some(partner),
            };
            places[k] = Some(paired);
        }
        None => unreachable!(),
    }
}

// Holds one event more, for which there is room.
fn push_held<E: Drop>(places: &mut VecDeque<Option<Held<E>>>, held: Held<E>)
    requires { deque_len places.old < deque_capacity places.old }
    ensures { places.new.items ≡ places.old.items ++ Some held ∷ [] }
{
    match places.push_back(Some(held)) {
        Ok(()) => {}
        Err(_) => unreachable!(),
    }
}

// Holds the next event, for which there is room, with the partner that it has met.
pub(crate) fn hold_next<E: Drop>(
    first: u64,
    places: &mut VecDeque<Option<Held<E>>>,
    event: E,
    next: Stamp,
    met: Option<u64>,
)
    requires room { deque_len places.old < deque_capacity places.old }
    requires among { IsAmong first places.old.items met }
    ensures { HoldsNext first places.old.items event next met places.new.items }
{
    let held = Held {
        event,
        clock: next.clock,
        weight_sum: next.weight_sum,
        partner: met,
    };
    push_held(places, held);
    if let Some(position) = met {
        set_partner(places, (position - first) as usize, next.index);
    }
}

// The record of the front, which is taken out of its place, and its partner out of that one's.
pub(crate) fn take_front<E: Keyed>(
    first: u64,
    places: &mut VecDeque<Option<Held<E>>>,
) -> Released<E>
    requires some { IsSome (place_at places.old.items 0) }
    requires mated { (j : ℕ) (h : _) → place_at places.old.items 0 ≡ Some h →
        h.partner ≡ Some j → IsMated first places.old.items 0 j }
    ensures { Takes E.view first places.old.items result places.new.items }
{
    let partner = match held_at(places, 0) {
        Some(front) => front.partner,
        None => unreachable!(),
    };
    match partner {
        None => take_alone(first, places),
        Some(j) => take_pair(first, (j - first) as usize, places),
    }
}

// The front as a record of its own.
fn take_alone<E>(first: u64, places: &mut VecDeque<Option<Held<E>>>) -> Released<E>
    requires some { IsSome (place_at places.old.items 0) }
    requires within { 0 < length places.old.items }
    ensures { (h : _) → place_at places.old.items 0 ≡ Some h →
        (result ≡ One first h.event) × (places.new.items ≡ slice_set places.old.items 0 None) }
{
    match take_at(places, 0) {
        Some(front) => Released::One {
            lead: first,
            event: front.event,
        },
        None => unreachable!(),
    }
}

// The front and what is held at a later place as one record.
fn take_pair<E: Keyed>(
    first: u64,
    place: usize,
    places: &mut VecDeque<Option<Held<E>>>,
) -> Released<E>
    requires some { IsSome (place_at places.old.items 0) }
    requires other { IsSome (place_at places.old.items place) }
    requires within { place < length places.old.items }
    requires apart { 0 < place }
    ensures { (h : _) (o : _) → place_at places.old.items 0 ≡ Some h →
        place_at places.old.items place ≡ Some o →
        (result ≡ in_order (E.view h.event).side first h.event o.event)
        × (places.new.items ≡ slice_set (slice_set places.old.items place None) 0 None) }
{
    let other = take_at(places, place);
    let front = take_at(places, 0);
    match (front, other) {
        (Some(front), Some(other)) => in_order(first, front.event, other.event),
        _ => unreachable!(),
    }
}

fn front_is_empty<E>(places: &VecDeque<Option<Held<E>>>) -> bool
    ensures { result ≡ (nat_lt 0 (length places.now.items) && is_none (place_at places.now.items 0)) }
{
    !places.is_empty() && held_at(places, 0).is_none()
}

// Drops empty places from the front on, and tells how many.
pub(crate) fn trim<E: Drop>(places: &mut VecDeque<Option<Held<E>>>) -> u64
    ensures { Trims places.old.items places.new.items result }
{
    let before = places.len();
    'empty: while front_is_empty(places) {
        places.pop_front();
    }
    (before - places.len()) as u64
}
