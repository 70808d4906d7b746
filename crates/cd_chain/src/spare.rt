ghost use Rattle.std.specs.Prelude.{◌≡◌, ◌<◌, ◌≤◌, ◌+◌, ◌^◌, ℕ, vec_len, vec_capacity};
ghost use Rattle.cd_chain.specs.Links.{places_of};
ghost use Rattle.cd_chain.specs.Cells.{AreFree, place_cells};
ghost use Rattle.cd_chain.specs.Holds.{MakesSpare};

use crate::link::NO_LINKS;
use crate::slot::{Place, Slot};

// Makes a free slot, which leads on to this one. There is room for it.
fn push_spare<T>(slots: &mut Vec<Slot<T>>, free: Option<u32>) -> u32
    requires room { vec_len slots.old < vec_capacity slots.old }
    requires few { vec_len slots.old + 1 < 2 ^ 31 }
    requires frees { AreFree (place_cells (places_of slots.old.items)) free }
    ensures made { MakesSpare slots.old.items slots.new.items free (Some result) 1 }
    ensures room { vec_capacity slots.old ≤ vec_capacity slots.new }
    ensures len { vec_len slots.new ≡ vec_len slots.old + 1 }
{
    let slot = slots.len() as u32;
    let made = Slot {
        place: Place::Vacant(free),
        links: NO_LINKS,
    };
    match slots.push(made) {
        Ok(()) => slot,
        Err(_) => unreachable!(),
    }
}

// Makes this many free slots, which lead on to this one, and gives the first. There is room for them.
pub(crate) fn add_spare<T>(slots: &mut Vec<Slot<T>>, free: Option<u32>, count: u32) -> Option<u32>
    requires room { vec_len slots.old + count ≤ vec_capacity slots.old }
    requires few { vec_len slots.old + count < 2 ^ 31 }
    requires frees { AreFree (place_cells (places_of slots.old.items)) free }
    ensures { MakesSpare slots.old.items slots.new.items free result count }
{
    let mut first = free;
    'making: for _ in 0..count {
        first = Some(push_spare(slots, first));
    }
    first
}
