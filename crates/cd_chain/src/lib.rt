//! A store of values in numbered slots, each of which stands in at most one list of each of three lanes.
//!
//! - A *slot* is a place for a value, with a number. It is *used* while it holds one, and else *spare*.
//! - A *lane* is one of three kinds of lists, 0 to 2. A used slot stands in at most one list of each lane.
//! - A *list* is some slots in an order, under a number of its lane. A slot comes last in the lists that it is put in,
//!   and may be taken out of any place of them.
//! - A *link* says of a slot and a lane in which list the slot stands, behind which slot and before which. The links
//!   are kept in the slots, so each call but `reserve` and `add_list` takes constant time and no memory.
//!
//! `Contents` is what a clause sees of a store: the value of each used slot, the number of spare slots, and the slots
//! of each list that was added and not dropped.
//!
//! Example: jobs by their owner in lane 0 and by their day in lane 1, and the first job of a day:
//!
//! ```text
//! let mut jobs = Store::new(alloc);
//! let owner = jobs.add_list(0)?;
//! let day = jobs.add_list(1)?;
//! jobs.reserve(1)?;
//! let slot = jobs.put_reserved(job, [Some(owner), Some(day), None]);
//! jobs.unlink(0, slot);                 // it stands in its day's list alone
//! let first = jobs.first(1, day);       // Some(slot)
//! let job = jobs.remove(slot);
//! ```
#![tactic(auto)]

mod chain;
mod lane;
mod link;
mod slot;
mod spare;
mod store;

pub use store::Store;
