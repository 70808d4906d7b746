//! The one pairing of queries and responses, defined over a whole list of events and computed plainly.
//!
//! - An *event* has a side (query, response or neither), a time, a weight, a primary and maybe a secondary: `Keyed`.
//!   Its *position* is its index in the list, from 0.
//! - The *clock* at a position is the greatest time up to there, so it never runs back. The *sum* there is that of
//!   the weights up to there.
//! - An earlier and a later position are *compatible* where one is a query and the other a response, their primaries
//!   are equal, their secondaries are equal or one is absent, and the later one stands in the *window* of the earlier
//!   one: the clock has run on by no more than its timeout, the later one stands less than `count` positions after
//!   it, and the events from the earlier to the later one, both included, weigh at most `bytes`.
//! - A compatible pair *blocks* a set of pairs that it is not in where each of its two positions is unpaired or
//!   paired to a position after the other one.
//! - The *pairing* is the one set of compatible pairs in which no position stands twice and that no pair blocks. So
//!   each event joins the earliest compatible one before it that is still unpaired, and else waits. `pair_all`
//!   computes it.
//! - A *record* is a pair, or an event that stands alone. Records go by their first events.
//! - The window of an unpaired query or response is *open* after some events where one more event of `LEAST_WEIGHT`
//!   could stand in it. An event is *settled* where it is neither, stands in a pair, or has no open window.
//!   *Released* are the records before the first event that is not settled: where no event is lighter, no later event
//!   changes them.
//!
//! Example: the queries a, b at 0 and 1 s and the response b at 1.1 s make the pair (1, 2), and 0 stands alone.
#![tactic(auto)]

mod digest;
mod keyed;
pub mod laws;
mod queue;
mod stamp;
mod whole_list;

pub use keyed::{Keyed, LEAST_WEIGHT, Side, Windows};
pub use whole_list::pair_all;
