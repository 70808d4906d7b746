//! The one pairing of queries and responses, found while events come.
//!
//! - A *window* takes events one by one (`push`) and gives each the next *position*, from 0. It pairs an event where
//!   the one pairing of the whole list says so: `cd_pairing` has that pairing, and what an event and a record are.
//! - An event is *held* until its *record* is popped: a pair, or an event that stands alone. Records are popped in the
//!   order of their *leads*, the positions of their first events.
//! - The *front* is the earliest event that is held. Its record is *ready* where it is paired, is neither a query nor a
//!   response, or waits no more, so that no later event changes its record.
//! - `finish` tells the end of the events: whatever is held is ready then.
//!
//! Queries and responses that are held, are unpaired and have open windows stand in lists: of all of their side, by
//! primary, and by primary and secondary. So a push and a pop take constant time over a run of calls.
//!
//! Of each window the relation `StandsFor` (`specs/History.antt`) says for which histories it stands: the events
//! pushed, and the records popped. What is popped is a front of what is released of the events pushed, and after
//! `finish` and pops until there is none it is all of their records.
//!
//! Example: with a window of 2 positions and three queries, a pop gives the first alone once two were pushed.
#![tactic(auto)]

mod held;
mod joining;
mod key;
pub mod laws;
mod lists;
mod places;
mod released;
mod stamps;
mod waiter;
mod waiting;
mod window;

pub use released::Released;
pub use window::Window;
