//! An ordered ring of jobs: a coordinator posts jobs, whoever is free performs them, and the results come back in the
//! order of posting. Threads share it by single atomic steps: there is no lock, and no call waits.
//!
//! - A *slot* has a word and a place. The *word* is FREE, READY, TAKEN or DONE. The *place* holds a job, a result or
//!   nothing. Job n stands in slot n modulo the number of slots. One more word, the *stop word*, tells workers to end.
//! - A *seat* is what a thread steps with: the coordinator's is a `Post`, a worker's a `Work`. A seat has a *view*, what
//!   its own steps told it, and the places that are its own, which it reads and writes as plain memory.
//! - A job is *out* from its post until its result is taken.
//! - A *claim* of a slot is one compare and exchange of its word from READY to TAKEN. Its job is then the seat's to do.
//!
//! There are eight kinds of steps, each on one word or one place: lay a job, mark READY, claim, lift the job, lay the
//! result, mark DONE, take the result, mark FREE. Beside them stand loads, the stop word, and the making and joining of
//! seats. `Rule` of `specs/` is what holds between any two of them: words, places and views show a state of the core,
//! in which each job out stands in its own slot and each result meets its job. It is the rule of the table below, so
//! every step is proved to keep it.
//!
//! A `Ring` and a `Claim` cannot be dropped, so that no job is lost: a ring ends by `Ring::close`, when no job is out
//! and no claim is held, and a claim by `Work::finish`. Nothing is said of progress, fairness or time.
//!
//! Example, on one thread:
//!
//! ```text
//! let (ring, mut post, works) = Ring::new(alloc, task, 4, 0)?;
//! let posted = post.post(&ring, job);            // Ok(()): a slot was free
//! match post.take(&ring) {                       // the oldest job is READY still: `take` performs it
//!     Taken::Result(done) => ..
//!     Taken::NotYet => ..                        // a worker has it
//!     Taken::Empty => ..                         // no job is out
//! }
//! post.stop(&ring);
//! ring.close(post, works);                       // once `take` answered Empty
//! ```
#![tactic(auto)]

mod kinds;
mod laws;
mod making;
mod oldest;
mod post;
mod ring;
mod slot_places;
mod slot_words;
mod task;
mod view;
mod work;

pub use kinds::{
    BringsPlace, Claims, ClaimsOldest, Loads, MarksDone, MarksFree, MarksReady, SeatsWorker,
    SetsStop, TakesPlace,
};
pub use laws::{core_stays_ordered, results_come_in_order, ring_shows_an_ordered_core};
pub use post::Taken;
pub use ring::{Jobs, Post, Ring, RingSeat, Work};
pub use task::Task;
pub use view::{Known, Look, Note, Place, Setup, Store, View};
pub use work::Claim;
