//! The kinds of steps on a word, and how seats are made and joined. These types are for the proofs alone. They are part of
//! what is stated: what a call says of its looks and its stores rests on the kinds of steps that it makes.
ghost use Rattle.cd_ring.specs.Kinds.{loaded, brought, claimed, claimed_oldest, took_place};
ghost use Rattle.cd_ring.specs.Kinds.{marked_ready, marked_done, marked_free, set_stop, worker_view, spent_view};

use crate::task::Task;
use crate::view::{Place, View};
use atomic_table::{Join, Play, Split};

/// A load of a word.
pub struct Loads;

impl<T, J, D> Play<Place<J, D>, View<T, J, D>> for Loads {
    ghost then = { loaded };
}

/// The coordinator's load of a FREE word before the first post, which takes the place to its seat.
pub struct TakesPlace;

impl<T, J, D> Play<Place<J, D>, View<T, J, D>> for TakesPlace {
    ghost then = { took_place };
}

/// A worker's load of the word of a slot that it holds, which puts the place of that slot before its others.
pub struct BringsPlace;

impl<T, J, D> Play<Place<J, D>, View<T, J, D>> for BringsPlace {
    ghost then = { brought };
}

/// A worker's claim: one compare and exchange from READY to TAKEN.
pub struct Claims;

impl<T, J, D> Play<Place<J, D>, View<T, J, D>> for Claims {
    ghost then = { claimed };
}

/// The coordinator's claim of the oldest job's slot. Where it meets DONE, it takes the place as a load would.
pub struct ClaimsOldest;

impl<T: Task> Play<Place<T::Job, T::Done>, View<T, T::Job, T::Done>> for ClaimsOldest {
    ghost then = { claimed_oldest T.meets };
}

/// Mark READY: the coordinator's store that posts the job laid.
pub struct MarksReady;

impl<T, J, D> Play<Place<J, D>, View<T, J, D>> for MarksReady {
    ghost then = { marked_ready };
}

/// Mark DONE: a worker's store that gives up its claim with the result laid.
pub struct MarksDone;

impl<T, J, D> Play<Place<J, D>, View<T, J, D>> for MarksDone {
    ghost then = { marked_done };
}

/// Mark FREE: the coordinator's store once it has the oldest job's result.
pub struct MarksFree;

impl<T, J, D> Play<Place<J, D>, View<T, J, D>> for MarksFree {
    ghost then = { marked_free };
}

/// The coordinator's store to the stop word.
pub struct SetsStop;

impl<T, J, D> Play<Place<J, D>, View<T, J, D>> for SetsStop {
    ghost then = { set_stop };
}

/// The making and the joining of a worker's seat.
pub struct SeatsWorker;

impl<T, J, D> Split<View<T, J, D>> for SeatsWorker {
    ghost left = { λ v. v };

    ghost right = { worker_view };
}

impl<T, J, D> Join<View<T, J, D>> for SeatsWorker {
    ghost both = { λ v w. v };

    ghost spent = { spent_view };
}
