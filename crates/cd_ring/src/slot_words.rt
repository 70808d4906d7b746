//! The steps on a slot's word, but for the two claims.
ghost use Rattle.std.specs.Prelude.{◌≡◌, ℕ, ◌+◌, ◌%◌, ◌<◌, true, List, ◌∷◌, length, ◌⊎◌, None, Some};
ghost use mathlib.Core.Option.{some};
ghost use lib.ListN.{get_elem?};
ghost use Rattle.atomic_table.specs.Table.{rest};
ghost use Rattle.cd_ring.specs.declared.view.Place.TheVariants.{Empty, Job, Result};
ghost use Rattle.cd_ring.specs.declared.view.Note.TheVariants.{Home, Met, Spare};
ghost use Rattle.cd_ring.specs.Rule.{Holds, FREE, READY, TAKEN, DONE};
ghost use Rattle.cd_ring.specs.Claims.{are_places_of};
ghost use Rattle.cd_ring.specs.Kinds.{noted, with_held, with_post, with_take, became};
ghost use Rattle.cd_ring.specs.Rest.{NextIs};

use crate::kinds::{BringsPlace, MarksDone, MarksFree, MarksReady};
use crate::ring::{Ring, RingSeat};
use crate::task::Task;

pub(crate) const WORD_FREE: u64 = 0;

pub(crate) const WORD_READY: u64 = 1;

pub(crate) const WORD_TAKEN: u64 = 2;

pub(crate) const WORD_DONE: u64 = 3;

impl<T: Task> Ring<T> {
    // Marks the next job's slot READY, once the job is laid.
    pub(crate) fn mark_ready(&self, seat: &mut RingSeat<T, T::Job, T::Done>, slot: u32, job: T::Job)
        requires ring { seat.old.table_id ≡ self.now.table.shared.table_id }
        requires next { NextIs self.now.setup.slots slot seat.old.me.0 }
        requires place { seat.old.me.1 ≡ (slot, Empty) ∷ rest seat.old.me.1 }
        ensures ring { (seat.new.table_id ≡ seat.old.table_id) × (seat.new.id ≡ seat.old.id) }
        ensures posted { became (with_post seat.old.me.0.known slot job) (rest seat.old.me.1) slot READY (Some (Job job))
            seat.old.me seat.new.me }
    {
        self.lay_job(seat, slot, job);
        self.table
            .shared
            .store::<MarksReady>(seat, slot as usize, WORD_READY);
    }

    // Puts the place of a slot that a worker holds before its others.
    pub(crate) fn bring_place(
        &self,
        seat: &mut RingSeat<T, T::Job, T::Done>,
        slot: u32,
        job: &T::Job,
    )
        requires ring { seat.old.table_id ≡ self.now.table.shared.table_id }
        requires claim { (slot < self.now.setup.slots) × Holds seat.old.me.0.known slot job.now }
        requires places { are_places_of seat.old.me.1 seat.old.me.0.known.held ≡ true }
        ensures ring { (seat.new.table_id ≡ seat.old.table_id) × (seat.new.id ≡ seat.old.id) }
        ensures known { (seat.new.me.0.known ≡ seat.old.me.0.known)
            × (seat.new.me.0.looks ≡ noted seat.old.me.0.looks slot TAKEN)
            × (seat.new.me.0.stores ≡ seat.old.me.0.stores) }
        ensures places { (seat.new.me.1 ≡ (slot, Empty) ∷ rest seat.new.me.1)
            × (are_places_of seat.new.me.1 seat.old.me.0.known.held ≡ true) }
    {
        self.table.shared.load::<BringsPlace>(seat, slot as usize);
    }

    // Lays the result of a claimed job, and marks the slot DONE.
    pub(crate) fn mark_done(
        &self,
        seat: &mut RingSeat<T, T::Job, T::Done>,
        slot: u32,
        job: &T::Job,
        done: T::Done,
    )
        requires ring { seat.old.table_id ≡ self.now.table.shared.table_id }
        requires claim { Holds seat.old.me.0.known slot job.now × (slot < self.now.setup.slots) }
        requires place { seat.old.me.1 ≡ (slot, Empty) ∷ rest seat.old.me.1 }
        requires meets { T.meets self.now.setup.task job.now done }
        ensures ring { (seat.new.table_id ≡ seat.old.table_id) × (seat.new.id ≡ seat.old.id) }
        ensures gave { became (with_held seat.old.me.0.known slot None) (rest seat.old.me.1) slot DONE (Some (Result done))
            seat.old.me seat.new.me }
    {
        self.lay_result(seat, slot, done);
        self.table
            .shared
            .store::<MarksDone>(seat, slot as usize, WORD_DONE);
    }

    // Marks the oldest job's slot FREE, once its result is there.
    pub(crate) fn mark_free(
        &self,
        seat: &mut RingSeat<T, T::Job, T::Done>,
        slot: u32,
        done: &T::Done,
    )
        requires ring { seat.old.table_id ≡ self.now.table.shared.table_id }
        requires turn { (slot ≡ seat.old.me.0.known.taken % self.now.setup.slots) × (slot < self.now.setup.slots)
            × (seat.old.me.0.known.leads ≡ true) }
        requires oldest { (x : T.Job) × (xs : List T.Job) × (seat.old.me.0.known.out ≡ x ∷ xs)
            × ((get_elem? seat.old.me.0.known.notes slot ≡ some (Met done.now)) ⊎ (Holds seat.old.me.0.known slot x
            × T.meets self.now.setup.task x done.now)) }
        ensures ring { (seat.new.table_id ≡ seat.old.table_id) × (seat.new.id ≡ seat.old.id) }
        ensures freed { (x : T.Job) × (xs : List T.Job) × (seat.old.me.0.known.out ≡ x ∷ xs)
            × became (with_take seat.old.me.0.known slot xs) seat.old.me.1 slot FREE None seat.old.me seat.new.me }
    {
        self.table
            .shared
            .store::<MarksFree>(seat, slot as usize, WORD_FREE);
    }
}
