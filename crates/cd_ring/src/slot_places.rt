//! The four kinds of steps on a place, by the seat that has it. None changes a word or a view.
ghost use Rattle.std.specs.Prelude.{◌≡◌, ◌∷◌};
ghost use Rattle.atomic_table.specs.Table.{rest};
ghost use Rattle.cd_ring.specs.declared.view.Place.TheVariants.{Empty, Job, Result};

use crate::ring::{Ring, RingSeat};
use crate::task::Task;
use crate::view::Place;

impl<T: Task> Ring<T> {
    // Lays a job.
    pub(crate) fn lay_job(&self, seat: &mut RingSeat<T, T::Job, T::Done>, slot: u32, job: T::Job)
        requires ring { seat.old.table_id ≡ self.now.table.shared.table_id }
        requires place { seat.old.me.1 ≡ (slot, Empty) ∷ rest seat.old.me.1 }
        ensures ring { (seat.new.table_id ≡ seat.old.table_id) × (seat.new.id ≡ seat.old.id) }
        ensures laid { seat.new.me ≡ (seat.old.me.0, (slot, Job job) ∷ rest seat.old.me.1) }
    {
        match self
            .table
            .shared
            .exchange(seat, slot as usize, Place::Job(job))
        {
            Place::Empty => {}
            _ => unreachable!(),
        }
    }

    // Lifts a job.
    pub(crate) fn lift_job(&self, seat: &mut RingSeat<T, T::Job, T::Done>, slot: u32) -> T::Job
        requires ring { seat.old.table_id ≡ self.now.table.shared.table_id }
        requires place { (x : T.Job) × (seat.old.me.1 ≡ (slot, Job x) ∷ rest seat.old.me.1) }
        ensures ring { (seat.new.table_id ≡ seat.old.table_id) × (seat.new.id ≡ seat.old.id) }
        ensures lifted { (seat.old.me.1 ≡ (slot, Job result) ∷ rest seat.old.me.1)
            × (seat.new.me ≡ (seat.old.me.0, (slot, Empty) ∷ rest seat.old.me.1)) }
    {
        match self
            .table
            .shared
            .exchange(seat, slot as usize, Place::Empty)
        {
            Place::Job(job) => job,
            _ => unreachable!(),
        }
    }

    // Lays a result.
    pub(crate) fn lay_result(
        &self,
        seat: &mut RingSeat<T, T::Job, T::Done>,
        slot: u32,
        done: T::Done,
    )
        requires ring { seat.old.table_id ≡ self.now.table.shared.table_id }
        requires place { seat.old.me.1 ≡ (slot, Empty) ∷ rest seat.old.me.1 }
        ensures ring { (seat.new.table_id ≡ seat.old.table_id) × (seat.new.id ≡ seat.old.id) }
        ensures laid { seat.new.me ≡ (seat.old.me.0, (slot, Result done) ∷ rest seat.old.me.1) }
    {
        match self
            .table
            .shared
            .exchange(seat, slot as usize, Place::Result(done))
        {
            Place::Empty => {}
            _ => unreachable!(),
        }
    }

    // Takes a result.
    pub(crate) fn take_result(&self, seat: &mut RingSeat<T, T::Job, T::Done>, slot: u32) -> T::Done
        requires ring { seat.old.table_id ≡ self.now.table.shared.table_id }
        requires place { (d : T.Done) × (seat.old.me.1 ≡ (slot, Result d) ∷ rest seat.old.me.1) }
        ensures ring { (seat.new.table_id ≡ seat.old.table_id) × (seat.new.id ≡ seat.old.id) }
        ensures taken { (seat.old.me.1 ≡ (slot, Result result) ∷ rest seat.old.me.1)
            × (seat.new.me ≡ (seat.old.me.0, (slot, Empty) ∷ rest seat.old.me.1)) }
    {
        match self
            .table
            .shared
            .exchange(seat, slot as usize, Place::Empty)
        {
            Place::Result(done) => done,
            _ => unreachable!(),
        }
    }
}
