//! The coordinator's seat: it posts jobs and takes their results.
ghost use Rattle.std.specs.Prelude.{◌≡◌, ◌≢◌, ◌+◌, ◌↔◌, true, List, [], ◌∷◌, ◌++◌, length, IsTrue, IsErr};
ghost use Rattle.std.specs.Prelude.{Some, None, OnOk, OnErr, IfErr};
ghost use Rattle.cd_ring.specs.Answered.{MatchTaken, is_empty_answer};
ghost use Rattle.cd_ring.specs.Claims.{HasNoClaim};
ghost use Rattle.cd_ring.specs.declared.view.Place.TheVariants.{Job};
ghost use Rattle.cd_ring.specs.Kinds.{noted, stored};
ghost use Rattle.cd_ring.specs.Rule.{FREE, READY, TAKEN};
ghost use Rattle.cd_ring.specs.Words.{task_of, slots_of, room_of, IsPostOf, jobs_out, results_taken};
ghost use Rattle.cd_ring.specs.Words.{oldest_slot, next_slot, own_claims, has_stopped, looks_of, stores_of};

use crate::kinds::SetsStop;
use crate::ring::{Post, Ring};
use crate::task::Task;

/// What `take` answers.
#[derive(Drop)]
pub enum Taken<D> {
    /// The result of the oldest job, which is no longer out.
    Result(D),
    /// A worker has the oldest job.
    NotYet,
    /// No job is out.
    Empty,
}

impl<T: Task> Post<T> {
    /// Posts a job, or hands it back where as many jobs are out as there are slots. Then nothing changes.
    pub fn post(&mut self, ring: &Ring<T>, job: T::Job) -> Result<(), T::Job>
        requires ring { IsPostOf ring.now self.old }
        ensures ring { IsPostOf ring.now self.new }
        ensures ok { OnOk result ((jobs_out self.new ≡ jobs_out self.old ++ job ∷ [])
            × (results_taken self.new ≡ results_taken self.old)) }
        ensures full { IsErr result ↔ (length (jobs_out self.old) ≡ slots_of ring.now) }
        ensures err { IfErr result (λ back. (back ≡ job) × (jobs_out self.new ≡ jobs_out self.old)
            × (results_taken self.new ≡ results_taken self.old)) }
        ensures looks { looks_of self.new ≡ looks_of self.old }
        ensures posted { OnOk result (stores_of self.new ≡ stored (stores_of self.old) (next_slot self.old) READY
            (Some (Job job))) }
        ensures back { OnErr result (stores_of self.new ≡ stores_of self.old) }
        ensures no_claim { HasNoClaim (own_claims self.new) }
        ensures stop { has_stopped self.new ≡ has_stopped self.old }
    {
        if self.count == self.slots {
            return Err(job);
        }
        let slot = (self.next + self.count) % self.slots;
        ring.mark_ready(&mut self.seat, slot, job);
        self.count += 1;
        Ok(())
    }

    /// Takes the result of the oldest job out. Where that job is READY still, this call claims and performs it.
    pub fn take(&mut self, ring: &Ring<T>) -> Taken<T::Done>
        requires ring { IsPostOf ring.now self.old }
        ensures ring { IsPostOf ring.now self.new }
        ensures taken { MatchTaken result
            (λ done. (job : T.Job) × (jobs_out self.old ≡ job ∷ jobs_out self.new) × T.meets (task_of ring.now) job done
            × (results_taken self.new ≡ results_taken self.old + 1))
            ((jobs_out self.new ≡ jobs_out self.old) × (results_taken self.new ≡ results_taken self.old)
            × HasNoClaim (own_claims self.old)
            × (looks_of self.new ≡ noted (looks_of self.old) (oldest_slot self.old) TAKEN))
            ((jobs_out self.new ≡ []) × (results_taken self.new ≡ results_taken self.old)
            × (looks_of self.new ≡ looks_of self.old)) }
        ensures empty { (is_empty_answer result ≡ true) ↔ (jobs_out self.old ≡ []) }
        ensures stores { MatchTaken result
            (λ _. stores_of self.new ≡ stored (stores_of self.old) (oldest_slot self.old) FREE None)
            (stores_of self.new ≡ stores_of self.old) (stores_of self.new ≡ stores_of self.old) }
        ensures no_claim { HasNoClaim (own_claims self.new) }
        ensures stop { has_stopped self.new ≡ has_stopped self.old }
    {
        if self.count == 0 {
            return Taken::Empty;
        }
        let slot = self.next;
        match ring.take_oldest(&mut self.seat, slot) {
            None => Taken::NotYet,
            Some(done) => {
                self.seat.turn();
                self.next = (slot + 1) % self.slots;
                self.count -= 1;
                Taken::Result(done)
            }
        }
    }

    /// Whether as many jobs are out as there are slots.
    pub fn is_full(&self) -> bool
        ensures { IsTrue result ↔ (length (jobs_out self.now) ≡ room_of self.now) }
    {
        self.count == self.slots
    }

    /// The number of jobs out.
    pub fn jobs_out(&self) -> u32
        ensures { result ≡ length (jobs_out self.now) }
    {
        self.count
    }

    /// Sets the stop word, by which a worker knows that it may end.
    pub fn stop(&mut self, ring: &Ring<T>)
        requires ring { IsPostOf ring.now self.old }
        ensures ring { IsPostOf ring.now self.new }
        ensures stop { has_stopped self.new ≡ true }
        ensures stores { stores_of self.new ≡ stored (stores_of self.old) (slots_of ring.now) 1 None }
        ensures jobs { (jobs_out self.new ≡ jobs_out self.old) × (results_taken self.new ≡ results_taken self.old) }
        ensures looks { looks_of self.new ≡ looks_of self.old }
        ensures no_claim { HasNoClaim (own_claims self.new) }
    {
        ring.table
            .shared
            .store::<SetsStop>(&mut self.seat, ring.setup.slots as usize, 1);
    }
}
