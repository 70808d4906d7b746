//! A worker's seat: it claims jobs and lays their results.
ghost use Rattle.std.specs.Prelude.{◌≡◌, ℕ, ◌+◌, ◌<◌, ◌∷◌, length, slice_set, ◌↔◌};
ghost use Rattle.std.specs.Prelude.{Some, None, IfSome, IfNone, IsTrue, MatchOption};
ghost use mathlib.Core.Option.{some};
ghost use lib.ListN.{get_elem?};
ghost use Rattle.cd_ring.specs.declared.view.Place.TheVariants.{Empty, Job, Result};
ghost use Rattle.cd_ring.specs.Kinds.{with_held, noted, stored};
ghost use Rattle.cd_ring.specs.Rest.{Missed, Gained};
ghost use Rattle.cd_ring.specs.Rule.{TAKEN, DONE};
ghost use Rattle.cd_ring.specs.Walk.{LookedOver, LookedUpTo};
ghost use Rattle.cd_ring.specs.Words.{task_of, slots_of, IsWorkOf, claims, looks, stores, HasClaim};

use crate::kinds::{Claims, Loads};
use crate::ring::{Ring, RingSeat, Work};
use crate::slot_words::{WORD_READY, WORD_TAKEN};
use crate::task::Task;

/// A job that a worker has claimed, with its slot. It is spent by `Work::finish`.
pub struct Claim<J> {
    /// The slot, below the number of slots.
    pub slot: u32,
    /// The job, which the worker performs.
    pub job: J,
}

impl<T: Task> Ring<T> {
    // One compare and exchange. Where it claims the slot, the job is lifted.
    fn claim(&self, seat: &mut RingSeat<T, T::Job, T::Done>, slot: u32) -> Option<T::Job>
        requires ring { seat.old.table_id ≡ self.now.table.shared.table_id }
        requires slot { (slot < self.now.setup.slots) × (slot < length seat.old.me.0.known.held) }
        ensures ring { (seat.new.table_id ≡ seat.old.table_id) × (seat.new.id ≡ seat.old.id) }
        ensures claim { MatchOption result (Missed seat.old.me slot seat.new.me)
            (λ job. Gained seat.old.me slot job seat.new.me) }
    {
        let found = self
            .table
            .shared
            .compare_exchange::<Claims>(seat, slot as usize, WORD_READY, WORD_TAKEN);
        if found != WORD_READY {
            return None;
        }
        Some(self.lift_job(seat, slot))
    }

    // The first slot that is READY is claimed, and its job is lifted.
    fn claim_first(&self, seat: &mut RingSeat<T, T::Job, T::Done>) -> Option<Claim<T::Job>>
        requires ring { seat.old.table_id ≡ self.now.table.shared.table_id }
        requires lists { (length seat.old.me.0.known.held ≡ self.now.setup.slots)
            × (length seat.old.me.0.looks ≡ self.now.setup.slots + 1) }
        ensures ring { (seat.new.table_id ≡ seat.old.table_id) × (seat.new.id ≡ seat.old.id)
            × (length seat.new.me.0.looks ≡ length seat.old.me.0.looks) }
        ensures stores { seat.new.me.0.stores ≡ seat.old.me.0.stores }
        ensures some { IfSome result (λ c. (c.slot < self.now.setup.slots)
            × (get_elem? seat.old.me.0.known.held c.slot ≡ some None)
            × (seat.new.me.0.known ≡ with_held seat.old.me.0.known c.slot (Some c.job))
            × (seat.new.me.1 ≡ (c.slot, Empty) ∷ seat.old.me.1)) }
        ensures walk { IfSome result (λ c. LookedUpTo c.slot seat.old.me.0.looks seat.new.me.0.looks) }
        ensures none { IfNone result ((seat.new.me.0.known ≡ seat.old.me.0.known) × (seat.new.me.1 ≡ seat.old.me.1)
            × LookedOver self.now.setup.slots seat.old.me.0.looks seat.new.me.0.looks) }
    {
        for slot in 0..self.setup.slots {
            if let Some(job) = self.claim(seat, slot) {
                return Some(Claim { slot, job });
            }
        }
        None
    }
}

impl<T: Task> Work<T> {
    /// Looks once at each slot, from slot 0 upwards, until it has a claim. None says that each slot was looked at and
    /// was not READY then.
    pub fn try_claim(&mut self, ring: &Ring<T>) -> Option<Claim<T::Job>>
        requires ring { IsWorkOf ring.now self.old }
        ensures ring { IsWorkOf ring.now self.new }
        ensures some { IfSome result (λ c. (c.slot < slots_of ring.now)
            × (claims self.new ≡ slice_set (claims self.old) c.slot (Some c.job))
            × (claims self.old ≡ slice_set (claims self.new) c.slot None)) }
        ensures held { IfSome result (λ c. HasClaim self.new c) }
        ensures walk { IfSome result (λ c. LookedUpTo c.slot (looks self.old) (looks self.new)) }
        ensures none { IfNone result ((claims self.new ≡ claims self.old)
            × LookedOver (slots_of ring.now) (looks self.old) (looks self.new)) }
        ensures stores { stores self.new ≡ stores self.old }
    {
        match ring.claim_first(&mut self.seat) {
            Some(claim) => Some(claim),
            None => None,
        }
    }

    /// Lays the result of a job that this seat claimed, in whatever order the claims were made, and gives the claim up.
    pub fn finish(&mut self, ring: &Ring<T>, claim: Claim<T::Job>, done: T::Done)
        requires ring { IsWorkOf ring.now self.old }
        requires claim { HasClaim self.old claim }
        requires meets { T.meets (task_of ring.now) claim.job done }
        ensures ring { IsWorkOf ring.now self.new }
        ensures claims { claims self.new ≡ slice_set (claims self.old) claim.slot None }
        ensures looks { looks self.new ≡ noted (looks self.old) claim.slot TAKEN }
        ensures laid { stores self.new ≡ stored (stores self.old) claim.slot DONE (Some (Result done)) }
    {
        let Claim { slot, job } = claim;
        ring.bring_place(&mut self.seat, slot, &job);
        ring.mark_done(&mut self.seat, slot, &job, done);
    }

    /// Whether the stop word was set at the one step of this call, which read it.
    pub fn stopped(&mut self, ring: &Ring<T>) -> bool
        requires ring { IsWorkOf ring.now self.old }
        ensures ring { IsWorkOf ring.now self.new }
        ensures claims { claims self.new ≡ claims self.old }
        ensures stopped { (r : ℕ) × (looks self.new ≡ noted (looks self.old) (slots_of ring.now) r)
            × (IsTrue result ↔ (r ≡ 1)) }
        ensures stores { stores self.new ≡ stores self.old }
    {
        let found = ring
            .table
            .shared
            .load::<Loads>(&mut self.seat, ring.setup.slots as usize);
        found == 1
    }
}
