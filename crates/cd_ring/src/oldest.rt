//! What the coordinator does with the oldest job out.
ghost use Rattle.std.specs.Prelude.{◌≡◌, ◌%◌, ◌<◌, true, List, ◌∷◌, length, Some, IfSome, IfNone};
ghost use mathlib.Core.Option.{some};
ghost use lib.ListN.{get_elem?};
ghost use Rattle.cd_ring.specs.declared.view.Place.TheVariants.{Job, Result};
ghost use Rattle.cd_ring.specs.declared.view.Note.TheVariants.{Home};
ghost use Rattle.cd_ring.specs.Found.{MatchFound};
ghost use Rattle.cd_ring.specs.Rest.{FoundJob, FoundResult, FoundBusy, Took};

use crate::kinds::ClaimsOldest;
use crate::ring::{Ring, RingSeat};
use crate::slot_words::{WORD_DONE, WORD_READY, WORD_TAKEN};
use crate::task::Task;

// What the coordinator's look at the oldest job's slot found.
#[derive(Drop)]
pub(crate) enum Found<J, D> {
    Ready(J),
    Finished(D),
    Busy,
}

impl<T: Task> Ring<T> {
    // One compare and exchange at the oldest job's slot. Where it finds READY or DONE, the place is the coordinator's,
    // and what lay there is lifted or taken.
    pub(crate) fn claim_oldest(
        &self,
        seat: &mut RingSeat<T, T::Job, T::Done>,
        slot: u32,
    ) -> Found<T::Job, T::Done>
        requires ring { (seat.old.table_id ≡ self.now.table.shared.table_id)
            × (seat.old.me.0.known.task ≡ Some self.now.setup.task) }
        requires turn { (slot ≡ seat.old.me.0.known.taken % self.now.setup.slots) × (slot < self.now.setup.slots)
            × (slot < length seat.old.me.0.known.held) × (seat.old.me.0.known.leads ≡ true) }
        requires oldest { (x : T.Job) × (xs : List T.Job) × (seat.old.me.0.known.out ≡ x ∷ xs)
            × (get_elem? seat.old.me.0.known.notes slot ≡ some Home) }
        ensures ring { (seat.new.table_id ≡ seat.old.table_id) × (seat.new.id ≡ seat.old.id) }
        ensures found { MatchFound result (λ job. FoundJob seat.old.me slot job seat.new.me)
            (λ done. FoundResult (T.meets self.now.setup.task) seat.old.me slot done seat.new.me)
            (FoundBusy seat.old.me slot seat.new.me) }
    {
        let found = self
            .table
            .shared
            .compare_exchange::<ClaimsOldest>(seat, slot as usize, WORD_READY, WORD_TAKEN);
        if found == WORD_READY {
            return Found::Ready(self.lift_job(seat, slot));
        }
        if found == WORD_DONE {
            return Found::Finished(self.take_result(seat, slot));
        }
        Found::Busy
    }

    // Takes the result of the oldest job, which it performs itself where it is still READY.
    pub(crate) fn take_oldest(
        &self,
        seat: &mut RingSeat<T, T::Job, T::Done>,
        slot: u32,
    ) -> Option<T::Done>
        requires ring { (seat.old.table_id ≡ self.now.table.shared.table_id)
            × (seat.old.me.0.known.task ≡ Some self.now.setup.task) }
        requires turn { (slot ≡ seat.old.me.0.known.taken % self.now.setup.slots) × (slot < self.now.setup.slots)
            × (slot < length seat.old.me.0.known.held) × (seat.old.me.0.known.leads ≡ true) }
        requires notes { slot < length seat.old.me.0.known.notes }
        requires oldest { (x : T.Job) × (xs : List T.Job) × (seat.old.me.0.known.out ≡ x ∷ xs)
            × (get_elem? seat.old.me.0.known.notes slot ≡ some Home) }
        ensures ring { (seat.new.table_id ≡ seat.old.table_id) × (seat.new.id ≡ seat.old.id) }
        ensures some { IfSome result (λ done. Took (T.meets self.now.setup.task) seat.old.me slot done seat.new.me) }
        ensures none { IfNone result (FoundBusy seat.old.me slot seat.new.me) }
    {
        match self.claim_oldest(seat, slot) {
            Found::Busy => None,
            Found::Finished(done) => {
                self.mark_free(seat, slot, &done);
                Some(done)
            }
            Found::Ready(job) => {
                let done = self.setup.task.perform(&job);
                self.mark_free(seat, slot, &done);
                Some(done)
            }
        }
    }
}
