//! How a ring and its seats are made, and how they end.
ghost use Rattle.std.specs.Prelude.{◌≡◌, ◌+◌, ◌<◌, ◌≤◌, true, false, [], ◌∷◌, length, replicate, All, IfOk};
ghost use mathlib.Core.Option.{some};
ghost use lib.ListN.{get_elem?};
ghost use Rattle.cd_ring.specs.declared.view.Place.TheVariants.{Empty};
ghost use Rattle.cd_ring.specs.declared.view.Note.TheVariants.{Home, Spare};
ghost use Rattle.cd_ring.specs.Claims.{holds_none};
ghost use Rattle.cd_ring.specs.Kinds.{opening_view, worker_view, with_note};
ghost use Rattle.cd_ring.specs.Opening.{IsTakingPlaces};
ghost use Rattle.cd_ring.specs.Words.{task_of, slots_of, IsPostOf, jobs_out, results_taken, has_stopped};
ghost use Rattle.cd_ring.specs.Words.{IsWorkOf, claims};

use crate::kinds::{SeatsWorker, TakesPlace};
use crate::ring::{Post, Ring, RingSeat, Work};
use crate::task::Task;
use crate::view::{Place, Setup};
use atomic_table::Table;
use cd_name::List;
use std::alloc::{AllocError, Global};

// Empty places.
fn empties<J: Drop, D: Drop>(alloc: Global, count: usize) -> Result<Vec<Place<J, D>>, AllocError>
    ensures { IfOk result (λ v. v.items ≡ replicate count Empty) }
{
    let mut places = Vec::with_capacity(alloc, count)?;
    let mut i = 0;
    while i < count {
        places.push(Place::Empty)?;
        i += 1;
    }
    Ok(places)
}

impl<T: Task> Ring<T> {
    /// The task that `new` took.
    pub fn task(&self) -> &T
        ensures { result.now ≡ task_of self.now }
    {
        &self.setup.task
    }

    // Takes the place of a free slot, before the first post.
    fn take_place(&self, seat: &mut RingSeat<T, T::Job, T::Done>, slot: u32)
        requires ring { seat.old.table_id ≡ self.now.table.shared.table_id }
        requires slot { (slot < self.now.setup.slots) × (get_elem? seat.old.me.0.known.notes slot ≡ some Home) }
        requires first { (seat.old.me.0.known.leads ≡ true) × (seat.old.me.0.known.out ≡ []) }
        ensures ring { (seat.new.table_id ≡ seat.old.table_id) × (seat.new.id ≡ seat.old.id) }
        ensures taken { (seat.new.me.0.known ≡ with_note seat.old.me.0.known slot Spare)
            × (seat.new.me.1 ≡ (slot, Empty) ∷ seat.old.me.1)
            × (length seat.new.me.0.looks ≡ length seat.old.me.0.looks)
            × (length seat.new.me.0.stores ≡ length seat.old.me.0.stores) }
    {
        self.table.shared.load::<TakesPlace>(seat, slot as usize);
    }

    // Takes the places of all slots, from the last down to the first.
    fn take_places(&self, seat: &mut RingSeat<T, T::Job, T::Done>)
        requires ring { seat.old.table_id ≡ self.now.table.shared.table_id }
        requires first { seat.old.me ≡ (opening_view self.now.setup.task self.now.setup.slots, []) }
        ensures ring { (seat.new.table_id ≡ seat.old.table_id) × (seat.new.id ≡ seat.old.id) }
        ensures taken { IsTakingPlaces self.now.setup.task self.now.setup.slots 0 seat.new.me }
    {
        let mut left = self.setup.slots;
        while left > 0 {
            left -= 1;
            self.take_place(seat, left);
        }
    }

    // A new worker's seat.
    fn worker(&self, seat: &mut RingSeat<T, T::Job, T::Done>) -> Work<T>
        requires ring { seat.old.table_id ≡ self.now.table.shared.table_id }
        requires lists { (length seat.old.me.0.known.held ≡ self.now.setup.slots)
            × (length seat.old.me.0.looks ≡ self.now.setup.slots + 1)
            × (length seat.old.me.0.stores ≡ self.now.setup.slots + 1) }
        ensures seat { (seat.new.table_id ≡ seat.old.table_id) × (seat.new.id ≡ seat.old.id)
            × (seat.new.me ≡ seat.old.me) }
        ensures work { IsWorkOf self.now result × (holds_none (claims result) ≡ true) }
    {
        Work {
            seat: self.table.shared.split_seat::<SeatsWorker>(seat),
        }
    }

    // So many new workers' seats.
    fn workers(
        &self,
        alloc: Global,
        seat: &mut RingSeat<T, T::Job, T::Done>,
        count: u32,
    ) -> Result<Vec<Work<T>>, AllocError>
        requires ring { seat.old.table_id ≡ self.now.table.shared.table_id }
        requires lists { (length seat.old.me.0.known.held ≡ self.now.setup.slots)
            × (length seat.old.me.0.looks ≡ self.now.setup.slots + 1)
            × (length seat.old.me.0.stores ≡ self.now.setup.slots + 1) }
        ensures seat { (seat.new.table_id ≡ seat.old.table_id) × (seat.new.id ≡ seat.old.id)
            × (seat.new.me ≡ seat.old.me) }
        ensures works { IfOk result (λ works. (length works.items ≡ count) × All (λ w. IsWorkOf self.now w
            × (holds_none (claims w) ≡ true)) works.items) }
    {
        let mut works = Vec::new(alloc);
        let mut made = 0;
        while made < count {
            let work = self.worker(seat);
            works.push(work)?;
            made += 1;
        }
        Ok(works)
    }

    // Joins the workers' seats with the coordinator's.
    fn join_workers(&self, seat: &mut RingSeat<T, T::Job, T::Done>, mut works: Vec<Work<T>>)
        requires ring { seat.old.table_id ≡ self.now.table.shared.table_id }
        requires works { All (λ w. IsWorkOf self.now w × (holds_none (claims w) ≡ true)) works.items }
    {
        while let Some(work) = works.pop() {
            let Work { seat: other } = work;
            self.table.shared.join_seat::<SeatsWorker>(seat, other);
        }
    }
}

impl<T: Task + Drop> Ring<T> {
    /// A ring of 1 to 256 slots, the coordinator's seat, and the seats of 0 to 64 workers. All memory is taken here.
    pub fn new(
        alloc: Global,
        task: T,
        slots: u32,
        workers: u32,
    ) -> Result<(Ring<T>, Post<T>, List<Work<T>>), AllocError>
        requires slots { (1 ≤ slots) × (slots ≤ 256) }
        requires workers { workers ≤ 64 }
        ensures ring { IfOk result (λ t. (task_of t.0 ≡ task) × (slots_of t.0 ≡ slots)) }
        ensures post { IfOk result (λ t. IsPostOf t.0 t.1 × (jobs_out t.1 ≡ []) × (results_taken t.1 ≡ 0)
            × (has_stopped t.1 ≡ false)) }
        ensures works { IfOk result (λ t. (length t.2 ≡ workers) × All (λ w. IsWorkOf t.0 w
            × (holds_none (claims w) ≡ true)) t.2) }
    {
        let setup = Setup { task, slots };
        let words = Vec::from_elem(alloc, 0u64, slots as usize + 1)?;
        let places = empties(alloc, slots as usize)?;
        let Ok((table, mut seat)) = Table::new(alloc, words.as_slice(), places, &setup) else {
            return Err(AllocError);
        };
        let ring = Ring { table, setup };
        ring.take_places(&mut seat);
        let works = ring.workers(alloc, &mut seat, workers);
        let post = Post {
            seat,
            slots,
            next: 0,
            count: 0,
        };
        match works {
            Ok(works) => Ok((ring, post, List::from_vec(works))),
            Err(error) => {
                ring.close(post, List::from_vec(Vec::new(alloc)));
                Err(error)
            }
        }
    }

    /// Ends a ring of which no job is out and no claim is held.
    pub fn close(self, post: Post<T>, works: List<Work<T>>)
        requires post { IsPostOf self post × (jobs_out post ≡ []) }
        requires works { All (λ w. IsWorkOf self w × (holds_none (claims w) ≡ true)) works }
    {
        let Post {
            mut seat,
            slots: _,
            next: _,
            count: _,
        } = post;
        self.join_workers(&mut seat, works.into_vec());
        drop(seat);
        let Ring { table, setup } = self;
        drop(table);
        drop(setup);
    }
}
