//! The ring and its seats.
ghost use Rattle.std.specs.Prelude.{◌≡◌, ◌+◌, ◌<◌, ◌^◌};
ghost use Rattle.cd_ring.specs.Rest.{AtRest, IsWorker};
ghost use Rattle.cd_ring.specs.Rule.{Ring};
ghost use Rattle.cd_ring.specs.Kinds.{opening_view};

use crate::task::Task;
use crate::view::{Place, Setup, View};
use atomic_table::{Seat, Table, TableRule};
use std::alloc::Global;

/// The rule of the table, which holds between any two steps.
pub struct Jobs;

impl<T: Task> TableRule<Place<T::Job, T::Done>, View<T, T::Job, T::Done>, Setup<T>> for Jobs {
    ghost holds = { λ key. Ring (T.meets key.task) key.task key.slots };

    ghost first = { λ key. opening_view key.task key.slots };
}

/// What a thread steps with. It has no bytes.
pub type RingSeat<T, J, D> = Seat<Place<J, D>, View<T, J, D>>;

/// The slots, which threads share by reference. It ends by `close`, and cannot be dropped.
pub struct Ring<T: Task> {
    pub(crate) table: Table<
        Place<T::Job, T::Done>,
        View<T, T::Job, T::Done>,
        Setup<T>,
        Jobs,
        Global,
    >,
    pub(crate) setup: Setup<T>,
    pub ghost keyed: { table.shared.key ≡ setup },
    pub ghost sized: { (table.shared.table_id.words ≡ setup.slots + 1)
        × (table.shared.table_id.slots ≡ setup.slots) × (0 < setup.slots) },
}

/// The coordinator's seat, with the slot of the oldest job and the number of jobs out.
#[derive(Drop)]
pub struct Post<T: Task> {
    pub(crate) seat: RingSeat<T, T::Job, T::Done>,
    pub(crate) slots: u32,
    pub(crate) next: u32,
    pub(crate) count: u32,
    pub ghost rest: { AtRest slots next count seat.me },
    pub ghost sized: { (seat.table_id.slots ≡ slots) × (slots < 2 ^ 31) },
}

/// A worker's seat.
#[derive(Drop)]
pub struct Work<T: Task> {
    pub(crate) seat: RingSeat<T, T::Job, T::Done>,
    pub ghost rest: { IsWorker seat.table_id.slots seat.me },
}
