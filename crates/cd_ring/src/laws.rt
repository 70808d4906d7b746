//! The laws of the ring.
ghost use Rattle.std.specs.Prelude.{ℕ, ◌<◌, List, []};
ghost use Rattle.cd_ring.specs.Core.{Core, Event, After, Ordered};
ghost use Rattle.cd_ring.specs.declared.view.Known.{Known};
ghost use Rattle.cd_ring.specs.Rule.{Homes, Rule};
ghost use Rattle.cd_ring.specs.Shown.{ShowsOrdered};
ghost use Rattle.cd_ring.specs.Turns.{Turn, Leaves, InOrder};

use crate::task::Task;

/// Over every list of steps the core stays ordered: each job that is not taken stands in its own slot, each other slot
/// is free, and the n-th result meets the n-th job.
pub fn core_stays_ordered<T: Task>(_task: &T)
    ensures { (slots lead : ℕ) → 0 < slots → (events : List (Event T.Job T.Done)) (core : Core T.Job T.Done) →
        After (T.meets _task.now) slots lead events core → Ordered (T.meets _task.now) slots lead core }
{}

/// Between any two steps the words, places and views of a ring show a core that is ordered, and the jobs out in the
/// coordinator's view are those of the core. Each word tells what its place and the views hold, as `WordTells` says.
pub fn ring_shows_an_ordered_core<T: Task>(_task: &T)
    ensures { (slots : ℕ) (words : List ℕ) (homes : Homes T.Job T.Done) (all : List (Known T T.Job T.Done)) →
        Rule (T.meets _task.now) _task.now slots words homes all →
        ShowsOrdered (T.meets _task.now) slots words homes all }
{}

/// By the clauses of `post` and `take` the n-th result meets the n-th job posted, and the jobs out are the others.
pub fn results_come_in_order<T: Task>(_task: &T)
    ensures { (turns : List (Turn T.Job T.Done)) (left : List T.Job) →
        Leaves (T.meets _task.now) [] turns left → InOrder (T.meets _task.now) turns left }
{}
