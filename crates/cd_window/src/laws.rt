//! What holds of each window and each history that it stands for. Each law is the contract of a function that does
//! nothing.

ghost use Rattle.cd_window.specs.Laws.{PoppedIsReleased, FinishedTellsAll, DueIsPopped, PushesStand, PopsStand};
ghost use Rattle.cd_window.specs.Laws.{WindowsCloseInOrder, OpenWereOpen};

use cd_pairing::Keyed;

/// Before the end is told, what was popped is a front of what is released of the events pushed.
pub fn what_is_popped_is_released<E: Keyed>()
    ensures { PoppedIsReleased E.view }
{}

/// After the end is told, what was popped is a front of all records, and all of them once nothing is held.
pub fn finished_windows_tell_all<E: Keyed>()
    ensures { FinishedTellsAll E.view }
{}

/// Where no record is ready, all that is due was popped: what is released before the end is told, and all records
/// after.
pub fn what_is_due_is_popped<E: Keyed>()
    ensures { DueIsPopped E.view }
{}

/// What a window stands for after a push.
pub fn pushes_stand<E: Keyed>()
    ensures { PushesStand E.view }
{}

/// What a window stands for after a pop.
pub fn pops_stand<E: Keyed>()
    ensures { PopsStand E.view }
{}

/// Of two events of one side that are held, the window of the later one is open where that of the earlier one is.
pub fn windows_close_in_order<E: Keyed>()
    ensures { WindowsCloseInOrder E.view }
{}

/// Where a window is open after a push, the pushed event stands in it, and it was open before.
pub fn open_windows_were_open<E: Keyed>()
    ensures { OpenWereOpen E.view }
{}
