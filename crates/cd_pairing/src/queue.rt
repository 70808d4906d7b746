ghost use Rattle.std.specs.Prelude.{◌≡◌, map, MatchOption};
ghost use Rattle.std.specs.Bool.{OnTrue};
ghost use Rattle.cd_pairing.specs.Pairing.{may_pair};
ghost use Rattle.cd_pairing.specs.Waiting.{IsInside, AreInside, event_of};
ghost use Rattle.cd_pairing.specs.Waiting.{IsFirstFit, NothingFits, IsFrontClosed, DropsClosed};

use crate::stamp::{Stamp, is_in_window, may_pair};
use crate::{Keyed, Windows};
use std::collections::VecDeque;

fn front_is_closed<E: Keyed>(
    windows: &Windows,
    events: &[E],
    waiting: &VecDeque<Stamp>,
    now: Stamp,
) -> bool
    requires now_in { IsInside (map E.view events.now) now }
    requires waiting_in { AreInside (map E.view events.now) waiting.now.items }
    ensures { OnTrue result
        (IsFrontClosed windows.now (map E.view events.now) waiting.now.items now) }
{
    match waiting.front() {
        Some(then) => !is_in_window(windows, &events[then.index], *then, &events[now.index], now),
        None => false,
    }
}

// Drops what waits from the front on, as long as its window has closed.
pub(crate) fn drop_closed<E: Keyed>(
    windows: &Windows,
    events: &[E],
    waiting: &mut VecDeque<Stamp>,
    now: Stamp,
)
    requires now_in { IsInside (map E.view events.now) now }
    requires waiting_in { AreInside (map E.view events.now) waiting.old.items }
    ensures { DropsClosed windows.now (map E.view events.now)
        waiting.old.items waiting.new.items now }
{
    'closed: while front_is_closed(windows, events, waiting, now) {
        waiting.pop_front();
    }
}

// Whether what waits may stand with what comes now. An event whose primary has another digest is not looked at.
fn fits<E: Keyed>(windows: &Windows, events: &[E], then: Stamp, now: Stamp) -> bool
    requires then_in { IsInside (map E.view events.now) then }
    requires now_in { IsInside (map E.view events.now) now }
    ensures { result ≡ may_pair windows.now
        (event_of (map E.view events.now) then) (event_of (map E.view events.now) now) }
{
    then.digest == now.digest
        && may_pair(windows, &events[then.index], then, &events[now.index], now)
}

// The number under which the earliest waits that may stand with what comes now.
pub(crate) fn first_fit<E: Keyed>(
    windows: &Windows,
    events: &[E],
    waiting: &VecDeque<Stamp>,
    now: Stamp,
) -> Option<usize>
    requires now_in { IsInside (map E.view events.now) now }
    requires waiting_in { AreInside (map E.view events.now) waiting.now.items }
    ensures { MatchOption result
        (NothingFits windows.now (map E.view events.now) waiting.now.items now)
        (IsFirstFit windows.now (map E.view events.now) waiting.now.items now) }
{
    'waiting: for k in 0..waiting.len() {
        if fits(windows, events, waiting[k], now) {
            return Some(k);
        }
    }
    None
}
