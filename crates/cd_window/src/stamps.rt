ghost use Rattle.std.specs.Prelude.{◌≡◌};
ghost use Rattle.cd_pairing.specs.Pairing.{timeout};
ghost use Rattle.cd_pairing.specs.Settling.{is_neither};
ghost use Rattle.cd_window.specs.Seen.{stamped, waits_after};
ghost use Rattle.cd_window.specs.Places.{weighed, is_settled};
ghost use Rattle.cd_window.specs.Waiting.{waits_of, waits_still};

use crate::held::Held;
use crate::waiter::Waiter;
use cd_pairing::{Keyed, LEAST_WEIGHT, Side, Windows};

// A position, with the clock and the sum of weights there.
#[derive(Clone, Copy, Debug)]
pub(crate) struct Stamp {
    pub(crate) index: u64,
    pub(crate) clock: u64,
    pub(crate) weight_sum: u64,
}

fn timeout(windows: &Windows, side: Side) -> u64
    ensures { result ≡ timeout windows.now side }
{
    match side {
        Side::Query => windows.query_ns,
        Side::Response => windows.skew_ns,
        Side::Neither => 0,
    }
}

// After `now.index` events: whether one more of the least weight could stand with one of this side and weight that came
// with this stamp.
fn waits_after(windows: &Windows, now: Stamp, side: Side, then: Stamp, weight: u64) -> bool
    ensures { result ≡
        waits_after windows.now now.index now.clock now.weight_sum (weighed side then weight) }
{
    let passed = now.weight_sum.saturating_sub(then.weight_sum);
    now.index.saturating_sub(then.index) < windows.count
        && now.clock.saturating_sub(then.clock) <= timeout(windows, side)
        && passed <= windows.bytes
        && weight <= windows.bytes - passed
        && LEAST_WEIGHT <= windows.bytes - passed - weight
}

// The same of an event that waits.
pub(crate) fn waits_still(windows: &Windows, side: Side, now: Stamp, waiter: &Waiter) -> bool
    ensures { result ≡ waits_still windows.now side now (waits_of waiter.now) }
{
    let then = Stamp {
        index: waiter.position,
        clock: waiter.clock,
        weight_sum: waiter.weight_sum,
    };
    waits_after(windows, now, side, then, waiter.weight)
}

fn is_neither(side: Side) -> bool
    ensures { result ≡ is_neither side }
{
    match side {
        Side::Neither => true,
        _ => false,
    }
}

// Whether what is held at this position is no query and no response, is paired, or waits no more.
pub(crate) fn is_settled<E: Keyed>(
    windows: &Windows,
    now: Stamp,
    position: u64,
    held: &Held<E>,
) -> bool
    ensures { result ≡ is_settled windows.now now (stamped E.view position held.now) held.now.partner }
{
    let then = Stamp {
        index: position,
        clock: held.clock,
        weight_sum: held.weight_sum,
    };
    let side = held.event.side();
    is_neither(side)
        || held.partner.is_some()
        || !waits_after(windows, now, side, then, held.event.weight())
}
