ghost use Rattle.std.specs.Prelude.{◌≡◌};
ghost use Rattle.cd_pairing.specs.Events.{are_opposite, secondaries_agree};
ghost use Rattle.cd_pairing.specs.Pairing.{timeout, identifiers_agree, is_in_window, may_pair};
ghost use Rattle.cd_pairing.specs.Waiting.{with_stamp};

use crate::{Keyed, Side, Windows};

// A position, with the clock and the sum of the weights there, and the digest of the primary of its event.
#[derive(Clone, Copy, Debug)]
pub(crate) struct Stamp {
    pub(crate) index: usize,
    pub(crate) clock: u64,
    pub(crate) weight_sum: u64,
    pub(crate) digest: u64,
}

fn are_opposite(a: Side, b: Side) -> bool
    ensures { result ≡ are_opposite a b }
{
    match (a, b) {
        (Side::Query, Side::Response) => true,
        (Side::Response, Side::Query) => true,
        _ => false,
    }
}

fn timeout(windows: &Windows, side: Side) -> u64
    ensures { result ≡ timeout windows.now side }
{
    match side {
        Side::Query => windows.query_ns,
        Side::Response => windows.skew_ns,
        Side::Neither => 0,
    }
}

fn secondaries_agree<E: Keyed>(a: &E, b: &E) -> bool
    ensures { result ≡ secondaries_agree (E.view a.now).secondary (E.view b.now).secondary }
{
    match a.secondary() {
        None => true,
        Some(x) => match b.secondary() {
            None => true,
            Some(y) => x == y,
        },
    }
}

fn identifiers_agree<E: Keyed>(a: &E, b: &E) -> bool
    ensures { result ≡ identifiers_agree (E.view a.now) (E.view b.now) }
{
    a.primary() == b.primary() && secondaries_agree(a, b)
}

// Whether what comes now comes while the other still waits.
#[tactic(auto, unfolding(crate::specs::Pairing::is_in_window))]
pub(crate) fn is_in_window<E: Keyed>(
    windows: &Windows,
    waiting: &E,
    then: Stamp,
    event: &E,
    now: Stamp,
) -> bool
    ensures { result ≡
        is_in_window windows.now (with_stamp (E.view waiting.now) then) (with_stamp (E.view event.now) now) }
{
    let passed = now.weight_sum.saturating_sub(then.weight_sum);
    now.clock.saturating_sub(then.clock) <= timeout(windows, waiting.side())
        && (now.index.saturating_sub(then.index) as u64) < windows.count
        && passed <= windows.bytes
        && waiting.weight() <= windows.bytes - passed
}

// Whether what waits may stand with what comes now.
#[tactic(auto, unfolding(crate::specs::Pairing::may_pair))]
pub(crate) fn may_pair<E: Keyed>(
    windows: &Windows,
    waiting: &E,
    then: Stamp,
    event: &E,
    now: Stamp,
) -> bool
    ensures { result ≡
        may_pair windows.now (with_stamp (E.view waiting.now) then) (with_stamp (E.view event.now) now) }
{
    are_opposite(waiting.side(), event.side())
        && identifiers_agree(waiting, event)
        && is_in_window(windows, waiting, then, event, now)
}
