ghost use Rattle.std.specs.Prelude.{◌≡◌, ◌≤◌, ◌<◌, ◌+◌, ◌-◌, ◌^◌, ℕ, List, length, Option, None, IfOk, OnOk, IfErr, OnErr};
ghost use Rattle.cd_pairing.specs.declared.keyed.TheConstants.{LEAST_WEIGHT};
ghost use Rattle.cd_window.specs.Places.{IsAmong};
ghost use Rattle.cd_window.specs.Waiting.{Waits, waits_of, waits_with, joined_by};
ghost use Rattle.cd_window.specs.Lists.{waits_in, IsListed, HasNoEmpty};
ghost use Rattle.cd_window.specs.Joining.{before_next, after_next, CanJoin, Meets, Joins, Admits};

use crate::held::Held;
use crate::key::key_of;
use crate::places::hold_next;
use crate::stamps::Stamp;
use crate::waiter::Waiter;
use crate::waiting::Waiting;
use cd_pairing::{Keyed, LEAST_WEIGHT, Side, Windows};
use std::alloc::{AllocError, Global};
use std::collections::VecDeque;

// What waits of an event with this stamp.
fn waiter_of<E: Keyed>(alloc: Global, event: &E, stamp: Stamp) -> Result<Waiter, AllocError>
    ensures { IfOk result (λ w. waits_of w ≡
        waits_with (E.view event.now) stamp.index stamp.clock stamp.weight_sum) }
{
    let alone = key_of(alloc, event.primary(), None)?;
    let whole = key_of(alloc, event.primary(), event.secondary())?;
    Ok(Waiter {
        alone,
        whole,
        position: stamp.index,
        clock: stamp.clock,
        weight_sum: stamp.weight_sum,
        weight: event.weight(),
    })
}

// A window that is open for an event of the least weight by this stamp has the next event in it.
fn before_next(next: Stamp) -> Stamp
    requires { LEAST_WEIGHT ≤ next.weight_sum }
    ensures { result ≡ before_next next }
{
    Stamp {
        index: next.index,
        clock: next.clock,
        weight_sum: next.weight_sum - LEAST_WEIGHT,
    }
}

// The stamp of all events once the next one came.
fn after_next(next: Stamp) -> Stamp
    requires { next.index < 2 ^ 63 }
    ensures { result ≡ after_next next }
{
    Stamp {
        index: next.index + 1,
        clock: next.clock,
        weight_sum: next.weight_sum,
    }
}

// Has an event wait unless it has met its partner.
fn wait_unless_met(own: &mut Waiting, waiter: Waiter, met: Option<u64>) -> Result<(), AllocError>
    requires listed { IsListed own.old }
    requires filled { HasNoEmpty own.old }
    requires few { length (waits_in own.old) + 1 < 2 ^ 31 }
    ensures listed { IsListed own.new }
    ensures filled { HasNoEmpty own.new }
    ensures joined { OnOk result (waits_in own.new ≡ joined_by met (waits_of waiter) (waits_in own.old)) }
    ensures alone { OnErr result (met ≡ None) }
    ensures same { OnErr result (waits_in own.new ≡ waits_in own.old) }
{
    match met {
        None => own.wait(waiter),
        Some(_) => Ok(()),
    }
}

// Pairs the next event, of this side, with the first of the other side that agrees with it and still waits, and gives
// that one's position. Where there is none, the event waits.
fn meet<E: Keyed>(
    windows: &Windows,
    side: Side,
    other: Side,
    own: &mut Waiting,
    others: &mut Waiting,
    event: &E,
    next: Stamp,
) -> Result<Option<u64>, AllocError>
    requires own { CanJoin own.old next.index next.clock
        (next.weight_sum - (E.view event.now).weight) }
    requires others { CanJoin others.old next.index next.clock
        (next.weight_sum - (E.view event.now).weight) }
    requires heavy { LEAST_WEIGHT ≤ (E.view event.now).weight }
    requires summed { (E.view event.now).weight ≤ next.weight_sum }
    requires few { next.index < 2 ^ 63 }
    ensures own_listed { IsListed own.new }
    ensures own_filled { HasNoEmpty own.new }
    ensures others_listed { IsListed others.new }
    ensures others_filled { HasNoEmpty others.new }
    ensures met { IfOk result (λ met. Meets windows.now side other
        (waits_with (E.view event.now) next.index next.clock next.weight_sum) next met
        (waits_in own.old) (waits_in others.old) (waits_in own.new) (waits_in others.new)) }
    ensures err_own { OnErr result (waits_in own.new ≡ waits_in own.old) }
    ensures err_others { OnErr result (waits_in others.new ≡ waits_in others.old) }
{
    let waiter = waiter_of(own.alloc, event, next)?;
    let before = before_next(next);
    let met = others.take_agreeing(windows, other, before, &waiter);
    wait_unless_met(own, waiter, met)?;
    let after = after_next(next);
    own.close(windows, side, after);
    others.close(windows, other, after);
    Ok(met)
}

// Pairs the next event with the first that agrees with it and still waits, and gives that one's position. Where there
// is none, a query or a response waits. At an `Err` nothing has changed.
fn join<E: Keyed>(
    windows: &Windows,
    queries: &mut Waiting,
    responses: &mut Waiting,
    event: &E,
    next: Stamp,
) -> Result<Option<u64>, AllocError>
    requires queries { CanJoin queries.old next.index next.clock
        (next.weight_sum - (E.view event.now).weight) }
    requires responses { CanJoin responses.old next.index next.clock
        (next.weight_sum - (E.view event.now).weight) }
    requires heavy { LEAST_WEIGHT ≤ (E.view event.now).weight }
    requires summed { (E.view event.now).weight ≤ next.weight_sum }
    requires few { next.index < 2 ^ 63 }
    ensures queries_listed { IsListed queries.new }
    ensures queries_filled { HasNoEmpty queries.new }
    ensures responses_listed { IsListed responses.new }
    ensures responses_filled { HasNoEmpty responses.new }
    ensures joins { IfOk result (λ met. Joins windows.now (E.view event.now).side
        (waits_with (E.view event.now) next.index next.clock next.weight_sum) next met
        (waits_in queries.old) (waits_in responses.old)
        (waits_in queries.new) (waits_in responses.new)) }
    ensures err_queries { OnErr result (waits_in queries.new ≡ waits_in queries.old) }
    ensures err_responses { OnErr result (waits_in responses.new ≡ waits_in responses.old) }
{
    match event.side() {
        Side::Query => meet(
            windows,
            Side::Query,
            Side::Response,
            queries,
            responses,
            event,
            next,
        ),
        Side::Response => meet(
            windows,
            Side::Response,
            Side::Query,
            responses,
            queries,
            event,
            next,
        ),
        Side::Neither => {
            let after = after_next(next);
            queries.close(windows, Side::Query, after);
            responses.close(windows, Side::Response, after);
            Ok(None)
        }
    }
}

// Holds the next event, paired with the first that agrees with it and still waits, and hands it back where memory runs
// out.
pub(crate) fn admit<E: Keyed + Drop>(
    windows: &Windows,
    first: u64,
    places: &mut VecDeque<Option<Held<E>>>,
    queries: &mut Waiting,
    responses: &mut Waiting,
    event: E,
    next: Stamp,
) -> Result<(), E>
    requires queries { CanJoin queries.old next.index next.clock
        (next.weight_sum - (E.view event).weight) }
    requires responses { CanJoin responses.old next.index next.clock
        (next.weight_sum - (E.view event).weight) }
    requires heavy { LEAST_WEIGHT ≤ (E.view event).weight }
    requires summed { (E.view event).weight ≤ next.weight_sum }
    requires few { next.index < 2 ^ 63 }
    requires among { (met : Option ℕ) (qs rs : List Waits) →
        Joins windows.now (E.view event).side
        (waits_with (E.view event) next.index next.clock next.weight_sum) next met
        (waits_in queries.old) (waits_in responses.old) qs rs → IsAmong first places.old.items met }
    ensures queries_listed { IsListed queries.new }
    ensures queries_filled { HasNoEmpty queries.new }
    ensures responses_listed { IsListed responses.new }
    ensures responses_filled { HasNoEmpty responses.new }
    ensures admitted { OnOk result (Admits E.view windows.now first event next
        places.old.items places.new.items
        (waits_in queries.old) (waits_in responses.old)
        (waits_in queries.new) (waits_in responses.new)) }
    ensures handed_back { IfErr result (λ e. e ≡ event) }
    ensures unchanged { OnErr result (places.new.items ≡ places.old.items) }
    ensures err_queries { OnErr result (waits_in queries.new ≡ waits_in queries.old) }
    ensures err_responses { OnErr result (waits_in responses.new ≡ waits_in responses.old) }
{
    match places.reserve(1) {
        Err(AllocError) => Err(event),
        Ok(()) => match join(windows, queries, responses, &event, next) {
            Err(AllocError) => Err(event),
            Ok(met) => {
                hold_next(first, places, event, next, met);
                Ok(())
            }
        },
    }
}
