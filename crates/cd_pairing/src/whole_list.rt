ghost use Rattle.std.specs.Prelude.{◌≡◌, ◌<◌, ◌+◌, ◌^◌, max, false, Some, None, OnOk, IfOk};
ghost use Rattle.std.specs.Prelude.{◌∷◌, [], ◌++◌, length, map, slice_set, take};
ghost use Rattle.std.specs.List.{fold, sum_by, remove};
ghost use Rattle.cd_pairing.specs.Events.{event_at};
ghost use Rattle.cd_pairing.specs.Pairing.{IsPairing};
ghost use Rattle.cd_pairing.specs.Settling.{is_neither};
ghost use Rattle.cd_pairing.specs.Waiting.{ArePaired, HasPaired, stamp_at, stamp_under};

use crate::digest::digest_of;
use crate::queue::{drop_closed, first_fit};
use crate::stamp::Stamp;
use crate::{Keyed, Side, Windows};
use cd_name::List;
use std::alloc::{AllocError, Global};
use std::collections::VecDeque;

// The partners of the events so far, and by side, in order, those that are unpaired and still wait.
#[derive(Drop)]
struct Matcher {
    partners: Vec<Option<usize>>,
    queries: VecDeque<Stamp>,
    responses: VecDeque<Stamp>,
    clock: u64,
    weight_sum: u64,
}

// Pairs the next event with the one that waits under this number.
fn join(
    partners: &mut Vec<Option<usize>>,
    others: &mut VecDeque<Stamp>,
    k: usize,
    now: Stamp,
) -> Result<(), AllocError>
    requires waits { k < length others.old.items }
    requires known { (stamp_under others.old.items k).index < length partners.old.items }
    ensures partners { OnOk result (partners.new.items ≡
        slice_set partners.old.items (stamp_under others.old.items k).index (Some now.index)
        ++ Some ((stamp_under others.old.items k).index) ∷ []) }
    ensures others { OnOk result (others.new.items ≡ remove others.old.items k) }
{
    let then = others[k];
    others.remove(k);
    partners[then.index] = Some(now.index);
    partners.push(Some(then.index))?;
    Ok(())
}

// Leaves the next event unpaired, to wait.
fn leave(
    partners: &mut Vec<Option<usize>>,
    own: &mut VecDeque<Stamp>,
    now: Stamp,
) -> Result<(), AllocError>
    ensures partners { OnOk result (partners.new.items ≡ partners.old.items ++ None ∷ []) }
    ensures own { OnOk result (own.new.items ≡ own.old.items ++ now ∷ []) }
{
    partners.push(None)?;
    own.push_back(now)?;
    Ok(())
}

// Takes the next event, a query or a response: `others` wait for it, and `own` are of its side.
fn meet<E: Keyed>(
    windows: &Windows,
    events: &[E],
    partners: &mut Vec<Option<usize>>,
    others: &mut VecDeque<Stamp>,
    own: &mut VecDeque<Stamp>,
    now: Stamp,
) -> Result<(), AllocError>
    requires room { length partners.old.items < length events.now }
    requires next { now ≡ stamp_at (map E.view events.now) (length partners.old.items) }
    requires waits { is_neither (event_at (map E.view events.now) now.index).side ≡ false }
    requires paired { ArePaired windows.now (map E.view events.now) partners.old.items
        (event_at (map E.view events.now) now.index).side others.old.items own.old.items }
    ensures count { OnOk result (length partners.new.items ≡ length partners.old.items + 1) }
    ensures paired { OnOk result (ArePaired windows.now (map E.view events.now) partners.new.items
        (event_at (map E.view events.now) now.index).side others.new.items own.new.items) }
{
    drop_closed(windows, events, others, now);
    match first_fit(windows, events, others, now) {
        Some(k) => join(partners, others, k, now),
        None => leave(partners, own, now),
    }
}

impl Matcher {
    // The stamp of the next event.
    fn next<E: Keyed>(&self, events: &[E]) -> Stamp
        requires room { length self.now.partners.items < length events.now }
        requires light { sum_by (λ e. e.weight) (map E.view events.now) < 2 ^ 63 }
        requires clock { self.now.clock ≡
            fold (λ latest e. max latest e.time) 0 (take (length self.now.partners.items) (map E.view events.now)) }
        requires weight_sum { self.now.weight_sum ≡
            sum_by (λ e. e.weight) (take (length self.now.partners.items) (map E.view events.now)) }
        ensures { result ≡ stamp_at (map E.view events.now) (length self.now.partners.items) }
    {
        let index = self.partners.len();
        let event = &events[index];
        Stamp {
            index,
            clock: self.clock.max(event.time()),
            weight_sum: self.weight_sum + event.weight(),
            digest: digest_of(event.primary()),
        }
    }

    // Takes the next event.
    fn add<E: Keyed>(&mut self, windows: &Windows, events: &[E]) -> Result<(), AllocError>
        requires room { length self.old.partners.items < length events.now }
        requires light { sum_by (λ e. e.weight) (map E.view events.now) < 2 ^ 63 }
        requires paired { HasPaired windows.now (map E.view events.now) self.old }
        ensures count { OnOk result
            (length self.new.partners.items ≡ length self.old.partners.items + 1) }
        ensures paired { OnOk result (HasPaired windows.now (map E.view events.now) self.new) }
    {
        let now = self.next(events);
        self.clock = now.clock;
        self.weight_sum = now.weight_sum;
        let Matcher {
            partners,
            queries,
            responses,
            ..
        } = self;
        match events[now.index].side() {
            Side::Query => meet(windows, events, partners, responses, queries, now),
            Side::Response => meet(windows, events, partners, queries, responses, now),
            Side::Neither => {
                partners.push(None)?;
                Ok(())
            }
        }
    }
}

/// For each position the position of its partner in the one pairing of these events, or none.
///
/// The weights of all events together stay below 2^63. The only error is that memory runs out. Each event is compared
/// with those of the other side that are unpaired and in whose windows it may stand, so the work is by the number of
/// events and of those that wait at a time. An event that waits with another primary costs one comparison of two
/// numbers: a digest of each primary is kept, and only where digests are equal are the events looked at.
pub fn pair_all<E: Keyed>(
    alloc: Global,
    events: &[E],
    windows: &Windows,
) -> Result<List<Option<usize>>, AllocError>
    requires { sum_by (λ e. e.weight) (map E.view events.now) < 2 ^ 63 }
    ensures { IfOk result (λ partners. IsPairing windows.now (map E.view events.now) partners) }
{
    let mut matcher = Matcher {
        partners: Vec::new(alloc),
        queries: VecDeque::new(alloc),
        responses: VecDeque::new(alloc),
        clock: 0,
        weight_sum: 0,
    };
    'events: for _ in events {
        matcher.add(windows, events)?;
    }
    let Matcher { partners, .. } = matcher;
    Ok(List::from_vec(partners))
}
