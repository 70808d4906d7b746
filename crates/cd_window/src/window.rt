ghost use Rattle.std.specs.Prelude.{◌≡◌, ◌<◌, ◌≤◌, ◌+◌, ◌^◌, true, false, List, [], ◌∷◌, ◌++◌};
ghost use Rattle.std.specs.Prelude.{IfOk, OnOk, IfErr, OnErr, Option, Some, None, length, map};
ghost use Rattle.std.specs.List.{sum_by};
ghost use Rattle.cd_pairing.specs.declared.keyed.TheConstants.{LEAST_WEIGHT};
ghost use Rattle.cd_window.specs.declared.released.Released.{Released};
ghost use Rattle.cd_window.specs.Seen.{empty_window, is_ready, held_count, held_weight};
ghost use Rattle.cd_window.specs.Pushes.{IsPushed};
ghost use Rattle.cd_window.specs.Pops.{IsPopped, IsTrimmed};
ghost use Rattle.cd_window.specs.History.{StandsFor, listed, events_in, weight_in};

use crate::Released;
use crate::held::Held;
use crate::joining::admit;
use crate::places::{held_at, take_front, trim};
use crate::released::{events_in, weight_in};
use crate::stamps::{Stamp, is_settled};
use crate::waiting::Waiting;
use cd_pairing::{Keyed, Windows};
use std::alloc::{AllocError, Global};
use std::collections::VecDeque;
use std::marker::Model;

/// Events in order, paired as they come, and held until no later event changes their records.
#[derive(Drop)]
pub struct Window<E: Keyed> {
    windows: Windows,
    finished: bool,
    // The position of the front of `places`.
    first: u64,
    // The clock and the sum of weights at the last event.
    clock: u64,
    weight_sum: u64,
    // By position from `first` on, the event that is held: none where it was popped with an earlier one.
    places: VecDeque<Option<Held<E>>>,
    // How many events are held, and their weight.
    count: u64,
    weight: u64,
    // By side, the events that are held, are unpaired and have open windows.
    queries: Waiting,
    responses: Waiting,
}

impl<E: Keyed> Model for Window<E> {
    ghost use Rattle.cd_window.specs.Seen.{Seen};
    ghost use Rattle.cd_window.specs.SeenCode.{seen_code};
    ghost use Rattle.cd_window.specs.Keeping.{Keeps};
    ghost use Rattle.cd_window.specs.Lists.{KeepsWaiting};

    ghost Value = { Seen E };

    ghost coded = { seen_code E.code };

    ghost view = { λ a. record {
      windows = a.windows;
      finished = a.finished;
      first = a.first;
      clock = a.clock;
      weight_sum = a.weight_sum;
      held = a.places.items;
    } };

    ghost invariant = { λ a. let w : Seen E = record {
      windows = a.windows;
      finished = a.finished;
      first = a.first;
      clock = a.clock;
      weight_sum = a.weight_sum;
      held = a.places.items;
    } in Keeps E.view w a.count a.weight × KeepsWaiting E.view w a.queries a.responses };
}

impl<E: Keyed + Drop> Window<E> {
    /// A window that was given no event. `windows.count` is at least 1 and below 2^31. The only error is that memory
    /// runs out.
    pub fn new(alloc: Global, windows: Windows) -> Result<Window<E>, AllocError>
        requires some { 1 ≤ windows.count }
        requires few { windows.count < 2 ^ 31 }
        ensures empty { IfOk result (λ w. w ≡ empty_window windows) }
        ensures stands { IfOk result (λ w. StandsFor E.view w [] []) }
    {
        let queries = Waiting::new(alloc)?;
        let responses = Waiting::new(alloc)?;
        Ok(Window {
            windows,
            finished: false,
            first: 0,
            clock: 0,
            weight_sum: 0,
            places: VecDeque::new(alloc),
            count: 0,
            weight: 0,
            queries,
            responses,
        })
    }

    /// Gives the event the next position, and pairs it where the pairing says so. `finish` was not called, no record is
    /// ready, the event weighs at least `LEAST_WEIGHT`, and all events pushed weigh less than 2^63 together. Only where
    /// memory runs out it hands the event back, and the window is unchanged.
    pub fn push(&mut self, event: E) -> Result<(), E>
        requires going { self.old.finished ≡ false }
        requires due { is_ready E.view self.old ≡ false }
        requires heavy { LEAST_WEIGHT ≤ (E.view event).weight }
        requires light { self.old.weight_sum + (E.view event).weight < 2 ^ 63 }
        ensures pushed { OnOk result (IsPushed E.view self.old event self.new) }
        ensures stands { (pushed : List E) (popped : List (Released E)) →
            StandsFor E.view self.old pushed popped →
            OnOk result (StandsFor E.view self.new (pushed ++ event ∷ []) popped) }
        ensures handed_back { IfErr result (λ e. e ≡ event) }
        ensures unchanged { OnErr result (self.new ≡ self.old) }
    {
        let next = Stamp {
            index: self.first + self.places.len() as u64,
            clock: self.clock.max(event.time()),
            weight_sum: self.weight_sum + event.weight(),
        };
        let weight = event.weight();
        if let Err(refused) = admit(
            &self.windows,
            self.first,
            &mut self.places,
            &mut self.queries,
            &mut self.responses,
            event,
            next,
        ) {
            return Err(refused);
        }
        self.clock = next.clock;
        self.weight_sum = next.weight_sum;
        self.count += 1;
        self.weight += weight;
        Ok(())
    }

    /// The record of the front, which is held no more. None exactly where nothing is held, or where the front is
    /// unpaired, its window is open and `finish` was not called. It takes no memory.
    pub fn pop(&mut self) -> Option<Released<E>>
        ensures popped { IsPopped E.view self.old result self.new }
        ensures stands { (pushed : List E) (popped : List (Released E)) →
            StandsFor E.view self.old pushed popped →
            StandsFor E.view self.new pushed (popped ++ listed result) }
    {
        if !self.ready() {
            return None;
        }
        self.queries.take_front(self.first);
        self.responses.take_front(self.first);
        let record = take_front(self.first, &mut self.places);
        self.first += trim(&mut self.places);
        self.count -= events_in(&record);
        self.weight -= weight_in(&record);
        Some(record)
    }

    /// Whether `pop` would give a record. The front is held, or nothing is: so all that is due was popped where no
    /// record is ready.
    pub fn ready(&self) -> bool
        ensures ready { result ≡ is_ready E.view self.now }
        ensures trimmed { IsTrimmed self.now }
    {
        let now = Stamp {
            index: self.first + self.places.len() as u64,
            clock: self.clock,
            weight_sum: self.weight_sum,
        };
        match held_at(&self.places, 0) {
            Some(held) => self.finished || is_settled(&self.windows, now, self.first, held),
            None => false,
        }
    }

    /// Tells that no event comes any more: whatever is held is ready.
    pub fn finish(&mut self)
        ensures told { self.new ≡ record self.old { finished = true } }
        ensures stands { (pushed : List E) (popped : List (Released E)) →
            StandsFor E.view self.old pushed popped → StandsFor E.view self.new pushed popped }
    {
        self.finished = true;
    }

    /// How many events are held: those that were pushed and stand in no popped record.
    pub fn held(&self) -> u64
        ensures count { result ≡ held_count self.now }
        ensures bounded { is_ready E.view self.now ≡ false → result < self.now.windows.count }
        ensures unpopped { (pushed : List E) (popped : List (Released E)) →
            StandsFor E.view self.now pushed popped → result + sum_by events_in popped ≡ length pushed }
    {
        self.count
    }

    /// The weight of the events that are held, in the unit of `Keyed::weight`.
    pub fn held_weight(&self) -> u64
        ensures weight { result ≡ held_weight E.view self.now }
        ensures bounded { is_ready E.view self.now ≡ false → result ≤ self.now.windows.bytes }
        ensures unpopped { (pushed : List E) (popped : List (Released E)) →
            StandsFor E.view self.now pushed popped →
            result + sum_by (weight_in E.view) popped ≡ sum_by (λ e. e.weight) (map E.view pushed) }
    {
        self.weight
    }
}
