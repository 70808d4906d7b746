//! Events, matched and filed one by one.

ghost use Rattle.std.specs.Prelude.{◌≡◌, ℕ, ◌+◌, ◌<◌, ◌≤◌, ◌^◌, true, false, List, [], ◌∷◌, ◌++◌, length, IfOk, OnOk, OnErr};
ghost use Rattle.cd_hints.specs.Records.{record_parts, HasKinds};
ghost use Rattle.cd_hints.specs.Validity.{IsValid};
ghost use Rattle.cd_ident.specs.Events.{EventParts};
ghost use Rattle.cd_ident.specs.Keys.{parts_of};
ghost use Rattle.cd_ident.specs.declared.event_making.TheConstants.{GREATEST_WEIGHT};
ghost use Rattle.cd_record.specs.Runs.{limits_of};
ghost use Rattle.cd_window.specs.Pops.{IsTrimmed};
ghost use Rattle.cd_engine.specs.Behaving.{file_of_events, closed_part_of_events, all_records, runs_of};
ghost use Rattle.cd_engine.specs.Blocks.{released_parts, HoldsTraffic, BlocksStand, FilesReady};
ghost use Rattle.cd_engine.specs.Counting.{held_in_64, record_counts, held_record_counts};
ghost use Rattle.cd_engine.specs.Records.{windows_of, single_record};

use crate::filing::{FiledRecords, Filing};
use cd_hints::{Rec, Settings};
use cd_ident::{Event, Kind};
use cd_pairing::Windows;
use cd_window::{Released, Window};
use std::alloc::{AllocError, Global};
use std::marker::Model;

/// Events that are matched and filed one by one. The output is the front of their file that is closed. Where a call
/// finds no memory it is *spent*: it is of no more use then.
#[derive(Drop)]
pub(crate) struct Blocks {
    window: Window<Event>,
    filing: Filing,
    spent: bool,
}

impl Model for Blocks {
    ghost use Rattle.std.specs.Coded.{codes};
    ghost use Rattle.std.specs.Prelude.{◌≡◌, false};
    ghost use Rattle.cd_ident.specs.contracts.event.Event as event;
    ghost use Rattle.cd_engine.specs.Blocks.{BlocksSeen, IsDrained};

    ghost Value = { BlocksSeen };

    ghost coded = { Prim.hlevel (codes, event.the_row.coded) };

    ghost view = { λ b. record { window = b.window; filing = b.filing; spent = b.spent } };

    ghost invariant = { λ b. b.spent ≡ false → IsDrained b.window b.filing };
}

// The windows of these settings.
fn windows_of(settings: &Settings) -> Windows
    requires { IsValid settings.now }
    ensures { result ≡ windows_of settings.now }
{
    let query_ms = settings.params.query_ms.unwrap_or(0);
    let skew_us = settings.params.skew_us.unwrap_or(0);
    Windows {
        query_ns: query_ms * 1_000_000,
        skew_ns: skew_us * 1_000,
        count: settings.window,
        bytes: settings.window_bytes,
    }
}

// An event as a record of its own.
fn single_record(event: Event) -> Rec
    ensures parts { record_parts result ≡ single_record (parts_of event) }
    ensures kinds { HasKinds (record_parts result) }
{
    match event.kind {
        Kind::Query => Rec::Query(event),
        Kind::Response => Rec::Response(event),
        Kind::Malformed => Rec::Malformed(event),
        Kind::Discarded => Rec::Discarded(event),
    }
}

// The record that was released.
fn record_of(released: Released<Event>) -> Rec
    ensures { record_parts result ≡ released_parts released }
{
    match released {
        Released::Pair {
            query,
            response,
            ..
        } => Rec::Pair { query, response },
        Released::One { event, .. } => single_record(event),
    }
}

// Pops and files each record that is ready by now.
fn file_ready(window: &mut Window<Event>, filing: &mut Filing) -> Result<(), AllocError>
    requires trimmed { IsTrimmed window.old }
    requires traffic { HoldsTraffic window.old }
    ensures { OnOk result (FilesReady window.old filing.old window.new filing.new) }
{
    'ready: loop {
        match window.pop() {
            None => return Ok(()),
            Some(released) => filing.push(record_of(released))?,
        }
    }
}

impl Blocks {
    /// No event, under valid settings. The head of the file is ready.
    pub(crate) fn new(alloc: Global, settings: Settings) -> Result<Blocks, AllocError>
        requires { IsValid settings }
        ensures stands { IfOk result (λ b. BlocksStand b [] []) }
        ensures settings { IfOk result (λ b. b.filing.settings ≡ settings) }
        ensures light { IfOk result (λ b. b.window.weight_sum ≡ 0) }
        ensures fresh { IfOk result (λ b. b.spent ≡ false) }
    {
        Ok(Blocks {
            window: Window::new(alloc, windows_of(&settings))?,
            filing: Filing::new(alloc, settings)?,
            spent: false,
        })
    }

    /// Takes the next event, which weighs no more than that of a datagram. All events weigh less than 2^63 together.
    pub(crate) fn push(&mut self, event: Event) -> Result<(), AllocError>
        requires fresh { self.old.spent ≡ false }
        requires weight { event.weight ≤ GREATEST_WEIGHT }
        requires light { self.old.window.weight_sum + event.weight < 2 ^ 63 }
        ensures history { OnOk result ((events : List EventParts) (cleared : List ℕ) →
            BlocksStand self.old events cleared → BlocksStand self.new (events ++ parts_of event ∷ []) cleared) }
        ensures settings { OnOk result (self.new.filing.settings ≡ self.old.filing.settings) }
        ensures sum { OnOk result (self.new.window.weight_sum ≡ self.old.window.weight_sum + event.weight) }
        ensures fresh { OnOk result (self.new.spent ≡ false) }
        ensures lost { OnErr result (self.new.spent ≡ true) }
    {
        self.spent = true;
        match self.window.push(event) {
            Ok(()) => {}
            Err(_) => return Err(AllocError),
        }
        file_ready(&mut self.window, &mut self.filing)?;
        self.spent = false;
        Ok(())
    }

    /// Whether a call found no memory.
    pub(crate) fn is_spent(&self) -> bool
        ensures { result ≡ self.now.spent }
    {
        self.spent
    }

    /// Notes that memory ran out.
    pub(crate) fn spend(&mut self)
        ensures { self.new ≡ record self.old { spent = true } }
    {
        self.spent = true;
    }

    /// The front of the file that is closed and was not cleared.
    pub(crate) fn output(&self) -> &[u8]
        requires { self.now.spent ≡ false }
        ensures { (events : List EventParts) (cleared : List ℕ) → BlocksStand self.now events cleared →
            cleared ++ result.now ≡ closed_part_of_events self.now.filing.settings events }
    {
        self.filing.output()
    }

    /// Clears the front of the file that is closed.
    pub(crate) fn clear_output(&mut self)
        requires { self.old.spent ≡ false }
        ensures history { (events : List EventParts) (cleared : List ℕ) → BlocksStand self.old events cleared →
            BlocksStand self.new events (closed_part_of_events self.old.filing.settings events) }
        ensures settings { self.new.filing.settings ≡ self.old.filing.settings }
        ensures same { self.new.window ≡ self.old.window }
        ensures fresh { self.new.spent ≡ self.old.spent }
    {
        self.filing.clear_output();
    }

    /// Ends the file of the events.
    pub(crate) fn finish(self) -> Result<FiledRecords, AllocError>
        requires { self.spent ≡ false }
        ensures output { IfOk result (λ f. (events : List EventParts) (cleared : List ℕ) →
            BlocksStand self events cleared → cleared ++ f.output ≡ file_of_events self.filing.settings events) }
        ensures blocks { IfOk result (λ f. (events : List EventParts) (cleared : List ℕ) →
            BlocksStand self events cleared →
            f.blocks ≡ held_in_64 (length (runs_of (limits_of self.filing.settings) (all_records self.filing.settings events)))) }
        ensures counts { IfOk result (λ f. (events : List EventParts) (cleared : List ℕ) →
            BlocksStand self events cleared →
            f.counts ≡ held_record_counts (record_counts self.filing.settings.params.rr_types
            (all_records self.filing.settings events))) }
    {
        let Blocks {
            mut window,
            mut filing,
            ..
        } = self;
        window.finish();
        file_ready(&mut window, &mut filing)?;
        filing.finish()
    }
}
