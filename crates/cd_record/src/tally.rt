//! What the records of a run count, weigh, and their least tick.

ghost use Rattle.std.specs.Prelude.{◌≡◌, ℕ, ◌<◌, ◌^◌, ◌↔◌, [], IsTrue};
ghost use Rattle.cd_hints.specs.Options.{Admits};
ghost use Rattle.cd_hints.specs.Records.{record_parts};
ghost use Rattle.cd_hints.specs.declared.settings.options.NumberOption.TheVariants.{Ticks};
ghost use Rattle.cd_record.specs.Earliest;
ghost use Rattle.cd_record.specs.Runs.{record_weight};
ghost use Rattle.cd_record.specs.Tallies;

use cd_block::Stats;
use cd_hints::{Rec, tick_of};

// What some records count, weigh, and their least tick.
#[derive(Clone, Copy, Debug)]
pub(crate) struct Tally {
    pub(crate) stats: Stats,
    pub(crate) weight: u64,
    // None where no record has a time.
    pub(crate) earliest: Option<u64>,
}

// The statistics with one more record.
fn stats_with(stats: Stats, rec: &Rec) -> Stats
    requires { Tallies.HaveRoom stats }
    ensures { result ≡ Tallies.stats_with stats (record_parts rec.now) }
{
    match rec {
        Rec::Pair { .. } => Stats {
            processed: stats.processed + 2,
            items: stats.items + 1,
            ..stats
        },
        Rec::Query(_) => Stats {
            processed: stats.processed + 1,
            items: stats.items + 1,
            unmatched_queries: stats.unmatched_queries + 1,
            ..stats
        },
        Rec::Response(_) => Stats {
            processed: stats.processed + 1,
            items: stats.items + 1,
            unmatched_responses: stats.unmatched_responses + 1,
            ..stats
        },
        Rec::Malformed(_) => Stats {
            malformed: stats.malformed + 1,
            ..stats
        },
        Rec::Discarded(_) => Stats {
            processed: stats.processed + 1,
            discarded: stats.discarded + 1,
            ..stats
        },
    }
}

// The weight of a record: that of its events.
fn weight_of(rec: &Rec) -> u64
    requires { record_weight (record_parts rec.now) < 2 ^ 64 }
    ensures { result ≡ record_weight (record_parts rec.now) }
{
    match rec {
        Rec::Pair { query, response } => query.weight + response.weight,
        Rec::Query(event) | Rec::Response(event) | Rec::Malformed(event) | Rec::Discarded(event) =>
            event.weight,
    }
}

// The time of a record: a pair has that of its query, and what is discarded has none.
fn time_of(rec: &Rec) -> Option<u64>
    ensures { result ≡ Earliest.time_of (record_parts rec.now) }
{
    match rec {
        Rec::Pair { query, .. } => Some(query.time),
        Rec::Query(event) | Rec::Response(event) | Rec::Malformed(event) => Some(event.time),
        Rec::Discarded(_) => None,
    }
}

// The tick of a record's time.
fn record_tick(ticks: u64, rec: &Rec) -> Option<u64>
    requires { Admits Ticks ticks }
    ensures { result ≡ Earliest.record_tick ticks (record_parts rec.now) }
{
    time_of(rec).map(|time| tick_of(ticks, time))
}

// The lesser of two ticks, where both are there.
fn earlier(one: Option<u64>, other: Option<u64>) -> Option<u64>
    ensures { result ≡ Tallies.earlier one other }
{
    match (one, other) {
        (Some(one), Some(other)) => Some(one.min(other)),
        (Some(_), None) => one,
        (None, _) => other,
    }
}

impl Tally {
    // The tally of no record.
    pub(crate) fn none() -> Tally
        ensures { (ticks : ℕ) → result ≡ Tallies.tally_of ticks [] }
    {
        Tally {
            stats: Stats {
                processed: 0,
                items: 0,
                unmatched_queries: 0,
                unmatched_responses: 0,
                discarded: 0,
                malformed: 0,
            },
            weight: 0,
            earliest: None,
        }
    }

    // The tally with one more record. A second has so many ticks.
    pub(crate) fn with(&self, ticks: u64, rec: &Rec) -> Tally
        requires ticks { Admits Ticks ticks }
        requires room { Tallies.HasRoom self.now (record_parts rec.now) }
        ensures { result ≡ Tallies.tally_with ticks self.now (record_parts rec.now) }
    {
        Tally {
            stats: stats_with(self.stats, rec),
            weight: self.weight + weight_of(rec),
            earliest: earlier(self.earliest, record_tick(ticks, rec)),
        }
    }

    // Whether records of this tally may stand in one block.
    pub(crate) fn is_within(&self, max_items: u64, max_weight: u64) -> bool
        ensures { IsTrue result ↔ Tallies.IsWithin (record { items = max_items; weight = max_weight }) self.now }
    {
        self.stats.items <= max_items
            && self.stats.malformed <= max_items
            && self.weight <= max_weight
    }
}
