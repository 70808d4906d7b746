ghost use Rattle.std.specs.Prelude.{None};
ghost use Rattle.cd_pairing.specs.Events.{EventView};

use cd_name::List;
use cd_pairing::{Keyed, Side, Windows, pair_all};
use std::alloc::{AllocError, Global};

// An event of a client with no secondary, weighing 256.
#[derive(Drop)]
struct Sample {
    side: Side,
    time: u64,
    client: [u8; 3],
}

impl Keyed for Sample {
    ghost view = { λ s. record { side = s.side; time = s.time; weight = 256; primary = s.client; secondary = None } };

    fn side(&self) -> Side {
        self.side
    }

    fn time(&self) -> u64 {
        self.time
    }

    fn weight(&self) -> u64 {
        256
    }

    fn primary(&self) -> &[u8] {
        &self.client
    }

    fn secondary(&self) -> Option<&[u8]> {
        None
    }
}

const SECOND: u64 = 1_000_000_000;

const WINDOWS: Windows = Windows {
    query_ns: 5 * SECOND,
    skew_ns: 10_000,
    count: 262_144,
    bytes: 268_435_456,
};

// The partners of these events, of which there are at most 100,000.
fn pair_samples(alloc: Global, events: &[Sample]) -> Result<List<Option<usize>>, AllocError> {
    let few = &events[..events.len().min(100_000)];
    pair_all(alloc, few, &WINDOWS)
}

const LOOKUPS: u64 = 40_000;

// Lookups 2.5 ms apart, which is 100 s in all, each with its response 0.1 ms after it. Every sixteenth has an
// event of no side for its response, so that its query waits until its window closes.
fn make_lookups(alloc: Global) -> Result<Vec<Sample>, AllocError> {
    let mut events = Vec::new(alloc);
    for k in 0..LOOKUPS {
        let time = k * 2_500_000;
        let client = [(k % 64) as u8, (k / 256 % 256) as u8, (k % 256) as u8];
        let answer = if k % 16 == 0 {
            Side::Neither
        } else {
            Side::Response
        };
        events.push(Sample {
            side: Side::Query,
            time,
            client,
        })?;
        events.push(Sample {
            side: answer,
            time: time + 100_000,
            client,
        })?;
    }
    Ok(events)
}

#[test]
fn many_lookups_are_paired(rt: HostRuntime) {
    let events = make_lookups(rt.alloc()).expect(&rt, "there is memory");
    let partners = pair_samples(rt.alloc(), &events).expect(&rt, "there is memory");
    let mut pairs = 0u64;
    for (i, partner) in partners.as_slice().iter().enumerate() {
        if let Some(j) = *partner {
            assert_eq!(rt; i / 2, j / 2, "the lookup of {i}");
            if i < j {
                pairs = pairs.saturating_add(1);
            }
        }
    }
    assert_eq!(rt; pairs, 37_500);
}
