ghost use Rattle.std.specs.Prelude.{◌≡◌, false, Some};
ghost use Rattle.cd_pairing.specs.Events.{EventView};

use cd_pairing::{Keyed, Side, Windows};
use cd_window::{Released, Window};
use std::alloc::{AllocError, Global};

const WEIGHT: u64 = 256;

// An event of a client with an identifier of its own.
#[derive(Drop)]
struct Exchange {
    side: Side,
    time: u64,
    client: [u8; 2],
    id: [u8; 4],
}

impl Keyed for Exchange {
    ghost view = { λ s. record { side = s.side; time = s.time; weight = 256; primary = s.client; secondary = Some s.id } };

    fn side(&self) -> Side {
        self.side
    }

    fn time(&self) -> u64 {
        self.time
    }

    fn weight(&self) -> u64 {
        WEIGHT
    }

    fn primary(&self) -> &[u8] {
        &self.client
    }

    fn secondary(&self) -> Option<&[u8]> {
        Some(&self.id)
    }
}

const SECOND: u64 = 1_000_000_000;

const WINDOWS: Windows = Windows {
    query_ns: 5 * SECOND,
    skew_ns: 5 * SECOND,
    count: 1_000_000,
    bytes: 1_000_000_000,
};

// How many records were popped.
#[derive(Drop)]
struct Popped {
    pairs: u64,
    singles: u64,
}

fn count(popped: &mut Popped, released: &Released<Exchange>) {
    match released {
        Released::Pair { .. } => popped.pairs = popped.pairs.saturating_add(1),
        Released::One { .. } => popped.singles = popped.singles.saturating_add(1),
    }
}

// A window that takes events, and pops what is ready behind each.
#[derive(Drop)]
struct Taker {
    window: Window<Exchange>,
    weight: u64,
    ghost weighed: { window.weight_sum ≡ weight },
    ghost going: { window.finished ≡ false },
}

impl Taker {
    fn new(alloc: Global) -> Result<Taker, AllocError> {
        let window = Window::new(alloc, WINDOWS)?;
        Ok(Taker { window, weight: 0 })
    }

    fn push(&mut self, event: Exchange) -> Result<(), AllocError> {
        let Some(weight) = self.weight.checked_add(WEIGHT) else {
            return Err(AllocError);
        };
        if weight > 1_000_000_000_000 || self.window.ready() {
            return Err(AllocError);
        }
        match self.window.push(event) {
            Ok(()) => {
                self.weight = weight;
                Ok(())
            }
            Err(_) => Err(AllocError),
        }
    }

    fn pop_ready(&mut self, popped: &mut Popped) {
        for _ in 0..self.window.held() {
            match self.window.pop() {
                Some(released) => count(popped, &released),
                None => return,
            }
        }
    }

    fn pop_rest(self, popped: &mut Popped) {
        let Taker { mut window, .. } = self;
        window.finish();
        for _ in 0..window.held() {
            match window.pop() {
                Some(released) => count(popped, &released),
                None => return,
            }
        }
    }
}

fn make_exchange(side: Side, time: u64, client: u8, id: u32) -> Exchange {
    Exchange {
        side,
        time,
        client: [client, 1],
        id: id.to_be_bytes(),
    }
}

const OPEN: u32 = 100_000;

// So many queries of one client, all of which wait.
fn open_queries(alloc: Global) -> Result<Taker, AllocError> {
    let mut taker = Taker::new(alloc)?;
    for id in 0..OPEN {
        taker.push(make_exchange(Side::Query, 0, 7, id))?;
    }
    Ok(taker)
}

// Their responses, the latest first.
fn answer_all(taker: &mut Taker, popped: &mut Popped) -> Result<(), AllocError> {
    for id in 0..OPEN {
        taker.push(make_exchange(Side::Response, SECOND, 7, OPEN - 1 - id))?;
        taker.pop_ready(popped);
    }
    Ok(())
}

#[test]
fn queries_of_one_client_wait(rt: HostRuntime) -> Result<(), AllocError> {
    let mut popped = Popped {
        pairs: 0,
        singles: 0,
    };
    let mut taker = open_queries(rt.alloc())?;
    answer_all(&mut taker, &mut popped)?;
    taker.pop_rest(&mut popped);
    assert_eq!(rt; popped.pairs, 100_000);
    assert_eq!(rt; popped.singles, 0);
    Ok(())
}

#[test]
fn windows_close_at_once(rt: HostRuntime) -> Result<(), AllocError> {
    let mut popped = Popped {
        pairs: 0,
        singles: 0,
    };
    let mut taker = open_queries(rt.alloc())?;
    taker.push(make_exchange(Side::Response, 60 * SECOND, 7, 0))?;
    taker.pop_ready(&mut popped);
    assert_eq!(rt; popped.pairs, 0);
    assert_eq!(rt; popped.singles, 100_000);
    Ok(())
}
