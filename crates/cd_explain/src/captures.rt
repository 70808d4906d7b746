//! Captures that are fed in chunks.

ghost use Rattle.std.specs.Prelude.{◌≡◌};

use cd_capture::CaptureReader;
use cd_packet::{BadCapture, EndState, FeedFault, Packet};
use std::alloc::{AllocError, Global};

// The most bytes that a reader is fed.
const MOST_FED: u64 = 281_474_976_710_656;

// A reader, and how many bytes it was fed.
#[derive(Drop)]
struct Feeder {
    reader: CaptureReader,
    fed: u64,
    ghost counted: { reader.fed_count ≡ fed },
}

impl Feeder {
    // A reader that was fed nothing.
    fn new(alloc: Global) -> Feeder {
        Feeder {
            reader: CaptureReader::new(alloc),
            fed: 0,
        }
    }

    // The next packet.
    fn next(&mut self) -> Result<Option<Packet>, AllocError> {
        self.reader.next()
    }

    // Feeds a chunk, and gives the refused place where there is one. More bytes than memory holds are want of memory.
    fn feed(&mut self, chunk: &[u8]) -> Result<Option<BadCapture>, AllocError> {
        let Some(fed) = self.fed.checked_add(chunk.len() as u64) else {
            return Err(AllocError);
        };
        if fed > MOST_FED {
            return Err(AllocError);
        }
        match self.reader.feed(chunk) {
            Ok(()) => {
                self.fed = fed;
                Ok(None)
            }
            Err(FeedFault::Bad(bad)) => {
                self.fed = fed;
                Ok(Some(bad))
            }
            Err(FeedFault::NoMemory) => Err(AllocError),
        }
    }
}

/// What is done with each packet of a capture.
pub trait Visit {
    fn packet(&mut self, packet: &Packet) -> Result<(), AllocError>;
}

/// What the last chunk was answered, and how the capture ends.
#[derive(Clone, Copy, Debug)]
pub struct Walked {
    pub refused: Option<BadCapture>,
    pub end: EndState,
}

// Hands on each packet that is there.
fn drain<V: Visit>(feeder: &mut Feeder, visitor: &mut V) -> Result<(), AllocError> {
    for _ in 0..u64::MAX {
        match feeder.next()? {
            Some(packet) => visitor.packet(&packet)?,
            None => return Ok(()),
        }
    }
    Ok(())
}

/// Feeds a capture in chunks of so many bytes, or whole where that is 0, and hands on the packets after each.
pub fn walk<V: Visit>(
    alloc: Global,
    bytes: &[u8],
    chunk_size: usize,
    visitor: &mut V,
) -> Result<Walked, AllocError> {
    let mut feeder = Feeder::new(alloc);
    let size = if chunk_size == 0 {
        bytes.len()
    } else {
        chunk_size
    };
    let mut refused = None;
    if size > 0 {
        for chunk in bytes.chunks(size) {
            refused = feeder.feed(chunk)?;
            drain(&mut feeder, visitor)?;
        }
    }
    Ok(Walked {
        refused,
        end: feeder.reader.end(),
    })
}
