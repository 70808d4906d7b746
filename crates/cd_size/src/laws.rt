//! Laws of the sizes of blocks, each the contract of a function that does nothing.

ghost use Rattle.cd_size.specs.Laws.{KeptBlocksAreShort, BlocksAreLight, BlocksAreReadable, BlocksAreNamed, EventsAreInRange, EventsAreTimed, DatagramsAreInRange};

/// The spelling of a kept block with its tables takes at most 205 bytes and the costs of its items and of its malformed
/// messages.
pub fn kept_blocks_are_short()
    ensures { KeptBlocksAreShort }
{}

/// The spelling of the block of a run takes at most the weight of the run and 1,024 bytes, whatever the parameters
/// are. The numbers of each event are in the ranges of their types, its body is of its kind, and it weighs at least as
/// much as its body, as the event of a datagram does.
pub fn blocks_are_light()
    ensures { BlocksAreLight }
{}

/// The block of a run is read back from a file, where its events are in range, their times lie before the end of time,
/// and the run weighs little enough that the block is no longer than a block may be.
pub fn blocks_are_read_back()
    ensures { BlocksAreReadable }
{}

/// The names of the kept block of a run are names, as those of valid messages are.
pub fn blocks_are_named()
    ensures { BlocksAreNamed }
{}

/// The event of a datagram is in range, where the numbers of the datagram are in the ranges of their types.
pub fn events_are_in_range()
    ensures { EventsAreInRange }
{}

/// The time of the event of a packet lies before the end of time, as that of the packet does, and its size has 64 bits.
pub fn events_are_timed()
    ensures { EventsAreTimed }
{}

/// The datagram that a packet holds is in range, where the captured bytes of the packet are bytes.
pub fn datagrams_are_in_range()
    ensures { DatagramsAreInRange }
{}
