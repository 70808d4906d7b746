//! Laws of spellings, each the contract of a function that does nothing.

ghost use Rattle.cd_cbor.specs.Laws.{SpelledIsRead, SpelledIsReadThere, ReadIsSpelled, ReadIsSpelledThere, NoSpellingGoesOn, OneItemIsSpelled, ReadingsStay, FittingIsSpelled, SpelledFits, WrittenIsSpelling};
ghost use Rattle.cd_cbor.specs.EventLaws.{EventsFollow};
ghost use Rattle.cd_cbor.specs.OnePath.{HistoriesAreOne, HistoriesStay, StopsAreOne, EventsAreTheItems};

/// What spells an item is read as that item, to its last byte, whatever stands after it.
pub fn what_is_spelled_is_read()
    ensures { SpelledIsRead }
{}

/// What spells an item with any depth is read as that item wherever it stands, whatever a break would be there.
pub fn what_is_spelled_is_read_there()
    ensures { SpelledIsReadThere }
{}

/// What is read as an item spells that item, in as many bytes.
pub fn what_is_read_is_spelled()
    ensures { ReadIsSpelled }
{}

/// What is read as an item with any depth, at any offset, spells that item: the bytes up to the offset after it.
pub fn what_is_read_there_is_spelled()
    ensures { ReadIsSpelledThere }
{}

/// No spelling of an item is a proper front of a spelling of any item.
pub fn no_spelling_goes_on()
    ensures { NoSpellingGoesOn }
{}

/// Some bytes spell at most one item.
pub fn one_item_is_spelled()
    ensures { OneItemIsSpelled }
{}

/// What is read, an item or a fault, stays as the bytes go on, but for an end, which stands at the end of the bytes.
/// This holds with any depth and at any offset.
pub fn readings_stay()
    ensures { ReadingsStay }
{}

/// What `encode` writes of an item that fits is a spelling of it: its arrays, maps and tags are no deeper, its strings
/// are no longer than they may be, its texts are UTF-8, and what it keeps as bytes is spelled by them.
pub fn what_fits_is_spelled()
    ensures { FittingIsSpelled }
{}

/// An item that some bytes spell fits.
pub fn what_is_spelled_fits()
    ensures { SpelledFits }
{}

/// What `encode` writes of an item that has a spelling is a spelling of it.
pub fn what_is_written_is_a_spelling()
    ensures { WrittenIsSpelling }
{}

/// Where an item is due, the events that a reader gives are those of what is read there: up to the end of the item, or
/// up to the first fault, at its place.
pub fn events_follow_items()
    ensures { EventsFollow }
{}

/// Some bytes have one history: of two of them the shorter is a front of the other, and what is read up to an offset
/// fixes the events, what is open, and how many bytes the events have.
pub fn histories_are_one()
    ensures { HistoriesAreOne }
{}

/// A history of some bytes is one of more bytes.
pub fn histories_stay()
    ensures { HistoriesStay }
{}

/// Some bytes stop at one place, after the same events, and a fault of a head stays as bytes come.
pub fn stops_are_one()
    ensures { StopsAreOne }
{}

/// Where an item is due, the events that come are those of the item that is read there, and no others.
pub fn events_are_the_items()
    ensures { EventsAreTheItems }
{}
