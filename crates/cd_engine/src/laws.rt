//! Laws of the file of a capture, and of the weight of its events: contracts of functions that do nothing.

ghost use Rattle.cd_engine.specs.Laws.{EachCaptureHasOneFile, EachCaptureHasOneClosedPart, EachCaptureHasOneCounts};
ghost use Rattle.cd_engine.specs.Laws.{EventsAreLinear, EventsAreLight, EachPacketIsCounted, MessagesAreItemsAndPairs};
ghost use Rattle.cd_engine.specs.HalvesComeBack.{EachPlainHalfComesBack};
ghost use Rattle.cd_engine.specs.Projecting.{WhatIsKeptIsRebuilt, WhatIsKeptIsCounted};
ghost use Rattle.cd_engine.specs.ReadBack.{FilesAreReadBack, FilesAreKept, ClosedPartsAreReadBack};

/// A law: each capture has exactly one file, under each valid settings. It does nothing.
pub fn each_capture_has_one_file()
    ensures { EachCaptureHasOneFile }
{}

/// A law: each capture has exactly one closed part, under each valid settings. It is a front of the file, however the
/// bytes go on. It does nothing.
pub fn each_capture_has_one_closed_part()
    ensures { EachCaptureHasOneClosedPart }
{}

/// A law: each capture has exactly one set of counts, under each valid settings. It does nothing.
pub fn each_capture_has_one_counts()
    ensures { EachCaptureHasOneCounts }
{}

/// A law: sixteen times what the events of a capture weigh together is at most 829 times its length in bytes. It does
/// nothing.
pub fn weights_of_events_are_linear()
    ensures { EventsAreLinear }
{}

/// A law: the events of a capture of at most 2^48 bytes weigh less than 2^63 together. It does nothing.
pub fn events_are_light()
    ensures { EventsAreLight }
{}

/// A law: each packet of a capture of bytes is counted once, by the kind of its event or by the reason why it has none.
/// It does nothing.
pub fn each_packet_is_counted()
    ensures { EachPacketIsCounted }
{}

/// A law: the queries and responses of a capture are its items and its pairs together, as each stands in one item. It does
/// nothing.
pub fn messages_are_items_and_pairs()
    ensures { MessagesAreItemsAndPairs }
{}

/// A law: under valid settings the file of a capture of bytes is read back. It ends whole, with the block parameters of
/// the settings and the blocks of the runs, and with each value in its place these are what is kept of the runs. Its
/// closed part is open, with the blocks of the runs that are closed. It does nothing.
pub fn files_are_read_back()
    ensures files { FilesAreReadBack }
    ensures kept { FilesAreKept }
    ensures closed_parts { ClosedPartsAreReadBack }
{}

/// A law: under valid settings, of the file of a capture of bytes the capture of what is kept of the runs is rebuilt, and
/// its counts are those of what is kept. It does nothing.
pub fn what_is_kept_is_rebuilt()
    ensures capture { WhatIsKeptIsRebuilt }
    ensures counts { WhatIsKeptIsCounted }
{}

/// A law: where every supported hint is set, each plain half of each record of a run comes back from the item that is kept
/// of it, and its payload is read as its own message. It does nothing.
pub fn plain_halves_come_back()
    ensures { EachPlainHalfComesBack }
{}
