//! What holds of the pairing of every list of events. Each law is the contract of a function that does nothing.

ghost use Rattle.cd_pairing.specs.Laws.{PairingsAreUnique, EachListHasPairing, FrontsKeepPairs, OneMoreJoins};
ghost use Rattle.cd_pairing.specs.PairSet.{MatchingsAreSets};
ghost use Rattle.cd_pairing.specs.Records.{ReleasedStay};
ghost use Rattle.cd_pairing.specs.Settling.{SettledKeepPartners, SettledStaySettled, OneMoreJoinsOpen, LaterWaitLonger};

/// No list of events has two pairings.
pub fn pairings_are_unique()
    ensures { PairingsAreUnique }
{}

/// Each list of events has a pairing.
pub fn each_list_has_a_pairing()
    ensures { EachListHasPairing }
{}

/// The pairs of a pairing are the one set of compatible pairs in which no position stands twice and that no pair
/// blocks: they are such a set, and every such set is that one. This holds under any test of compatible positions.
pub fn pairings_are_sets()
    ensures { MatchingsAreSets }
{}

/// The pairing of the first events is that of all, cut to the pairs with both positions among the first.
pub fn fronts_keep_their_pairs()
    ensures { FrontsKeepPairs }
{}

/// One more event joins the earliest unpaired event that is compatible with it, and stays alone where there is none.
/// Nothing else changes.
pub fn one_more_joins_the_earliest()
    ensures { OneMoreJoins }
{}

/// The same, where only events with an open window are looked at. No event may be lighter than `LEAST_WEIGHT`.
pub fn one_more_joins_the_earliest_open()
    ensures { OneMoreJoinsOpen }
{}

/// Of two events of one side, the later one waits longer: what comes in the window of the earlier one comes in that of
/// the later one.
pub fn later_events_wait_longer()
    ensures { LaterWaitLonger }
{}

/// A settled event has the same partner, or none, in the pairing of any longer list. No event may be lighter than
/// `LEAST_WEIGHT`.
pub fn settled_events_keep_their_partners()
    ensures { SettledKeepPartners }
{}

/// A settled event is settled in any longer list. No event may be lighter than `LEAST_WEIGHT`.
pub fn settled_events_stay_settled()
    ensures { SettledStaySettled }
{}

/// The released records are a front of those released of any longer list, and of all of its records. No event may be
/// lighter than `LEAST_WEIGHT`.
pub fn released_records_stay()
    ensures { ReleasedStay }
{}
