//! Laws of runs, each the contract of a function that does nothing.

ghost use Rattle.cd_record.specs.Laws.{RunsAreOne, OneRecordIsAdmissible};

/// Records of which each may stand in a block alone are cut into runs in exactly one way.
pub fn runs_are_one()
    ensures { RunsAreOne }
{}

/// A record may stand in a block alone, whatever the valid settings are, where each of its events weighs at most
/// `GREATEST_WEIGHT` of cd_ident, as the event of a datagram does.
pub fn one_record_is_admissible()
    ensures { OneRecordIsAdmissible }
{}
