//! A law of prefixes, the contract of a function that does nothing.

ghost use Rattle.cd_hints.specs.Prefix.{WholeAddressesStay};

/// An address of which all bits are kept stays as it is.
pub fn whole_addresses_stay()
    ensures { WholeAddressesStay }
{}
