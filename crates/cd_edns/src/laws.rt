//! A law of OPT records, the contract of a function that does nothing.

ghost use Rattle.cd_edns.specs.Opts.{OptsAreGivenBack};

/// An OPT record that is put into a message with none is the one that it then has.
pub fn opts_are_given_back()
    ensures { OptsAreGivenBack }
{}
