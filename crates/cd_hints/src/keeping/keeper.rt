//! The types of the records that are kept.

ghost use Rattle.std.specs.Prelude.{◌≡◌, nat_eq};
ghost use Rattle.std.specs.List.{list_any};
ghost use Rattle.std.specs.List.Sorted.{IsStrictlyIncreasing};

use crate::settings::validity::ascends;
use cd_block::{Hints, Params};
use std::marker::Model;

// Whether a type is one of these, which ascend.
fn is_in_ascending(types: &[u16], rtype: u16) -> bool
    requires { IsStrictlyIncreasing types.now }
    ensures { result ≡ list_any (λ t. nat_eq t rtype) types.now }
{
    match types.binary_search(&rtype) {
        Ok(_index) => true,
        Err(_index) => false,
    }
}

/// The parameters by which a record is kept, with whether their types are known to ascend. Those of valid settings do.
/// Where they do, a type is found by binary search.
#[derive(Debug, Drop)]
pub struct Keeper<'a> {
    pub(crate) params: &'a Params,
    ascend: bool,
}

impl<'a> Model for Keeper<'a> {
    ghost use Rattle.std.specs.Prelude.{IsTrue};
    ghost use Rattle.std.specs.List.Sorted.{IsStrictlyIncreasing};
    ghost use Rattle.cd_block.specs.declared.params.Params.{Params};

    ghost Value = { Params };

    ghost view = { λ k. k.params.now };

    ghost invariant = { λ k. IsTrue k.ascend → IsStrictlyIncreasing k.params.now.rr_types };
}

impl<'a> Keeper<'a> {
    /// Looks once whether the types ascend.
    pub fn new(params: &'a Params) -> Keeper<'a>
        ensures { result ≡ params.now }
    {
        Keeper {
            params,
            ascend: ascends(params.rr_types.as_slice()),
        }
    }

    /// The same of parameters whose types ascend.
    pub fn of_ascending(params: &'a Params) -> Keeper<'a>
        requires { IsStrictlyIncreasing params.now.rr_types }
        ensures { result ≡ params.now }
    {
        Keeper {
            params,
            ascend: true,
        }
    }

    /// The hints of the parameters.
    pub fn hints(&self) -> Hints
        ensures { result ≡ self.now.hints }
    {
        self.params.hints
    }

    /// Whether a type is listed.
    pub fn lists(&self, rtype: u16) -> bool
        ensures { result ≡ list_any (λ t. nat_eq t rtype) self.now.rr_types }
    {
        let types = self.params.rr_types.as_slice();
        if self.ascend {
            is_in_ascending(types, rtype)
        } else {
            types.contains(&rtype)
        }
    }
}
