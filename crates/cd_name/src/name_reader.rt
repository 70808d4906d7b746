//! A reader of the names of one payload (RFC 1035 4.1.4).

ghost use Rattle.std.specs.Prelude.{◌≡◌, ◌<◌, ◌≤◌, length, IfOk, OnErr};
ghost use Rattle.cd_name.specs.Names.{name_at};
ghost use Rattle.cd_name.specs.NameGiving.{GivesName, AppendsName};

use crate::fault::NameFault;
use crate::leads::Leads;
use crate::name::Name;
use crate::name_walk::walk;
use std::alloc::{AllocError, Global};
use std::marker::Model;

/// Reads the names of one payload, each at its offset. Contracts see it as the bytes of the payload.
///
/// To read a name takes at most one step for each of its labels, which are at most 127, and two for each pointer
/// between them. A pointer that leads to a pointer is followed on to where that one leads. Once some 100 were, a table
/// keeps where each offset below 16,384 leads, so that each of them is followed on at most twice more, however many
/// names lead to it. Where no memory is found for the table, names are read without it. No contract speaks of the
/// number of steps.
#[derive(Drop)]
pub struct NameReader<'p> {
    leads: Leads<'p>,
    alloc: Global,
}

impl<'p> Model for NameReader<'p> {
    ghost use Rattle.std.specs.Prelude.{List, ℕ};

    ghost Value = { List ℕ };

    ghost view = { λ r. r.leads };
}

impl<'p> NameReader<'p> {
    /// A reader of the names of a payload.
    pub fn new(alloc: Global, payload: &'p [u8]) -> NameReader<'p>
        ensures { result ≡ payload.now }
    {
        NameReader {
            leads: Leads::new(alloc, payload),
            alloc,
        }
    }

    /// The payload, all of it.
    pub fn payload(&self) -> &'p [u8]
        ensures { result.now ≡ self.now }
    {
        self.leads.payload()
    }

    /// Appends the name at an offset to some bytes, without pointers, and gives the offset after its own bytes, by the
    /// rules of `append_name`. An `Err` leaves the bytes as they were.
    pub fn append(&mut self, bytes: &mut Vec<u8>, at: usize) -> Result<usize, NameFault>
        ensures read { AppendsName bytes.old.items bytes.new.items result (name_at self.old at) }
        ensures within { IfOk result (λ next. (at < next) × (next ≤ length self.old)) }
        ensures err { OnErr result (bytes.new.items ≡ bytes.old.items) }
        ensures same { self.new ≡ self.old }
    {
        match walk(&mut self.leads, at) {
            Ok((name, next)) => match bytes.extend_from_slice(name.as_slice()) {
                Ok(()) => Ok(next),
                Err(AllocError) => Err(NameFault::NoMemory),
            },
            Err(why) => Err(NameFault::Bad(why)),
        }
    }

    /// Reads the name at an offset, and gives the offset after its own bytes, by the rules of `append_name`. The name
    /// has memory for its bytes and no more.
    pub fn read(&mut self, at: usize) -> Result<(Name, usize), NameFault>
        ensures read { GivesName result (name_at self.old at) }
        ensures within { IfOk result (λ r. (at < r.1) × (r.1 ≤ length self.old)) }
        ensures same { self.new ≡ self.old }
    {
        match walk(&mut self.leads, at) {
            Ok((name, next)) => match Vec::from_slice(self.alloc, name.as_slice()) {
                Ok(bytes) => Ok((Name::from_vec(bytes), next)),
                Err(AllocError) => Err(NameFault::NoMemory),
            },
            Err(why) => Err(NameFault::Bad(why)),
        }
    }
}
