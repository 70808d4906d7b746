//! The block parameters of a file that is read.

ghost use Rattle.std.specs.Prelude.{◌≡◌, ◌<◌, ◌≤◌, [], length, slice_get, IfSome, option_map};
ghost use Rattle.cd_file.specs.ReadHead.{HasTicks};

use cd_block::Params;
use cd_name::List;
use std::alloc::Global;
use std::marker::Model;

/// The block parameters of a file, by each of which a second has 1 to 1,000,000,000 ticks (RFC 8618 7.3.1.1.1).
#[derive(Debug, Drop)]
pub struct BlockParameters {
    entries: List<Params>,
}

// The entry with this number.
fn entry_at(entries: &List<Params>, number: u64) -> Option<&Params>
    ensures { option_map (λ p. p.now) result ≡ slice_get entries.now number }
{
    entries.as_slice().get(number as usize)
}

impl Model for BlockParameters {
    ghost use Rattle.std.specs.Prelude.{List};
    ghost use Rattle.cd_block.specs.declared.params.Params.{Params};
    ghost use Rattle.cd_file.specs.ReadHead.{HasTicks};

    ghost Value = { List Params };

    ghost view = { λ p. p.entries };

    ghost invariant = { λ p. HasTicks p.entries };
}

impl BlockParameters {
    /// The block parameters of a preamble.
    pub fn new(entries: List<Params>) -> BlockParameters
        requires { HasTicks entries }
        ensures { result ≡ entries }
    {
        BlockParameters { entries }
    }

    /// No block parameters.
    #[tactic(auto, unfolding(crate::specs::ReadHead::have_ticks))]
    pub fn none(alloc: Global) -> BlockParameters
        ensures { result ≡ [] }
    {
        BlockParameters {
            entries: List::from_vec(Vec::new(alloc)),
        }
    }

    /// How many there are.
    pub fn len(&self) -> usize
        ensures { result ≡ length self.now }
    {
        self.entries.as_slice().len()
    }

    /// Those with this number.
    pub fn get(&self, number: u64) -> Option<&Params>
        ensures value { option_map (λ p. p.now) result ≡ slice_get self.now number }
        ensures least { IfSome result (λ p. 0 < p.now.ticks) }
        ensures most { IfSome result (λ p. p.now.ticks ≤ 1000000000) }
    {
        entry_at(&self.entries, number)
    }
}
