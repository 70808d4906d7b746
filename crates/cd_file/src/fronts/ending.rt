//! How a file ends at the front of some bytes.

ghost use Rattle.std.specs.Prelude.{◌≡◌, ◌+◌, ◌<◌, ◌^◌, List, length};
ghost use Rattle.cd_file.specs.ReadFile.{Open};
ghost use Rattle.cd_file.specs.Fronts.{ending_of, fault_end, LiesBelow};

use crate::refusal::FileWhy;
use cd_cbor::{CborFault, Why};

/// How a file ends where a part of it was to stand.
#[derive(Clone, Copy)]
pub enum Ending {
    /// It is whole, and nothing follows it.
    Whole,
    /// Its bytes so far end before it does, and hold no refusal.
    Open,
    /// It is refused.
    Refused(FileWhy),
}

/// Why a preamble or a block was not read.
#[derive(Clone, Copy)]
pub enum Unread {
    /// The file ends so.
    Ended(Ending),
    /// Memory ran out.
    NoMemory,
}

/// How a file ends at a fault of its bytes from an offset on.
pub fn ending_at(at: u64, fault: CborFault) -> Ending
    requires { LiesBelow (2 ^ 64) at fault }
    ensures { ending_of result ≡ fault_end Open at fault }
{
    match fault {
        CborFault::NoMemory => Ending::Open,
        CborFault::Bad { at: place, why } => {
            if why == Why::End {
                Ending::Open
            } else {
                Ending::Refused(FileWhy::Cbor(at + place))
            }
        }
    }
}
