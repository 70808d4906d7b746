use crate::refusal::FileWhy;
use std::alloc::AllocError;

/// Why an item was not read.
#[derive(Clone, Copy, Debug, PartialEq, Eq)]
pub enum ItemFault {
    /// It is refused.
    Refused(FileWhy),
    /// Memory ran out.
    NoMemory,
}

impl From<AllocError> for ItemFault {
    ghost use Rattle.std.specs.Prelude.{◌≡◌};
    ghost use Rattle.cd_file.specs.declared.reading.fault.ItemFault.TheVariants.{NoMemory};

    ghost from_gives = { λ _ e. e ≡ NoMemory };

    fn from(_fault: AllocError) -> ItemFault {
        ItemFault::NoMemory
    }
}
