use std::alloc::AllocError;

/// Why a block was not resolved.
#[derive(Clone, Copy, Debug, PartialEq, Eq)]
pub enum ResolveFault {
    /// An index is at or past the length of its table. The table is told by its key, 0 to 8, as
    /// `keys::TABLES_IP_ADDRESS` (RFC 8618 7.3.2.3).
    Index(u8),
    /// The bytes at an index that stands for a name are no name (RFC 1035 3.1).
    Name,
    /// Memory ran out.
    NoMemory,
}

impl From<AllocError> for ResolveFault {
    ghost use Rattle.std.specs.Prelude.{◌≡◌};
    ghost use Rattle.cd_block.specs.declared.resolving.fault.ResolveFault.TheVariants.{NoMemory};

    ghost from_gives = { λ _ e. e ≡ NoMemory };

    fn from(_fault: AllocError) -> ResolveFault {
        ResolveFault::NoMemory
    }
}
