use thiserror::Error;

/// The first rule of names that is broken (RFC 1035 3.1, 4.1.4).
#[derive(Clone, Copy, Debug, PartialEq, Eq, Error)]
pub enum NameWhy {
    /// Bytes of a label or a pointer, or the byte that begins one, are missing.
    #[error("the bytes end before the name does")]
    Short,
    /// A length byte is 64 to 191.
    #[error("a label has a reserved type")]
    Label,
    /// A pointer does not lead before the run of labels that it ends.
    #[error("a pointer does not lead backwards")]
    Pointer,
    /// The labels with their length bytes and the root have more than 255 bytes.
    #[error("the name has more than 255 bytes")]
    LongName,
}

/// Why a name was not read.
#[derive(Clone, Copy, Debug, PartialEq, Eq, Error)]
pub enum NameFault {
    /// A rule of names is broken.
    #[error("{0}")]
    Bad(NameWhy),
    /// Memory ran out.
    #[error("out of memory")]
    NoMemory,
}
