//! Why words say no command.

use thiserror::Error;

/// Why there is no command.
#[derive(Clone, Copy, Debug, PartialEq, Eq, Error)]
pub enum WordsFault {
    /// The words are no command line. The place is the number, from 0, of the first word that breaks a rule; where a
    /// word is missing it is the number of words.
    #[error("no command line, from word {place} on")]
    Usage { place: u64 },
    /// Memory ran out.
    #[error("out of memory")]
    NoMemory,
}
