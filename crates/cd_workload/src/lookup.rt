//! A lookup of a workload.

// The number of a lookup, from 0 on, and what is drawn for it.
#[derive(Clone, Copy)]
pub(crate) struct Lookup {
    pub(crate) number: u64,
    pub(crate) drawn: u64,
}
