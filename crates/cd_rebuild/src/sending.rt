//! What is sent of a block.

use cd_name::Blob;

// A message as it is sent.
#[derive(Drop)]
pub(crate) struct Sending {
    // Nanoseconds since 1970, below 2^32 seconds.
    pub(crate) time: u64,
    // Its packet of IP; none where the message or the payload is too long.
    pub(crate) packet: Option<Blob>,
}
