//! Calls of the crates that read captures, CBOR and files, for what no table of values can say: each public call once
//! with ample memory, input that comes in pieces, refusals that stay, and very large input. Values are stored cases.
#![tactic(auto)]

#[cfg(test)]
mod blocks;
#[cfg(test)]
mod bytes;
#[cfg(test)]
mod captures;
#[cfg(test)]
mod cbor;
#[cfg(test)]
mod files;
#[cfg(test)]
mod packets;
