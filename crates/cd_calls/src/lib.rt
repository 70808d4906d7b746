//! Calls of the crates below, for what no table of values can say: each public call once with ample memory, devices
//! that fail, a capture that comes in chunks, and very large input. Values are stored cases.
//!
//! No crate with code of its own has tests, since a crate with tests is proved twice. Those of the crates that read
//! stand in `cd_reading_calls`, those of the ring in `cd_ring_calls`, and all others here.
#![tactic(auto)]

#[cfg(test)]
mod driving;
#[cfg(test)]
mod lists;
#[cfg(test)]
mod messages;
#[cfg(test)]
mod names;
#[cfg(test)]
mod opt_records;
#[cfg(test)]
mod pairing;
#[cfg(test)]
mod ports;
#[cfg(test)]
mod program;
#[cfg(test)]
mod runs;
#[cfg(test)]
mod settings;
#[cfg(test)]
mod store;
#[cfg(test)]
mod windows;
#[cfg(test)]
mod words;
#[cfg(test)]
mod written_names;
